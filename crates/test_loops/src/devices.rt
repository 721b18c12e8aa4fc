//! Devices made of readers and writers. A device makes one call and reports its failure.

use crate::comparisons::holds_at;
use mold_devices::{DeviceFault, FromRead, IntoWrite, Sink, Source};
use std::io;
use std::io::{Error, ErrorKind, Read, Write};

/// Returns one byte a call. After the first call 16 calls are interrupted, and after the next one 17 calls.
#[derive(Drop)]
struct Interrupted {
    calls: u64,
}

impl Read for Interrupted {
    fn read(&mut self, buffer: &mut [u8]) -> io::Result<usize> {
        self.calls = self.calls.saturating_add(1);
        if matches!(self.calls, 2..=17 | 19..=35) {
            return Err(Error::from(ErrorKind::Interrupted));
        }
        if buffer.is_empty() {
            return Ok(0);
        }
        buffer[0] = b'x';
        Ok(1)
    }
}

/// Takes one byte a call. The second call takes none, and the third is interrupted.
#[derive(Drop)]
struct Reluctant {
    calls: u64,
}

impl Write for Reluctant {
    fn write(&mut self, bytes: &[u8]) -> io::Result<usize> {
        self.calls = self.calls.saturating_add(1);
        if self.calls == 3 {
            return Err(Error::from(ErrorKind::Interrupted));
        }
        if self.calls == 2 || bytes.is_empty() {
            return Ok(0);
        }
        Ok(1)
    }

    fn flush(&mut self) -> io::Result<()> {
        Ok(())
    }
}

/// What each read returns: how many bytes, or a failure.
const READS: [Result<usize, DeviceFault>; 4] = [Ok(1), Ok(1), Err(DeviceFault), Ok(1)];

#[test]
fn an_interrupted_read_is_repeated_16_times(rt: HostRuntime) {
    let mut source = FromRead::new(Interrupted { calls: 0 });
    let mut buffer = [0u8; 8];
    for (i, wanted) in READS.iter().enumerate() {
        holds_at(&rt, source.read(&mut buffer) == *wanted, "read", i);
    }
    holds_at(&rt, source.failures() == 1, "failures after", 4);
    holds_at(&rt, source.into_inner().calls == 36, "calls after", 4);
}

/// What each write returns.
const WRITES: [Result<usize, DeviceFault>; 4] = [Ok(1), Err(DeviceFault), Err(DeviceFault), Ok(1)];

#[test]
fn an_idle_or_interrupted_write_is_a_failure(rt: HostRuntime) {
    let mut sink = IntoWrite::new(Reluctant { calls: 0 });
    for (i, wanted) in WRITES.iter().enumerate() {
        holds_at(&rt, sink.write(b"ab") == *wanted, "write", i);
    }
    holds_at(&rt, sink.failures() == 2, "failures after", 4);
}
