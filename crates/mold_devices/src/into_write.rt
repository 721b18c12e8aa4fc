//! A writer used as a sink.

ghost use Rattle.std.specs.Prelude.{◌≡◌, false, true};

use crate::device_fault::DeviceFault;
use crate::sink::Sink;
use std::io::Write;
use std::marker::Model;

/// A sink that writes to a writer. Every error of the writer is a failure, including an interrupted call. If
/// a write of one or more bytes writes nothing, it is a failure too. The sink never flushes, even if it is
/// live: standard output does not buffer.
#[derive(Drop)]
pub struct IntoWrite<W> {
    writer: W,
    failures: u64,
    live: bool,
}

impl<W> Model for IntoWrite<W> {
    ghost use Rattle.mold_devices.specs.Devices.{WriterState};

    ghost Value = { WriterState W };

    ghost view = { λ s. record { writer = s.writer; failures = s.failures; live = s.live } };
}

impl<W> IntoWrite<W> {
    /// Makes a sink that receives text in large pieces.
    pub fn new(writer: W) -> IntoWrite<W>
        ensures writer { result.writer ≡ writer }
        ensures failures { result.failures ≡ 0 }
        ensures live { result.live ≡ false }
    {
        IntoWrite {
            writer,
            failures: 0,
            live: false,
        }
    }

    /// Makes a live sink, which receives text as soon as it is available.
    pub fn live(writer: W) -> IntoWrite<W>
        ensures writer { result.writer ≡ writer }
        ensures failures { result.failures ≡ 0 }
        ensures live { result.live ≡ true }
    {
        let mut sink = IntoWrite::new(writer);
        sink.live = true;
        sink
    }

    /// Returns the writer, for example to flush it.
    pub fn into_inner(self) -> W
        ensures { result ≡ self.writer }
    {
        let IntoWrite {
            writer,
            failures: _,
            live: _,
        } = self;
        writer
    }
}

impl<W: Write> Sink for IntoWrite<W> {
    ghost held = { λ s. W.contents s.writer };

    ghost failed = { λ s. s.failures };

    ghost live = { λ s. s.live };

    fn write(&mut self, bytes: &[u8]) -> Result<usize, DeviceFault> {
        if let Ok(count) = self.writer.write(bytes) {
            if count > 0 || bytes.is_empty() {
                return Ok(count);
            }
        }
        self.failures = self.failures.saturating_add(1);
        Err(DeviceFault)
    }

    fn failures(&self) -> u64 {
        self.failures
    }

    fn is_live(&self) -> bool {
        self.live
    }
}
