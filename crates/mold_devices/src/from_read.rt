//! A reader used as a source.

ghost use Rattle.std.specs.Prelude.{◌≡◌, ◌+◌, ◌<◌, ◌≤◌, IsErr, IfOk};
ghost use Rattle.std.specs.Io.{ReadsAtMost};
ghost use Rattle.std.specs.Io.KnownBytes.{ReadConsumes};
ghost use Rattle.mold_devices.specs.Devices.{Counts};

use crate::device_fault::DeviceFault;
use crate::source::Source;
use std::io::{ErrorKind, Read};
use std::marker::Model;

/// The greatest number of times that one read repeats an interrupted call.
const MAX_REPEATS: u64 = 16;

/// A source that reads from a reader. An interrupted call is repeated, at most 16 times in one read. Every other error
/// of the reader is a failure, and so is an interrupted call after 16 others. Each call after the first `u64::MAX` is a
/// failure too.
#[derive(Drop)]
pub struct FromRead<R> {
    reader: R,
    calls_left: u64,
    failures: u64,
}

impl<R> Model for FromRead<R> {
    ghost use Rattle.mold_devices.specs.Devices.{ReaderState};

    ghost Value = { ReaderState R };

    ghost view = { λ s. record { reader = s.reader; calls_left = s.calls_left; failures = s.failures } };
}

impl<R> FromRead<R> {
    /// Makes a source that reads from `reader`.
    pub fn new(reader: R) -> FromRead<R>
        ensures reader { result.reader ≡ reader }
        ensures calls_left { result.calls_left ≡ u64.MAX }
        ensures failures { result.failures ≡ 0 }
    {
        FromRead {
            reader,
            calls_left: u64::MAX,
            failures: 0,
        }
    }

    /// Returns the reader.
    pub fn into_inner(self) -> R
        ensures { result ≡ self.reader }
    {
        let FromRead {
            reader,
            calls_left: _,
            failures: _,
        } = self;
        reader
    }
}

impl<R: Read> Source for FromRead<R> {
    ghost left = { λ s. R.remaining s.reader };

    ghost bound = { λ s. s.calls_left };

    ghost failed = { λ s. s.failures };

    fn read(&mut self, buffer: &mut [u8]) -> Result<usize, DeviceFault>
        ensures count { ReadsAtMost result buffer.new }
        ensures bytes { ReadConsumes (R.remaining self.old.reader) (R.remaining self.new.reader) result buffer.new }
        ensures kept { self.new.calls_left ≤ self.old.calls_left }
        ensures failures { Counts self.old.failures self.new.failures result }

        // Every call is counted: one, and at most 16 that repeat it. A call beyond the limit does not reach the reader.
        ensures calls_left { self.old.calls_left ≤ self.new.calls_left + 17 }
        ensures some { 0 < self.old.calls_left → self.new.calls_left < self.old.calls_left }
        ensures spent { self.old.calls_left ≡ 0 → IsErr result × (self.new.reader ≡ self.old.reader) }
        ensures bound { IfOk result (λ n. 0 < n → self.new.calls_left < self.old.calls_left) }
    {
        if let Ok(count) = read_some(&mut self.reader, &mut self.calls_left, buffer) {
            return Ok(count);
        }
        self.failures = self.failures.saturating_add(1);
        Err(DeviceFault)
    }

    fn failures(&self) -> u64 {
        self.failures
    }
}

// Calls the reader, and repeats the call while it is interrupted: at most 16 times, and only while calls are left.
fn read_some<R: Read>(
    reader: &mut R,
    calls_left: &mut u64,
    buffer: &mut [u8],
) -> Result<usize, DeviceFault>
    ensures count { ReadsAtMost result buffer.new }
    ensures bytes { ReadConsumes (R.remaining reader.old) (R.remaining reader.new) result buffer.new }
    ensures kept { calls_left.new ≤ calls_left.old }
    ensures few { calls_left.old ≤ calls_left.new + 17 }
    ensures some { 0 < calls_left.old → calls_left.new < calls_left.old }
    ensures spent { calls_left.old ≡ 0 → IsErr result × (reader.new ≡ reader.old) }
{
    let first = *calls_left;
    'calls: while *calls_left > 0 && first - *calls_left <= MAX_REPEATS {
        *calls_left -= 1;
        match reader.read(buffer) {
            Ok(count) => return Ok(count),
            Err(error) if error.kind() == ErrorKind::Interrupted => {}
            Err(_) => break 'calls,
        }
    }
    Err(DeviceFault)
}
