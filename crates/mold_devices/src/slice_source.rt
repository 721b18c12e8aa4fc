//! A source that reads a slice.

ghost use Rattle.std.specs.Prelude.{◌≡◌, ◌<◌, ◌≤◌, ◌++◌, min, take, drop, length, Some, Ok, IfOk};
ghost use Rattle.std.specs.Io.{ReadsAtMost};
ghost use Rattle.std.specs.Io.KnownBytes.{ReadConsumes};
ghost use Rattle.mold_devices.specs.Devices.{Counts};

use crate::device_fault::DeviceFault;
use crate::source::Source;
use std::marker::Model;

/// A source that reads from a slice and never fails.
#[derive(Drop)]
pub struct SliceSource<'a> {
    left: &'a [u8],
}

impl<'a> Model for SliceSource<'a> {
    ghost use Rattle.std.specs.Prelude.{ℕ, List};

    ghost Value = { List ℕ };

    ghost view = { λ s. s.left.now };
}

impl<'a> SliceSource<'a> {
    /// Makes a source of these bytes.
    pub fn new(bytes: &'a [u8]) -> SliceSource<'a>
        ensures { result ≡ bytes.now }
    {
        SliceSource { left: bytes }
    }
}

impl<'a> Source for SliceSource<'a> {
    ghost left = { λ s. Some s };

    ghost bound = { λ s. length s };

    ghost failed = { λ _. 0 };

    fn read(&mut self, buffer: &mut [u8]) -> Result<usize, DeviceFault>
        // The contract of every source.
        ensures count { ReadsAtMost result buffer.new }
        ensures bytes { ReadConsumes (Some self.old) (Some self.new) result buffer.new }
        ensures bound { IfOk result (λ n. 0 < n → length self.new < length self.old) }
        ensures kept { length self.new ≤ length self.old }
        ensures failures { Counts 0 0 result }

        // What this source does in addition.
        ensures moved { result ≡ Ok (min (length self.old) (length buffer.old)) }
        ensures left { self.new ≡ drop (length buffer.old) self.old }
        ensures buffer { IfOk result (λ n. buffer.new ≡ take n self.old ++ drop n buffer.old) }
    {
        let count = self.left.len().min(buffer.len());
        let (given, left) = self.left.split_at(count);
        buffer[..count].copy_from_slice(given);
        self.left = left;
        Ok(count)
    }

    fn failures(&self) -> u64 {
        0
    }
}
