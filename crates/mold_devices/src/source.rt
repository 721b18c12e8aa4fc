//! The trait of sources, from which bytes are read.

ghost use Rattle.std.specs.Prelude.{◌≡◌, ◌<◌, ◌≤◌, ℕ, List, Option, IfOk};
ghost use Rattle.std.specs.Io.{ReadsAtMost};
ghost use Rattle.std.specs.Io.KnownBytes.{ReadConsumes};
ghost use Rattle.mold_devices.specs.Devices.{Counts};

use crate::device_fault::DeviceFault;

/// A source of bytes.
pub trait Source {
    // The remaining bytes, if the source exposes them.
    ghost left: { Self → Option (List ℕ) };

    // The bound decreases with each read of more than 0 bytes and never increases. So every loop that reads
    // to the end terminates.
    ghost bound: { Self → ℕ };

    // The number of failures. It stays at `u64::MAX` once it is there.
    ghost failed: { Self → ℕ };

    /// Reads bytes into the start of `buffer` and returns how many. If `buffer` is not empty, 0 means the end
    /// of the source. After a fault, the contents of `buffer` are unspecified.
    fn read(&mut self, buffer: &mut [u8]) -> Result<usize, DeviceFault>
        ensures count { ReadsAtMost result buffer.new }
        ensures bytes { ReadConsumes (left self.old) (left self.new) result buffer.new }
        ensures bound { IfOk result (λ n. 0 < n → bound self.new < bound self.old) }
        ensures kept { bound self.new ≤ bound self.old }
        ensures failures { Counts (failed self.old) (failed self.new) result };

    /// Returns the number of failures. It stays at `u64::MAX` once it is there.
    fn failures(&self) -> u64
        ensures { result ≡ failed self.now };
}
