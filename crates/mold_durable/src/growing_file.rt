//! The trait of files that another process writes.

ghost use Rattle.std.specs.Prelude.{◌≡◌, ◌+◌, ◌<◌, ◌≤◌, ◌^◌, ℕ, List, IfOk, OnOk};
ghost use Rattle.std.specs.Io.{ReadsAtMost};
ghost use Rattle.mold_devices.specs.Devices.{Counts};
ghost use Rattle.mold_durable.specs.GrowingFile.{Passes, ReadsAmong};

use mold_devices::DeviceFault;

/// A file that another process writes, and this process only reads.
pub trait GrowingFile {
    // The possible histories of the file: its bytes at each moment, past and future. If the file exposes nothing, there
    // are none.
    ghost history: { Self → (ℕ → List ℕ) → Type 0 };

    // A clock, as a number that never decreases.
    ghost moment: { Self → ℕ };

    // What the file had at this moment is durable.
    ghost synced: { Self → ℕ };

    // The number of failures. It stays at `u64::MAX` once it is there.
    ghost failed: { Self → ℕ };

    /// Reads bytes from offset `at` on until `buffer` is full or the file ends, and returns the number of bytes. The
    /// other process may write meanwhile: each byte of the buffer is that of some moment within the call, and two bytes
    /// may be of different moments. After a fault, the contents of `buffer` are unspecified.
    fn read_at(&mut self, at: u64, buffer: &mut [u8]) -> Result<usize, DeviceFault>
        ensures count { ReadsAtMost result buffer.new }
        ensures bytes { IfOk result (λ count. (bytes : ℕ → List ℕ) → history self.old bytes →
            ReadsAmong bytes (moment self.old) (moment self.new) at count buffer.new) }
        ensures within { IfOk result (λ count. 0 < count → at + count < 2 ^ 63) }
        ensures passes { Passes history moment synced self.old self.new }
        ensures failures { Counts (failed self.old) (failed self.new) result };

    /// Makes durable what the file had when the call began.
    fn sync(&mut self) -> Result<(), DeviceFault>
        ensures durable { OnOk result (moment self.old ≤ synced self.new) }
        ensures passes { Passes history moment synced self.old self.new }
        ensures failures { Counts (failed self.old) (failed self.new) result };

    /// Returns the number of failures. It stays at `u64::MAX` once it is there.
    fn failures(&self) -> u64
        ensures { result ≡ failed self.now };

    // What is durable was there at this moment or before.
    ghost synced_now: { (file : Self) → synced file ≤ moment file };
}
