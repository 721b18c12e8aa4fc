//! The trait of sinks, to which bytes are written.

ghost use Rattle.std.specs.Prelude.{◌≡◌, ◌<◌, ℕ, Bool, List, Option, length, IfOk, IsOk, OnOk};
ghost use Rattle.std.specs.Io.{WritesAtMost};
ghost use Rattle.std.specs.Io.KnownBytes.{Appends, WriteAppends};
ghost use Rattle.mold_devices.specs.Devices.{AppendsPrefix, Counts};

use crate::device_fault::DeviceFault;

/// A destination for bytes.
pub trait Sink {
    // The bytes that the sink holds, if the sink exposes them.
    ghost held: { Self → Option (List ℕ) };

    // The number of failures. It stays at `u64::MAX` once it is there.
    ghost failed: { Self → ℕ };

    // Whether text is written as soon as it is available, and not buffered.
    ghost live: { Self → Bool };

    /// Writes a prefix of `bytes` and returns its length.
    fn write(&mut self, bytes: &[u8]) -> Result<usize, DeviceFault>
        ensures count { WritesAtMost result bytes.now }
        ensures some { IfOk result (λ n. 0 < length bytes.now → 0 < n) }
        ensures bytes { WriteAppends (held self.old) (held self.new) result bytes.now }
        ensures failures { Counts (failed self.old) (failed self.new) result }
        ensures live { live self.new ≡ live self.old };

    /// Returns the number of failures. It stays at `u64::MAX` once it is there.
    fn failures(&self) -> u64
        ensures { result ≡ failed self.now };

    /// Returns whether text is written as soon as it is available. Otherwise text is buffered and written in
    /// pieces of at least 65,536 bytes.
    fn is_live(&self) -> bool
        ensures { result ≡ live self.now };
}

/// Writes all of `bytes`, in as many calls as the sink needs. It stops at the first fault.
pub fn write_all<S: Sink>(sink: &mut S, bytes: &[u8]) -> Result<(), DeviceFault>
    ensures whole { OnOk result (Appends (S.held sink.old) (S.held sink.new) bytes.now) }
    ensures front { AppendsPrefix (S.held sink.old) (S.held sink.new) bytes.now }
    ensures failures { Counts (S.failed sink.old) (S.failed sink.new) result }
    ensures live { S.live sink.new ≡ S.live sink.old }
    ensures nothing { length bytes.now ≡ 0 → IsOk result × (sink.new ≡ sink.old) }
{
    let mut rest = bytes;
    while !rest.is_empty() {
        let count = sink.write(rest)?;
        rest = &rest[count..];
    }
    Ok(())
}
