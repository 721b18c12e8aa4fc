//! The trait of storages, in which a journal is kept, and a write that is synced.

ghost use Rattle.std.specs.Prelude.{◌≡◌, ◌+◌, ◌<◌, ◌≤◌, ◌^◌, ℕ, List, length, IfOk, OnOk};
ghost use Rattle.std.specs.Io.{ReadsAtMost};
ghost use Rattle.mold_devices.specs.Devices.{Counts};
ghost use Rattle.mold_durable.specs.Storage.{AreSame, Elapses, Follows, IsPartAt, IsTornOf, IsWithin, IsWritten};
ghost use Rattle.mold_durable.specs.Storage.{LeavesOnly, MayTear};

use mold_devices::DeviceFault;

/// Bytes that outlive the process, such as a file. Until they are synced, a crash may lose what was written.
pub trait Storage {
    // The bytes that a read may return. If the storage exposes nothing, there are none.
    ghost shows: { Self → List ℕ → Type 0 };

    // The bytes that a crash at this moment may leave.
    ghost may_leave: { Self → List ℕ → Type 0 };

    // A clock, as a number that never decreases.
    ghost moment: { Self → ℕ };

    // The bytes that a crash at that moment or later, within a call or between two, may have left.
    ghost left_since: { Self → ℕ → List ℕ → Type 0 };

    // The number of failures. It stays at `u64::MAX` once it is there.
    ghost failed: { Self → ℕ };

    /// Reads bytes from offset `at` on until `buffer` is full or the storage ends, and returns the number of bytes.
    /// After a fault, the contents of `buffer` are unspecified.
    fn read_at(&mut self, at: u64, buffer: &mut [u8]) -> Result<usize, DeviceFault>
        ensures count { ReadsAtMost result buffer.new }
        ensures bytes { IfOk result (λ count. (bytes : List ℕ) → shows self.old bytes →
            IsPartAt at bytes count buffer.new) }
        ensures within { IfOk result (λ count. 0 < count → at + count < 2 ^ 63) }
        ensures shown { AreSame (shows self.old) (shows self.new) }
        ensures crash { IsWithin (may_leave self.old) (may_leave self.new) }
        ensures time { Elapses (moment self.old) (moment self.new) (left_since self.old) (left_since self.new)
            (may_leave self.new) }
        ensures failures { Counts (failed self.old) (failed self.new) result };

    /// Writes `bytes` at offset `at`. It overwrites bytes, and may extend the storage. The contract does not specify
    /// the effect if `at` is after the end. A write that would end after offset 2^63 - 1 fails. After a fault, some of
    /// the bytes may have been written.
    fn write_at(&mut self, at: u64, bytes: &[u8]) -> Result<(), DeviceFault>
        ensures written { OnOk result (Follows (IsWritten at bytes.now) (shows self.old) (shows self.new)) }
        ensures within { OnOk result (at + length bytes.now < 2 ^ 63) }
        ensures crash { Follows (MayTear at (length bytes.now)) (may_leave self.old) (may_leave self.new) }
        ensures time { Elapses (moment self.old) (moment self.new) (left_since self.old) (left_since self.new)
            (may_leave self.new) }
        ensures failures { Counts (failed self.old) (failed self.new) result };

    /// Makes all bytes durable: until the next write, a crash leaves only bytes that a read may return.
    fn sync(&mut self) -> Result<(), DeviceFault>
        ensures durable { OnOk result (IsWithin (shows self.old) (may_leave self.new)) }
        ensures shown { AreSame (shows self.old) (shows self.new) }
        ensures crash { IsWithin (may_leave self.old) (may_leave self.new) }
        ensures time { Elapses (moment self.old) (moment self.new) (left_since self.old) (left_since self.new)
            (may_leave self.new) }
        ensures failures { Counts (failed self.old) (failed self.new) result };

    /// Returns the number of failures. It stays at `u64::MAX` once it is there.
    fn failures(&self) -> u64
        ensures { result ≡ failed self.now };

    // What a crash may leave at this moment, it may leave since any moment that is not later.
    ghost counts_now: { (storage : Self) (earlier : ℕ) (bytes : List ℕ) → earlier ≤ moment storage →
        may_leave storage bytes → left_since storage earlier bytes };

    // Since this moment, a crash may have left only what it may leave now.
    ghost only_now: { (storage : Self) (bytes : List ℕ) →
        left_since storage (moment storage) bytes → may_leave storage bytes };
}

/// Writes the bytes from offset `at` on and syncs. After a fault, some of them may have been written.
pub(crate) fn write_synced<S: Storage>(
    storage: &mut S,
    at: u64,
    bytes: &[u8],
) -> Result<(), DeviceFault>
    ensures shown { OnOk result (Follows (IsWritten at bytes.now) (S.shows storage.old) (S.shows storage.new)) }
    ensures durable { OnOk result
        (Follows (IsWritten at bytes.now) (S.shows storage.old) (S.may_leave storage.new)) }
    ensures within { OnOk result (at + length bytes.now < 2 ^ 63) }
    ensures crash { Follows (MayTear at (length bytes.now)) (S.may_leave storage.old) (S.may_leave storage.new) }
    ensures any_moment { LeavesOnly S.moment S.left_since storage.old storage.new
        (IsTornOf (S.may_leave storage.old) at (length bytes.now)) }
    ensures failures { Counts (S.failed storage.old) (S.failed storage.new) result }
{
    storage.write_at(at, bytes)?;
    storage.sync()?;
    Ok(())
}
