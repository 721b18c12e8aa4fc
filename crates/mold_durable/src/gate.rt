//! Writes after a gate: what is written there does not count before the gate is opened.

ghost use Rattle.std.specs.Prelude.{◌≡◌, ◌⊎◌, ◌+◌, ◌<◌, ◌^◌, ◌++◌, ◌∷◌, ℕ, List, length, OnOk};
ghost use Rattle.mold_devices.specs.Devices.{Counts};
ghost use Rattle.mold_durable.specs.Gate.{BeginsWith, IsShutAfter};
ghost use Rattle.mold_durable.specs.Storage.{IsKept, LeavesOnly};

use crate::storage::{Storage, write_synced};
use mold_devices::DeviceFault;
use mold_session::OPEN_GATE;

/// The gate that a writer puts after the last record.
pub const SHUT_GATE: u8 = 0;

/// Writes the text after the shut gate at offset `gate`, and opens the gate once the text is durable. It writes twice
/// and syncs twice. A crash at any moment leaves the bytes before the gate unchanged. The gate is still shut, or it is
/// open and the whole text follows.
// Both writes need their own sync: if one sync made both durable, a crash could leave an open gate without the text.
pub fn put_after_gate<S: Storage>(
    storage: &mut S,
    gate: u64,
    text: &[u8],
) -> Result<(), DeviceFault>
    requires { gate + 1 < 2 ^ 64 }
    ensures kept { (prefix : List ℕ) → length prefix ≡ gate →
        IsKept (S.shows storage.old) (S.may_leave storage.old) (IsShutAfter prefix) →
        OnOk result (IsKept (S.shows storage.new) (S.may_leave storage.new)
        (BeginsWith (prefix ++ 1 ∷ text.now))) }
    ensures any_moment { (prefix : List ℕ) → length prefix ≡ gate →
        IsKept (S.shows storage.old) (S.may_leave storage.old) (IsShutAfter prefix) →
        LeavesOnly S.moment S.left_since storage.old storage.new
        (λ bytes. IsShutAfter prefix bytes ⊎ BeginsWith (prefix ++ 1 ∷ text.now) bytes) }
    ensures within { OnOk result (gate + 1 + length text.now < 2 ^ 63) }
    ensures failures { Counts (S.failed storage.old) (S.failed storage.new) result }
{
    write_synced(storage, gate + 1, text)?;
    write_synced(storage, gate, &[OPEN_GATE])?;
    Ok(())
}
