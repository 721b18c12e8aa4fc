//! The head of a journal's storage: the magic bytes of version 3 and the session's name.

ghost use Rattle.std.specs.Prelude.{◌≡◌, ◌↔◌, ◌<◌, ◌≤◌, ◌++◌, ◌∷◌, [], false, length, IfOk, IfErr, IsTrue, OnOk};
ghost use Rattle.mold_devices.specs.Devices.{Counts};
ghost use Rattle.mold_durable.specs.Head.{IsNoneOrEmpty, IsStart, IsUnfinished};
ghost use Rattle.mold_durable.specs.Reading.{HeadFault};
ghost use Rattle.mold_session.specs.Records.{SpellsJournal3, head_3, magic_3};
ghost use Rattle.mold_durable.specs.Storage.{IsKept, LeavesOnly};

use crate::error::OpenError;
use crate::gate::SHUT_GATE;
use crate::storage::{Storage, write_synced};
use mold_devices::DeviceFault;
use mold_wire::{SESSION_LENGTH, Session};

/// The length of the magic bytes.
const MAGIC_LENGTH: usize = 8;

/// The length of the head, which is the offset of the first gate.
pub const HEAD_LENGTH: usize = MAGIC_LENGTH + SESSION_LENGTH;

// The length of the session's name and the gate after it.
const NAME_AND_GATE: usize = SESSION_LENGTH + 1;

/// The magic bytes of version 3.
fn magic() -> [u8; MAGIC_LENGTH]
    ensures { result ≡ magic_3 }
{
    *b"MOLDJNL3"
}

// The session's name and a shut gate.
fn name_and_gate(session: Session) -> [u8; NAME_AND_GATE]
    ensures named { length session.0 ≡ 10 }
    ensures bytes { result ≡ session.0 ++ 0 ∷ [] }
{
    let mut bytes = [SHUT_GATE; NAME_AND_GATE];
    bytes[..SESSION_LENGTH].copy_from_slice(&session.0);
    bytes
}

/// Writes the head and a shut gate to an empty storage. It writes three times and syncs three times.
///
/// A crash at any moment leaves bytes that are not a journal, or the empty journal of the session. For that the magic
/// bytes are written last, over zeros that are durable before anything follows them.
pub fn write_head<S: Storage>(storage: &mut S, session: Session) -> Result<(), DeviceFault>
    ensures named { length session.0 ≡ 10 }
    ensures kept { IsKept (S.shows storage.old) (S.may_leave storage.old) (λ bytes. bytes ≡ []) →
        OnOk result (IsKept (S.shows storage.new) (S.may_leave storage.new) (SpellsJournal3 session [] false)) }
    ensures any_moment { IsKept (S.shows storage.old) (S.may_leave storage.old) (λ bytes. bytes ≡ []) →
        LeavesOnly S.moment S.left_since storage.old storage.new (IsNoneOrEmpty session) }
    ensures failures { Counts (S.failed storage.old) (S.failed storage.new) result }
{
    write_synced(storage, 0, &[0; MAGIC_LENGTH])?;
    write_synced(storage, MAGIC_LENGTH as u64, &name_and_gate(session))?;
    write_synced(storage, 0, &magic())?;
    Ok(())
}

/// The greatest length of a file whose creator was killed: that of a head and the gate after it.
pub(crate) const UNFINISHED_LENGTH: usize = HEAD_LENGTH + 1;

// Returns whether each of the first eight bytes is that of the magic bytes at its index, or zero.
fn is_start(bytes: &[u8]) -> bool
    ensures { IsTrue result ↔ IsStart bytes.now }
{
    let magic = magic();
    let end = bytes.len().min(MAGIC_LENGTH);
    for at in 0..end {
        if bytes[at] != magic[at] && bytes[at] != 0 {
            return false;
        }
    }
    true
}

/// Returns whether a creator of a journal's file that is killed may leave a file of these bytes.
pub(crate) fn is_unfinished(bytes: &[u8]) -> bool
    ensures { IsTrue result ↔ IsUnfinished bytes.now }
{
    let length = bytes.len();
    if length > UNFINISHED_LENGTH || !is_start(bytes) {
        return false;
    }
    length < UNFINISHED_LENGTH || bytes[HEAD_LENGTH] == SHUT_GATE
}

/// Returns the session of a head. The bytes are the first ones of a storage, at most as many as a head has.
pub fn split_head(bytes: &[u8]) -> Result<Session, OpenError>
    requires { length bytes.now ≤ 18 }
    ensures named { IfOk result (λ session. length session.0 ≡ 10) }
    ensures head { IfOk result (λ session. bytes.now ≡ head_3 session.0) }
    ensures refused { IfErr result (HeadFault bytes.now) }
{
    let len = bytes.len();
    if len < HEAD_LENGTH {
        return Err(OpenError::Short { len });
    }
    let (start, name) = bytes.split_at(MAGIC_LENGTH);
    if start != magic().as_slice() {
        return Err(OpenError::BadMagic);
    }
    let mut session = Session([0; SESSION_LENGTH]);
    session.0.copy_from_slice(name);
    Ok(session)
}
