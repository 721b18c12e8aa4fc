//! The calls that make a listener and clear its batch.

ghost use Rattle.std.specs.Prelude.{◌≡◌, ◌⊎◌, ◌<◌, None, Some, is_some, true};
ghost use Rattle.mold_ffi.specs.Handle.Borrow.{listening};
ghost use Rattle.mold_ffi.specs.Listener.BatchedArbiter.{BatchedArbitration, begun, begun_within, cleared};
ghost use Rattle.mold_ffi.specs.Listener.Room.{room_of};
ghost use Rattle.mold_ffi.specs.Repairer.BatchedRepairer.{IsCleared};
ghost use Rattle.mold_ffi.specs.Repairer.Calls.{HoldsRepairer};
ghost use Rattle.mold_ffi.specs.declared.code.TheConstants as codes;
ghost use Rattle.mold_ffi.specs.declared.handle.held.Held.TheVariants.{Listener as AListener, Repairer as ARepairer};
ghost use Rattle.mold_ffi.specs.declared.repairer.batched_repairer.BatchedRepairer.{BatchedRepairer as ABatchedRepairer};
ghost use Rattle.mold_receiver.specs.View.{IsRoom, IsWideWindow};

use crate::code::{BROKEN, DONE, MEMORY, NEXT_ZERO, OPTIONS, WINDOW};
use crate::handle::held::Held;
use crate::handle::mold_handle::MoldHandle;
use crate::listener::batched_arbiter::BatchedArbiter;
use crate::listener::room::room_of;
use mold_receiver::ReceiverError;
use mold_wire::Session;
use std::alloc::Global;

/// Makes a listener to a session, which begins at sequence number `next`. It stores a message above a gap if its number
/// is less than the next number to deliver plus `window`, which is 1 to 1,048,576. The handle must be empty.
#[unsafe(no_mangle)]
pub extern "C" fn mold_listener_new(
    alloc: Global,
    listener: &mut MoldHandle,
    session: &[u8; 10],
    next: u64,
    window: u32,
) -> u32
    ensures full { is_some listener.old.handle.value ≡ true →
        (result ≡ codes.BROKEN) × (listener.new.handle.value ≡ listener.old.handle.value) }
    ensures zero { listener.old.handle.value ≡ None → next ≡ 0 →
        (result ≡ codes.NEXT_ZERO) × (listener.new.handle.value ≡ None) }
    ensures window { listener.old.handle.value ≡ None → 0 < next → (IsWideWindow window → ⊥) →
        (result ≡ codes.WINDOW) × (listener.new.handle.value ≡ None) }
    ensures made { listener.old.handle.value ≡ None → 0 < next → IsWideWindow window →
        ((result ≡ codes.DONE)
        × (listener.new.handle.value ≡ Some (AListener (begun (record { 0 = session.now }) next window))))
        ⊎ ((result ≡ codes.MEMORY) × (listener.new.handle.value ≡ None)) }
{
    if listener.live {
        return BROKEN;
    }
    match BatchedArbiter::new(alloc, Session(*session), next, window, None) {
        Ok(made) => listener.hold(alloc, Held::Listener(made)),
        Err(ReceiverError::NextZero) => NEXT_ZERO,
        Err(ReceiverError::Window) => WINDOW,
        Err(ReceiverError::Store) => OPTIONS,
        Err(ReceiverError::Memory) => MEMORY,
    }
}

/// Makes a listener as `mold_listener_new` does, whose store has room for `store` bytes: those of the stored messages
/// and of their length fields, 2 for each message. If `store` is 0, the store is not limited. The handle must be
/// empty.
#[unsafe(no_mangle)]
pub extern "C" fn mold_listener_bounded(
    alloc: Global,
    listener: &mut MoldHandle,
    session: &[u8; 10],
    next: u64,
    window: u32,
    store: u64,
) -> u32
    ensures full { is_some listener.old.handle.value ≡ true →
        (result ≡ codes.BROKEN) × (listener.new.handle.value ≡ listener.old.handle.value) }
    ensures zero { listener.old.handle.value ≡ None → next ≡ 0 →
        (result ≡ codes.NEXT_ZERO) × (listener.new.handle.value ≡ None) }
    ensures window { listener.old.handle.value ≡ None → 0 < next → (IsWideWindow window → ⊥) →
        (result ≡ codes.WINDOW) × (listener.new.handle.value ≡ None) }
    ensures store { listener.old.handle.value ≡ None → 0 < next → IsWideWindow window →
        (IsRoom (room_of store) → ⊥) → (result ≡ codes.OPTIONS) × (listener.new.handle.value ≡ None) }
    ensures made { listener.old.handle.value ≡ None → 0 < next → IsWideWindow window → IsRoom (room_of store) →
        ((result ≡ codes.DONE) × (listener.new.handle.value
        ≡ Some (AListener (begun_within (room_of store) (record { 0 = session.now }) next window))))
        ⊎ ((result ≡ codes.MEMORY) × (listener.new.handle.value ≡ None)) }
{
    if listener.live {
        return BROKEN;
    }
    match BatchedArbiter::new(alloc, Session(*session), next, window, room_of(store)) {
        Ok(made) => listener.hold(alloc, Held::Listener(made)),
        Err(ReceiverError::NextZero) => NEXT_ZERO,
        Err(ReceiverError::Window) => WINDOW,
        Err(ReceiverError::Store) => OPTIONS,
        Err(ReceiverError::Memory) => MEMORY,
    }
}

/// Clears the batch of a listener or repairer, and keeps its memory. Slices of the batch are no longer valid.
#[unsafe(no_mangle)]
pub extern "C" fn mold_listener_clear(listener: &mut MoldHandle) -> u32
    ensures cleared { (batched : BatchedArbitration) → listener.old.handle.value ≡ Some (AListener batched) →
        (result ≡ codes.DONE) × (listener.new.handle.value ≡ Some (AListener (cleared batched))) }
    ensures repairer { (timed : ABatchedRepairer) → listener.old.handle.value ≡ Some (ARepairer timed) →
        (result ≡ codes.DONE) × HoldsRepairer listener.new.handle.value (IsCleared timed) }
    ensures broken { listening listener.old.handle.value ≡ None →
        (result ≡ codes.BROKEN) × (listener.new.handle.value ≡ listener.old.handle.value) }
{
    if !listener.live {
        return BROKEN;
    }
    match listener.handle.lend() {
        Held::Listener(held) => held.clear(),
        Held::Repairer(held) => held.clear(),
        Held::Publisher(_) | Held::Server(_) | Held::Checker(_) => return BROKEN,
    }
    DONE
}
