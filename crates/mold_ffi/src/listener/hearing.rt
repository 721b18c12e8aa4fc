//! The call that takes a datagram without copying its messages.

ghost use Rattle.std.specs.Prelude.{◌≡◌, None, Some};
ghost use Rattle.mold_ffi.specs.Handle.Borrow.{IsNoListener};
ghost use Rattle.mold_ffi.specs.Listener.BatchedArbiter.{BatchedArbitration};
ghost use Rattle.mold_ffi.specs.Listener.Hearing.{Hears};
ghost use Rattle.mold_ffi.specs.Listener.Origin.{origin_at};
ghost use Rattle.mold_ffi.specs.declared.code.TheConstants as codes;
ghost use Rattle.mold_ffi.specs.declared.handle.held.Held.TheVariants.{Listener as AListener};
ghost use Rattle.mold_receiver.specs.declared.origin.Origin.{Origin as AnOrigin};

use crate::code::{BATCH, BROKEN, DONE, LINE};
use crate::handle::held::Held;
use crate::handle::mold_handle::MoldHandle;
use crate::listener::batched_arbiter::BatchedArbiter;
use crate::listener::mold_delivery::MoldDelivery;
use crate::listener::origin::{line_of, origin_of};

// Takes a datagram that is not one of the usual ones.
// For the optimizer: it has the parameters of its caller, which jumps to it and saves no registers for it.
#[cold]
#[inline(never)]
fn hear_slowly(
    held: &mut BatchedArbiter,
    line: u32,
    bytes: &[u8],
    delivery: &mut MoldDelivery,
) -> u32
    ensures hears { (origin : AnOrigin) → origin_at line ≡ Some origin →
        Hears origin bytes.now held.old result delivery.new (Some (AListener held.new)) }
    ensures line { origin_at line ≡ None →
        (result ≡ codes.LINE) × (delivery.new ≡ delivery.old) × (held.new ≡ held.old) }
{
    let Some(origin) = origin_of(line) else {
        return LINE;
    };
    if held.is_owed() {
        *delivery = MoldDelivery::refused(0);
        return BATCH;
    }
    match held.hear(origin, bytes) {
        Ok(found) => {
            delivery.write_heard(bytes.len(), &found);
            DONE
        }
        Err(refused) => delivery.write_unheard(refused),
    }
}

// Takes a datagram.
#[inline(always)]
fn hear(held: &mut BatchedArbiter, line: u32, bytes: &[u8], delivery: &mut MoldDelivery) -> u32
    ensures hears { (origin : AnOrigin) → origin_at line ≡ Some origin →
        Hears origin bytes.now held.old result delivery.new (Some (AListener held.new)) }
    ensures line { origin_at line ≡ None →
        (result ≡ codes.LINE) × (delivery.new ≡ delivery.old) × (held.new ≡ held.old) }
{
    let Some(known) = line_of(line) else {
        return hear_slowly(held, line, bytes, delivery);
    };
    match held.hear_quickly(known, bytes) {
        Some(found) => {
            delivery.write_heard(bytes.len(), &found);
            DONE
        }
        None => hear_slowly(held, line, bytes, delivery),
    }
}

/// Takes a datagram as `mold_listener_take` does, but copies none of the messages that it delivers itself. They are in
/// the datagram, from the offset on that is written. The batch is emptied first, and gets the stored messages that
/// follow them. If the batch has messages that another call delivered, the datagram is not taken: they have to be
/// cleared before.
#[unsafe(no_mangle)]
pub extern "C" fn mold_listener_hear(
    listener: &mut MoldHandle,
    line: u32,
    bytes: &[u8],
    delivery: &mut MoldDelivery,
) -> u32
    ensures hears { (batched : BatchedArbitration) (origin : AnOrigin) →
        listener.old.handle.value ≡ Some (AListener batched) → origin_at line ≡ Some origin →
        Hears origin bytes.now batched result delivery.new listener.new.handle.value }
    ensures line { (batched : BatchedArbitration) →
        listener.old.handle.value ≡ Some (AListener batched) → origin_at line ≡ None →
        (result ≡ codes.LINE) × (delivery.new ≡ delivery.old)
        × (listener.new.handle.value ≡ listener.old.handle.value) }
    ensures broken { IsNoListener listener.old.handle.value →
        (result ≡ codes.BROKEN) × (delivery.new ≡ delivery.old)
        × (listener.new.handle.value ≡ listener.old.handle.value) }
{
    if !listener.live {
        return BROKEN;
    }
    let Held::Listener(held) = listener.handle.lend() else {
        return BROKEN;
    };
    hear(held, line, bytes, delivery)
}
