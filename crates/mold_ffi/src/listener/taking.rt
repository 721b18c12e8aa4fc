//! The call that takes a datagram and copies the delivered messages.

ghost use Rattle.std.specs.Prelude.{◌≡◌, None, Some};
ghost use Rattle.mold_ffi.specs.Handle.Borrow.{IsNoListener};
ghost use Rattle.mold_ffi.specs.Listener.BatchedArbiter.{BatchedArbitration};
ghost use Rattle.mold_ffi.specs.Listener.Origin.{origin_at};
ghost use Rattle.mold_ffi.specs.Listener.Taking.{Takes};
ghost use Rattle.mold_ffi.specs.declared.code.TheConstants as codes;
ghost use Rattle.mold_ffi.specs.declared.handle.held.Held.TheVariants.{Listener as AListener};
ghost use Rattle.mold_receiver.specs.declared.origin.Origin.{Origin as AnOrigin};

use crate::code::{BROKEN, DONE, LINE};
use crate::handle::held::Held;
use crate::handle::mold_handle::MoldHandle;
use crate::listener::batched_arbiter::BatchedArbiter;
use crate::listener::mold_taken::MoldTaken;
use crate::listener::origin::{line_of, origin_of};

// Takes a datagram that is not one of the usual ones.
// For the optimizer: it has the parameters of its caller, which jumps to it and saves no registers for it.
#[cold]
#[inline(never)]
fn take_slowly(held: &mut BatchedArbiter, line: u32, bytes: &[u8], taken: &mut MoldTaken) -> u32
    ensures takes { (origin : AnOrigin) → origin_at line ≡ Some origin →
        Takes origin bytes.now held.old taken.old.unused result taken.new (Some (AListener held.new)) }
    ensures line { origin_at line ≡ None →
        (result ≡ codes.LINE) × (taken.new ≡ taken.old) × (held.new ≡ held.old) }
{
    let Some(origin) = origin_of(line) else {
        return LINE;
    };
    match held.take(origin, bytes) {
        Ok(counts) => {
            taken.write_taken(counts);
            DONE
        }
        Err(refused) => taken.write_refused(refused),
    }
}

// Takes a datagram.
#[inline(always)]
fn take(held: &mut BatchedArbiter, line: u32, bytes: &[u8], taken: &mut MoldTaken) -> u32
    ensures takes { (origin : AnOrigin) → origin_at line ≡ Some origin →
        Takes origin bytes.now held.old taken.old.unused result taken.new (Some (AListener held.new)) }
    ensures line { origin_at line ≡ None →
        (result ≡ codes.LINE) × (taken.new ≡ taken.old) × (held.new ≡ held.old) }
{
    let Some(known) = line_of(line) else {
        return take_slowly(held, line, bytes, taken);
    };
    match held.take_quickly(known, bytes) {
        Some(usual) => {
            taken.write_taken(usual);
            DONE
        }
        None => take_slowly(held, line, bytes, taken),
    }
}

/// Takes a datagram. `line` is 0 for line A, 1 for line B, and 2 for a server's response. The messages that are
/// delivered are added to the batch.
#[unsafe(no_mangle)]
pub extern "C" fn mold_listener_take(
    listener: &mut MoldHandle,
    line: u32,
    bytes: &[u8],
    taken: &mut MoldTaken,
) -> u32
    ensures takes { (batched : BatchedArbitration) (origin : AnOrigin) →
        listener.old.handle.value ≡ Some (AListener batched) → origin_at line ≡ Some origin →
        Takes origin bytes.now batched taken.old.unused result taken.new listener.new.handle.value }
    ensures line { (batched : BatchedArbitration) →
        listener.old.handle.value ≡ Some (AListener batched) → origin_at line ≡ None →
        (result ≡ codes.LINE) × (taken.new ≡ taken.old) × (listener.new.handle.value ≡ listener.old.handle.value) }
    ensures broken { IsNoListener listener.old.handle.value →
        (result ≡ codes.BROKEN) × (taken.new ≡ taken.old) × (listener.new.handle.value ≡ listener.old.handle.value) }
{
    if !listener.live {
        return BROKEN;
    }
    let Held::Listener(held) = listener.handle.lend() else {
        return BROKEN;
    };
    take(held, line, bytes, taken)
}
