//! Borrows what a handle holds for reading. The handle stays as it is.

ghost use Rattle.std.specs.Prelude.{◌≡◌, None, Some};
ghost use Rattle.std.specs.Borrow.{sem};
ghost use Rattle.std.specs.Io.BufRead.{Rests};
ghost use Rattle.std.specs.Option.{option_copied};
ghost use Rattle.mold_capture.specs.Seen.{Seen};
ghost use Rattle.mold_ffi.specs.Handle.Borrow.{IsNoChecker, listening};
ghost use Rattle.mold_ffi.specs.Listener.BatchedArbiter.{BatchedArbitration};
ghost use Rattle.mold_ffi.specs.contracts.handle.mold_handle.MoldHandle.{the_row};
ghost use Rattle.mold_ffi.specs.declared.handle.held.Held.TheVariants.{Checker as AChecker};

use crate::handle::held::Held;
use crate::handle::mold_handle::MoldHandle;
use mold_capture::Checker;
use mold_receiver::{Arbiter, Batch};

/// Returns the arbiter of the listener or repairer that the handle holds, if it holds one.
pub(crate) fn lend_arbiter(handle: &mut MoldHandle) -> Option<&Arbiter>
    ensures* after { sem 𝓛 (Rests the_row handle.entry (λ new. new.handle.value ≡ handle.old.handle.value)) }
    ensures lent { (batched : BatchedArbitration) → listening handle.old.handle.value ≡ Some batched →
        option_copied result ≡ Some batched.arbitration }
    ensures none { listening handle.old.handle.value ≡ None → option_copied result ≡ None }
{
    if !handle.live {
        return None;
    }
    match handle.handle.lend() {
        Held::Listener(held) => Some(held.arbiter()),
        Held::Repairer(held) => Some(held.arbiter()),
        Held::Publisher(_) | Held::Server(_) | Held::Checker(_) => None,
    }
}

/// Returns the batch of the listener or repairer that the handle holds, if it holds one.
pub(crate) fn lend_batch(handle: &mut MoldHandle) -> Option<&Batch>
    ensures* after { sem 𝓛 (Rests the_row handle.entry (λ new. new.handle.value ≡ handle.old.handle.value)) }
    ensures lent { (batched : BatchedArbitration) → listening handle.old.handle.value ≡ Some batched →
        option_copied result ≡ Some batched.batch }
    ensures none { listening handle.old.handle.value ≡ None → option_copied result ≡ None }
{
    if !handle.live {
        return None;
    }
    match handle.handle.lend() {
        Held::Listener(held) => Some(held.batch()),
        Held::Repairer(held) => Some(held.batch()),
        Held::Publisher(_) | Held::Server(_) | Held::Checker(_) => None,
    }
}

/// Returns the checker that the handle holds, if it holds one.
pub(crate) fn lend_checker(handle: &mut MoldHandle) -> Option<&Checker>
    ensures* after { sem 𝓛 (Rests the_row handle.entry (λ new. new.handle.value ≡ handle.old.handle.value)) }
    ensures lent { (seen : Seen) → handle.old.handle.value ≡ Some (AChecker seen) →
        option_copied result ≡ Some seen }
    ensures none { IsNoChecker handle.old.handle.value → option_copied result ≡ None }
{
    if !handle.live {
        return None;
    }
    let Held::Checker(held) = handle.handle.lend() else {
        return None;
    };
    Some(held)
}
