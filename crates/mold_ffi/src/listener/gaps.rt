//! The calls that write a listener's gaps, and that give up the first one.

ghost use Rattle.std.specs.Prelude.{◌≡◌, None, Some, length, min};
ghost use Rattle.mold_ffi.specs.Checker.MoldRange.{AreFilled};
ghost use Rattle.mold_ffi.specs.Handle.Borrow.{IsNoListener, listening};
ghost use Rattle.mold_ffi.specs.Listener.BatchedArbiter.{BatchedArbitration};
ghost use Rattle.mold_ffi.specs.Listener.Gaps.{Skips, gaps_from};
ghost use Rattle.mold_ffi.specs.declared.code.TheConstants as codes;
ghost use Rattle.mold_ffi.specs.declared.handle.held.Held.TheVariants.{Listener as AListener};

use crate::checker::mold_range::MoldRange;
use crate::code::BROKEN;
use crate::handle::borrow::lend_arbiter;
use crate::handle::held::Held;
use crate::handle::mold_handle::MoldHandle;
use mold_receiver::Arbiter;
use mold_rule::laws::ranges_walk_law;

// Writes the first gaps at or above the number `from` to the array, as many as it has room for, and returns how many.
fn fill_gaps(arbiter: &Arbiter, from: u64, ranges: &mut [MoldRange]) -> usize
    ensures count { result ≡ min (length ranges.old) (length (gaps_from arbiter.now.view from)) }
    ensures filled { AreFilled (gaps_from arbiter.now.view from) ranges.old ranges.new }
{
    ranges_walk_law();
    let mut filled = 0;
    let mut at = from;
    while filled < ranges.len() {
        let Some(gap) = arbiter.next_missing(at) else {
            break;
        };
        ranges[filled] = MoldRange {
            first: gap.first,
            last: gap.end - 1,
        };
        at = gap.end;
        filled += 1;
    }
    filled
}

/// Writes the ranges of missing messages with numbers from `from` on, in ascending order and as many as the array has
/// room for, and returns how many; 0 if the handle holds no listener. The other elements of the array are unchanged.
#[unsafe(no_mangle)]
pub extern "C" fn mold_listener_ranges(
    listener: &mut MoldHandle,
    from: u64,
    ranges: &mut [MoldRange],
) -> usize
    ensures count { (batched : BatchedArbitration) → listening listener.old.handle.value ≡ Some batched →
        result ≡ min (length ranges.old) (length (gaps_from batched.arbitration.view from)) }
    ensures filled { (batched : BatchedArbitration) → listening listener.old.handle.value ≡ Some batched →
        AreFilled (gaps_from batched.arbitration.view from) ranges.old ranges.new }
    ensures broken { listening listener.old.handle.value ≡ None → (result ≡ 0) × (ranges.new ≡ ranges.old) }
    ensures same { listener.new.handle.value ≡ listener.old.handle.value }
{
    match lend_arbiter(listener) {
        Some(arbiter) => fill_gaps(arbiter, from, ranges),
        None => 0,
    }
}

/// Gives up the messages from the next one to just below `to`, all of which must be missing. The batch must be empty. It
/// gets the stored messages that follow, and the listener goes on after them.
#[unsafe(no_mangle)]
pub extern "C" fn mold_listener_skip(listener: &mut MoldHandle, to: u64) -> u32
    ensures skips { (batched : BatchedArbitration) → listener.old.handle.value ≡ Some (AListener batched) →
        Skips batched to result listener.new.handle.value }
    ensures broken { IsNoListener listener.old.handle.value →
        (result ≡ codes.BROKEN) × (listener.new.handle.value ≡ listener.old.handle.value) }
{
    if !listener.live {
        return BROKEN;
    }
    let Held::Listener(held) = listener.handle.lend() else {
        return BROKEN;
    };
    held.skip(to)
}
