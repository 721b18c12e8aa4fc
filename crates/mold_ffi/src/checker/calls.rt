//! The calls on a checker.

ghost use Rattle.std.specs.Prelude.{◌≡◌, ◌⊎◌, [], None, Some, is_some, true};
ghost use Rattle.mold_capture.specs.Refusal.{refusal};
ghost use Rattle.mold_capture.specs.Seen.{Seen, seen_of};
ghost use Rattle.mold_ffi.specs.Checker.Calls.{Joins, GivesRanges};
ghost use Rattle.mold_ffi.specs.Checker.MoldVerdict.{IsVerdictOf};
ghost use Rattle.mold_ffi.specs.Handle.Borrow.{IsNoChecker};
ghost use Rattle.mold_ffi.specs.declared.code.TheConstants as codes;
ghost use Rattle.mold_ffi.specs.declared.handle.held.Held.TheVariants.{Checker as AChecker};

use crate::checker::mold_range::{MoldRange, fill_places};
use crate::checker::mold_verdict::MoldVerdict;
use crate::code::refusal::code_of_refusal;
use crate::code::{BROKEN, DONE, MEMORY};
use crate::handle::borrow::lend_checker;
use crate::handle::held::Held;
use crate::handle::mold_handle::MoldHandle;
use mold_capture::{Checker, Verdict};
use std::alloc::Global;

/// Makes a checker that has taken no datagram. The handle must be empty.
#[unsafe(no_mangle)]
pub extern "C" fn mold_checker_new(alloc: Global, checker: &mut MoldHandle) -> u32
    ensures full { is_some checker.old.handle.value ≡ true →
        (result ≡ codes.BROKEN) × (checker.new.handle.value ≡ checker.old.handle.value) }
    ensures made { checker.old.handle.value ≡ None →
        ((result ≡ codes.DONE) × (checker.new.handle.value ≡ Some (AChecker (seen_of []))))
        ⊎ ((result ≡ codes.MEMORY) × (checker.new.handle.value ≡ None)) }
{
    if checker.live {
        return BROKEN;
    }
    checker.hold(alloc, Held::Checker(Checker::new(alloc)))
}

/// Takes a datagram, or refuses it if no session explains both it and the datagrams taken before. The code is then that
/// of the first reason, and `number` goes with the reason. If the reason has no number, or the datagram is taken,
/// `number` is 0. Datagrams may come in any order, and the first one taken sets the session.
#[unsafe(no_mangle)]
pub extern "C" fn mold_checker_take(checker: &mut MoldHandle, bytes: &[u8], number: &mut u64) -> u32
    ensures joins { (seen : Seen) → checker.old.handle.value ≡ Some (AChecker seen) →
        Joins (refusal seen bytes.now) bytes.now seen result number.new checker.new.handle.value }
    ensures broken { IsNoChecker checker.old.handle.value →
        (result ≡ codes.BROKEN) × (number.new ≡ number.old) × (checker.new.handle.value ≡ checker.old.handle.value) }
{
    if !checker.live {
        return BROKEN;
    }
    let Held::Checker(held) = checker.handle.lend() else {
        return BROKEN;
    };
    match held.add(bytes) {
        Ok(()) => {
            *number = 0;
            DONE
        }
        Err(reason) => {
            let (code, found) = code_of_refusal(reason);
            *number = found;
            code
        }
    }
}

/// Writes whether the datagrams that were taken are a whole session, and how much is missing if they are not. If an
/// allocation fails, the code is 7 and nothing is written.
#[unsafe(no_mangle)]
pub extern "C" fn mold_checker_verdict(checker: &mut MoldHandle, verdict: &mut MoldVerdict) -> u32
    ensures tells { (seen : Seen) → checker.old.handle.value ≡ Some (AChecker seen) →
        ((result ≡ codes.DONE) × IsVerdictOf seen verdict.new × (verdict.new.unused ≡ verdict.old.unused))
        ⊎ ((result ≡ codes.MEMORY) × (verdict.new ≡ verdict.old)) }
    ensures broken { IsNoChecker checker.old.handle.value →
        (result ≡ codes.BROKEN) × (verdict.new ≡ verdict.old) }
    ensures same { checker.new.handle.value ≡ checker.old.handle.value }
{
    let Some(held) = lend_checker(checker) else {
        return BROKEN;
    };
    match held.verdict() {
        Ok(found) => {
            verdict.write(&found);
            DONE
        }
        Err(_) => MEMORY,
    }
}

/// Writes the missing ranges in ascending order, as many as the array has room for, and the number of all missing
/// ranges. If an allocation fails, the code is 7 and nothing is written.
#[unsafe(no_mangle)]
pub extern "C" fn mold_checker_ranges(
    checker: &mut MoldHandle,
    ranges: &mut [MoldRange],
    count: &mut usize,
) -> u32
    ensures tells { (seen : Seen) → checker.old.handle.value ≡ Some (AChecker seen) →
        ((result ≡ codes.DONE) × GivesRanges seen ranges.old ranges.new count.new)
        ⊎ ((result ≡ codes.MEMORY) × (ranges.new ≡ ranges.old) × (count.new ≡ count.old)) }
    ensures broken { IsNoChecker checker.old.handle.value →
        (result ≡ codes.BROKEN) × (ranges.new ≡ ranges.old) × (count.new ≡ count.old) }
    ensures same { checker.new.handle.value ≡ checker.old.handle.value }
{
    let Some(held) = lend_checker(checker) else {
        return BROKEN;
    };
    match held.verdict() {
        Ok(Verdict::Whole { .. }) => {
            *count = 0;
            DONE
        }
        Ok(Verdict::Incomplete { missing, .. }) => {
            fill_places(&missing, ranges);
            *count = missing.len();
            DONE
        }
        Err(_) => MEMORY,
    }
}
