//! Compares a packet's messages with those of the accepted datagrams.

ghost use Rattle.std.specs.Prelude.{◌≡◌, ◌+◌, ◌<◌, ◌^◌, false, length, Some, None, IsTrue, IfSome, IfOk, IfErr, OnOk};
ghost use Rattle.std.specs.FinMap as finite;
ghost use Rattle.std.specs.Option.{option_copied};
ghost use Rattle.mold_capture.specs.Refusal.{conflict};
ghost use Rattle.mold_capture.specs.Runs.{AreRuns, HasRun, carried};
ghost use Rattle.mold_capture.specs.Seen.{BringNew, pairs_with};
ghost use Rattle.mold_rule.specs.Held.{differs};

use crate::kept::Kept;
use crate::run::{Run, run_at};
use mold_wire::Blocks;
use std::collections::BTreeMap;

// The stored message with this number. `near` is set to the run that has it, for the search of the next number.
fn message_at<'a>(
    runs: &BTreeMap<u64, Run>,
    kept: &'a Kept,
    near: &mut Option<(u64, Run)>,
    number: u64,
) -> Option<&'a [u8]>
    requires are { AreRuns runs.now (length kept.now) }
    requires near { IfSome near.old (λ e. HasRun runs.now e.0 e.1) }
    ensures near { IfSome near.new (λ e. HasRun runs.now e.0 e.1) }
    ensures message { option_copied result ≡ finite.get (carried runs.now kept.entry.now) number }
{
    let found = run_at(runs, *near, number);
    *near = found;
    match found {
        Some((first, run)) => kept.get(run.start + (number - first) as usize),
        None => None,
    }
}

// Whether a stored message differs from this one.
fn is_other(carried: Option<&[u8]>, message: &[u8]) -> bool
    ensures { result ≡ differs (option_copied carried.entry) message.now }
{
    match carried {
        Some(carried) => carried != message,
        None => false,
    }
}

/// Returns whether all messages of a packet are stored already. The error is the lowest number whose stored
/// message differs.
pub(crate) fn compare(
    runs: &BTreeMap<u64, Run>,
    kept: &Kept,
    first: u64,
    blocks: &Blocks<'_>,
) -> Result<bool, u64>
    requires are { AreRuns runs.now (length kept.now) }
    requires few { first + length blocks.now < 2 ^ 64 }
    ensures other { IfErr result (λ number. conflict (carried runs.now kept.now) first blocks.now ≡ Some number) }
    ensures same { OnOk result (conflict (carried runs.now kept.now) first blocks.now ≡ None) }
    ensures new { IfOk result (λ all. all ≡ false → BringNew (carried runs.now kept.now) first blocks.now) }
    ensures all { IfOk result (λ all. IsTrue all →
        pairs_with (carried runs.now kept.now) first blocks.now ≡ carried runs.now kept.now) }
{
    let mut near = None;
    let mut number = first;
    let mut new = false;
    for message in blocks.iter() {
        let carried = message_at(runs, kept, &mut near, number);
        if is_other(carried, message) {
            return Err(number);
        }
        new |= carried.is_none();
        number += 1;
    }
    Ok(!new)
}
