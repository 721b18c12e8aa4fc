//! Finds the gaps between runs.

ghost use Rattle.std.specs.Prelude.{◌≡◌, ◌+◌, ◌<◌, ◌^◌, ◌++◌, ℕ, OnOk, IfOk};
ghost use Rattle.mold_capture.specs.Runs.{HasRun};
ghost use Rattle.mold_capture.specs.Verdict.{gap, gaps, ranges_of};
ghost use Rattle.mold_capture.specs.declared.run.Run.{Run};

use crate::run::Run;
use crate::verdict::Range;
use std::alloc::{AllocError, Global};
use std::collections::BTreeMap;

// Appends the range of numbers from `from` up to, but not including, `below`, unless it is empty.
fn push_gap(missing: &mut Vec<Range>, from: u64, below: u64) -> Result<(), AllocError>
    ensures { OnOk result (ranges_of missing.new.items ≡ ranges_of missing.old.items ++ gap from below) }
{
    if from < below {
        missing.push(Range {
            first: from,
            last: below - 1,
        })?;
    }
    Ok(())
}

/// Returns the gaps before, between and after the runs, up to `known`. It walks the runs, not the numbers.
pub(crate) fn find_gaps(
    alloc: Global,
    runs: &BTreeMap<u64, Run>,
    known: u64,
) -> Result<Vec<Range>, AllocError>
    requires few { (f : ℕ) (run : Run) → HasRun runs.now f run → f + run.count < 2 ^ 64 }
    ensures { IfOk result (λ missing. ranges_of missing.items ≡ gaps 1 runs.now.entries known) }
{
    let mut missing = Vec::new(alloc);
    let mut next: u64 = 1;
    for (first, run) in runs {
        push_gap(&mut missing, next, *first)?;
        next = *first + run.count;
    }
    push_gap(&mut missing, next, known)?;
    Ok(missing)
}
