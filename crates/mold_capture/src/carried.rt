//! The messages that the accepted datagrams carry, by sequence number.

ghost use Rattle.std.specs.Prelude.{◌≡◌, ◌+◌, ◌-◌, ◌<◌, ◌≤◌, ◌^◌, length, List, ℕ, None, Some, IfOk, IfErr, OnOk};
ghost use Rattle.std.specs.Prelude.{OnErr, IfNone, IfSome, slice_get};
ghost use Rattle.std.specs.FinMap as finite;
ghost use Rattle.std.specs.Ordering.{nat_cmp};
ghost use Rattle.mold_rule.specs.Ranges as lacking;
ghost use Rattle.mold_capture.specs.Refusal.{conflict, told};
ghost use Rattle.mold_rule.specs.Refusals.{conflict_at};
ghost use Rattle.mold_capture.specs.Seen.{BringNew, pairs_with};
ghost use Rattle.mold_rule.specs.declared.refusal.Refusal.TheVariants.{Memory};
ghost use Rattle.mold_capture.specs.Verdict.{lacks, ranges_of};

use crate::carried_messages::CarriedMessages;
use crate::carried_run::CarriedRun;
use crate::compare::compare;
use crate::keep::{add_all, add_each};
use crate::kept::Kept;
use crate::missing::find_gaps;
use crate::run::{Run, find_from, is_free};
use crate::verdict::Range;
use mold_rule::Refusal;
use mold_rule::laws::ranges_walk_law;
use mold_wire::Blocks;
use std::alloc::{AllocError, Global};
use std::collections::BTreeMap;
use std::marker::Model;

/// The messages by sequence number. One buffer has all their bytes once. Messages that arrive together with
/// consecutive numbers take one entry of the map.
#[derive(Drop)]
pub(crate) struct Carried {
    runs: BTreeMap<u64, Run>,
    kept: Kept,
}

impl Model for Carried {
    ghost use Rattle.std.specs.Prelude.{ℕ, List, length};
    ghost use Rattle.std.specs.Coded.{coded_list, coded_ℕ};
    ghost use Rattle.std.specs.FinMap as finite;
    ghost use Rattle.std.specs.Ordering.{nat_cmp};
    ghost use Rattle.mold_capture.specs.Seen.{Pairs};
    ghost use Rattle.mold_capture.specs.Runs.{AreRuns, carried};

    ghost Value = { Pairs };

    ghost coded = { finite.code {R = nat_cmp} coded_ℕ (coded_list coded_ℕ) };

    ghost view = { λ c. carried c.runs c.kept };

    ghost invariant = { λ c. AreRuns c.runs (length c.kept) };
}

impl Carried {
    /// Returns an empty set of messages. This allocates nothing.
    pub(crate) fn new(alloc: Global) -> Carried
        ensures { result ≡ finite.empty }
    {
        Carried {
            runs: BTreeMap::new(alloc),
            kept: Kept::new(alloc),
        }
    }

    /// Adds the messages of a packet, the first of which has the number `first`. A message that is already
    /// there isn't stored again. After an error nothing has changed. `Memory` is returned only if a message is
    /// new.
    pub(crate) fn join(&mut self, first: u64, blocks: &Blocks<'_>) -> Result<(), Refusal>
        requires few { first + length blocks.now < 2 ^ 64 }
        ensures refused { IfErr result (λ reason. conflict_at (conflict self.old first blocks.now) ≡ told reason) }
        ensures taken { OnOk result (conflict self.old first blocks.now ≡ None) }
        ensures ok { OnOk result (self.new ≡ pairs_with self.old first blocks.now) }
        ensures err { OnErr result (self.new ≡ self.old) }
        ensures new { IfErr result (λ reason. reason ≡ Memory → BringNew self.old first blocks.now) }
    {
        let top = first + u64::from(blocks.len());
        if is_free(&self.runs, first, top) {
            return add_all(&mut self.runs, &mut self.kept, first, blocks);
        }
        match compare(&self.runs, &self.kept, first, blocks) {
            Err(number) => Err(Refusal::Conflict { number }),
            Ok(true) => Ok(()),
            Ok(false) => add_each(&mut self.runs, &mut self.kept, first, blocks),
        }
    }

    /// Returns the first message whose number is `number` or larger, and the messages that follow it in its run.
    pub(crate) fn run_from(&self, number: u64) -> Option<CarriedRun<'_>>
        ensures none { IfNone result ((k : ℕ) → number ≤ k → finite.get self.now k ≡ None) }
        ensures first { IfSome result (λ run. number ≤ run.first) }
        ensures some { IfSome result (λ run. 0 < length run.messages) }
        ensures last { IfSome result (λ run. run.first + length run.messages < 2 ^ 64) }
        ensures before { IfSome result (λ run. (k : ℕ) → number ≤ k → k < run.first → finite.get self.now k ≡ None) }
        ensures carried { IfSome result (λ run. (i : ℕ) → i < length run.messages →
            finite.get self.now (run.first + i) ≡ slice_get run.messages i) }
    {
        let (first, run) = find_from(&self.runs, number)?;
        let skip = number.saturating_sub(first);
        let start = run.start + skip as usize;
        Some(CarriedRun {
            first: first + skip,
            messages: CarriedMessages::new(&self.kept, start, (run.count - skip) as usize),
        })
    }

    /// Returns the longest ranges of numbers from 1 up to, but not including, `known` that have no message, in
    /// ascending order. It walks the runs, not the numbers. It returns an error if an allocation fails.
    pub(crate) fn missing(&self, alloc: Global, known: u64) -> Result<Vec<Range>, AllocError>
        requires some { 1 ≤ known }
        requires within { (number : ℕ) (message : List ℕ) → finite.get self.now number ≡ Some message →
            (1 ≤ number) × (number < known) }
        ensures { IfOk result (λ missing. ranges_of missing.items ≡ lacking.ranges (lacks self.now) 1 (known - 1)) }
    {
        ranges_walk_law();
        find_gaps(alloc, &self.runs, known)
    }
}
