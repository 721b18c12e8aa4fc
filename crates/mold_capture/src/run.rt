//! Runs of messages with consecutive sequence numbers.

ghost use Rattle.std.specs.Prelude.{◌≡◌, ◌+◌, ◌^◌, ◌<◌, ◌≤◌, ◌↔◌, false, IsTrue, ℕ, IfSome, IfNone, OnOk, OnErr};
ghost use Rattle.std.specs.BTreeMap as tree;
ghost use Rattle.std.specs.Ordering.{nat_cmp};
ghost use Rattle.mold_capture.specs.Runs.{AreApart, AreFree, AreFreeFrom, AreRuns, BeginWithin, Covers, HasRun, IsGrown, IsPut};
ghost use Rattle.mold_capture.specs.declared.run.Run.{Run};

use std::alloc::AllocError;
use std::collections::BTreeMap;

/// Messages with consecutive sequence numbers: `count` messages, the first of which has index `start` in the
/// list of messages.
#[derive(Clone, Copy)]
pub(crate) struct Run {
    pub(crate) start: usize,
    pub(crate) count: u64,
}

// Whether a run whose first message has the number `first` has a message with this number.
fn covers(first: u64, run: Run, number: u64) -> bool
    ensures { IsTrue result ↔ Covers first run number }
{
    first <= number && number - first < run.count
}

// The last run that begins at this number or below it, with the number of its first message.
fn last_run(runs: &BTreeMap<u64, Run>, number: u64) -> Option<(u64, Run)>
    ensures none { IfNone result ((f : ℕ) (run : Run) → HasRun runs.now f run → number < f) }
    ensures there { IfSome result (λ e. HasRun runs.now e.0 e.1) }
    ensures low { IfSome result (λ e. e.0 ≤ number) }
    ensures last { IfSome result (λ e. (f : ℕ) (run : Run) → HasRun runs.now f run → f ≤ number → f ≤ e.0) }
{
    match runs.range(..=number).next_back() {
        Some((first, run)) => Some((*first, *run)),
        None => None,
    }
}

/// Finds the run that has a message with this number. It returns the number of the run's first message, too.
/// The run `near` is tried first.
pub(crate) fn run_at(
    runs: &BTreeMap<u64, Run>,
    near: Option<(u64, Run)>,
    number: u64,
) -> Option<(u64, Run)>
    requires apart { AreApart runs.now }
    requires near { IfSome near (λ e. HasRun runs.now e.0 e.1) }
    ensures there { IfSome result (λ e. HasRun runs.now e.0 e.1) }
    ensures covers { IfSome result (λ e. Covers e.0 e.1 number) }
    ensures none { IfNone result ((f : ℕ) (run : Run) → HasRun runs.now f run → ¬ Covers f run number) }
{
    match near {
        Some((first, run)) if covers(first, run, number) => near,
        _ => match last_run(runs, number) {
            Some((first, run)) if covers(first, run, number) => Some((first, run)),
            _ => None,
        },
    }
}

// The first run that begins at this number or above it, with the number of its first message.
fn next_run(runs: &BTreeMap<u64, Run>, number: u64) -> Option<(u64, Run)>
    ensures none { IfNone result ((f : ℕ) (run : Run) → HasRun runs.now f run → f < number) }
    ensures there { IfSome result (λ e. HasRun runs.now e.0 e.1) }
    ensures high { IfSome result (λ e. number ≤ e.0) }
    ensures first { IfSome result (λ e. (f : ℕ) (run : Run) → HasRun runs.now f run → number ≤ f → e.0 ≤ f) }
{
    match runs.range(number..).next() {
        Some((first, run)) => Some((*first, *run)),
        None => None,
    }
}

/// Finds the run that has a message with this number, or otherwise the first run that begins above it. It returns the
/// number of the run's first message, too. This looks up one run or two.
pub(crate) fn find_from(runs: &BTreeMap<u64, Run>, number: u64) -> Option<(u64, Run)>
    requires apart { AreApart runs.now }
    ensures none { IfNone result (AreFreeFrom runs.now number) }
    ensures there { IfSome result (λ e. HasRun runs.now e.0 e.1) }
    ensures within { IfSome result (λ e. e.0 < number → Covers e.0 e.1 number) }
    ensures before { IfSome result (λ e. AreFree runs.now number e.0) }
{
    match run_at(runs, None, number) {
        Some(found) => Some(found),
        None => next_run(runs, number),
    }
}

/// Returns true if no run has a number from `first` up to, but not including, `top`. It reads one run.
pub(crate) fn is_free(runs: &BTreeMap<u64, Run>, first: u64, top: u64) -> bool
    requires apart { AreApart runs.now }
    requires some { first < top }
    ensures { IsTrue result → AreFree runs.now first top }
{
    match last_run(runs, top - 1) {
        Some((start, run)) => start <= first && run.count <= first - start,
        None => true,
    }
}

/// Returns the run of `count` messages that are added after `len` messages, and the number of the run's first message.
/// The first of them has this number. They extend a run that ends there, if that run starts at index `since` or
/// later.
pub(crate) fn grown_run(
    runs: &BTreeMap<u64, Run>,
    since: usize,
    len: usize,
    number: u64,
    count: u64,
) -> (u64, Run)
    requires are { AreRuns runs.now len }
    requires since { since ≤ len }
    requires few { number + count < 2 ^ 64 }
    ensures grown { IsGrown runs.now len number count result.0 result.1 }
    ensures since { since ≤ result.1.start }
{
    match last_run(runs, number) {
        Some((first, run)) if joins(first, run, len, number) && since <= run.start => {
            let count = run.count + count;
            (
                first,
                Run {
                    start: run.start,
                    count,
                },
            )
        }
        _ => (number, Run { start: len, count }),
    }
}

// Whether the run ends right before this number and this index.
fn joins(first: u64, run: Run, index: usize, number: u64) -> bool
    ensures { IsTrue result ↔ ((first + run.count ≡ number) × (run.start + run.count ≡ index)) }
{
    first <= number
        && number - first == run.count
        && run.start <= index
        && (index - run.start) as u64 == run.count
}

/// Inserts a run, or replaces the one that begins with the same number. It returns an error if an allocation
/// fails.
pub(crate) fn put_run(runs: &mut BTreeMap<u64, Run>, first: u64, run: Run) -> Result<(), AllocError>
    ensures put { OnOk result (IsPut runs.old first run runs.new) }
    ensures ordered { tree.IsOrdered nat_cmp runs.new }
    ensures same { OnErr result (runs.new.entries ≡ runs.old.entries) }
{
    match runs.insert(first, run) {
        Ok(_) => Ok(()),
        Err(_) => Err(AllocError),
    }
}

/// Removes the runs that start at index `index` or later. They must begin with numbers from `first` up to, but not
/// including, `top`: only these numbers are looked up, so the time does not depend on the number of runs.
pub(crate) fn take_back(runs: &mut BTreeMap<u64, Run>, index: usize, first: u64, top: u64)
    requires ordered { tree.IsOrdered nat_cmp runs.old }
    requires within { BeginWithin runs.old index first top }
    ensures ordered { tree.IsOrdered nat_cmp runs.new }
    ensures out { (f : ℕ) (run : Run) → HasRun runs.new f run → HasRun runs.old f run × (run.start < index) }
    ensures stays { (f : ℕ) (run : Run) → HasRun runs.old f run → run.start < index → HasRun runs.new f run }
{
    for number in first..top {
        take_one_back(runs, index, number);
    }
}

// Whether a run begins with this number and starts at index `index` or later.
fn is_added(runs: &BTreeMap<u64, Run>, index: usize, number: u64) -> bool
    ensures added { IsTrue result → (run : Run) × (HasRun runs.now number run × (index ≤ run.start)) }
    ensures other { result ≡ false → (run : Run) → HasRun runs.now number run → run.start < index }
{
    match runs.get(&number) {
        Some(run) => index <= run.start,
        None => false,
    }
}

// Removes the run that begins with this number, if it starts at index `index` or later.
fn take_one_back(runs: &mut BTreeMap<u64, Run>, index: usize, number: u64)
    requires ordered { tree.IsOrdered nat_cmp runs.old }
    ensures ordered { tree.IsOrdered nat_cmp runs.new }
    ensures out { (f : ℕ) (run : Run) → HasRun runs.new f run → HasRun runs.old f run }
    ensures gone { (run : Run) → HasRun runs.new number run → run.start < index }
    ensures stays { (f : ℕ) (run : Run) → HasRun runs.old f run → run.start < index → HasRun runs.new f run }
{
    if is_added(runs, index, number) {
        let _ = runs.remove(&number);
    }
}
