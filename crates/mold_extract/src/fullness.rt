//! Whether all numbers of a range have a carried message.

ghost use Rattle.std.specs.Prelude.{◌≡◌, false, IsTrue};
ghost use Rattle.mold_extract.specs.Carried.{IsFull, end_before};

use mold_capture::Checker;

// The end of the session, if it has one below this number, and otherwise this number.
fn end_before(checker: &Checker, below: u64) -> u64
    ensures { result ≡ end_before checker.now.ended below }
{
    match checker.end() {
        Some(end) => end.min(below),
        None => below,
    }
}

/// Returns whether each number from `first` up to, but not including, `below` has a carried message. Numbers from that
/// of an end packet on don't count. It looks up one run after the other.
pub(crate) fn is_full(checker: &Checker, first: u64, below: u64) -> bool
    ensures full { IsTrue result → IsFull checker.now first below }
    ensures holes { result ≡ false → IsFull checker.now first below → ⊥ }
{
    let end = end_before(checker, below);
    let mut next = first;
    while next < end {
        let Some(run) = checker.run_from(next) else {
            return false;
        };
        if run.first != next {
            return false;
        }
        next += run.messages.len() as u64;
    }
    true
}
