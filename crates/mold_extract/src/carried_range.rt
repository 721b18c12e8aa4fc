//! The carried messages of a range of numbers, one after the other.

ghost use Rattle.std.specs.Prelude.{◌≡◌, ◌∷◌, [], IfSome, IfNone};
ghost use Rattle.mold_extract.specs.Carried.{carried_between};
ghost use Rattle.mold_extract.specs.Run.{left};

use mold_capture::{CarriedMessages, Checker};
use std::marker::Model;

// Takes the next message of a run, if there is one.
#[inline(always)]
fn next_of<'a>(messages: &mut Option<CarriedMessages<'a>>) -> Option<&'a [u8]>
    ensures next { IfSome result (λ message. left messages.old ≡ message.now ∷ left messages.new) }
    ensures none { IfNone result (left messages.new ≡ []) }
{
    match messages {
        Some(run) => run.next(),
        None => None,
    }
}

/// The carried messages whose numbers are in a range, in ascending order. Each run of consecutive numbers takes one
/// look-up in the checker. The messages stay where the checker has them.
#[derive(Drop)]
pub(crate) struct CarriedRange<'a> {
    checker: &'a Checker,
    // The remaining messages of a run, of which the first has the number `next`.
    messages: Option<CarriedMessages<'a>>,
    next: u64,
    below: u64,
}

impl<'a> Model for CarriedRange<'a> {
    ghost use Rattle.std.specs.Prelude.{ℕ, List};
    ghost use Rattle.mold_extract.specs.Carried.{carried_between};
    ghost use Rattle.mold_extract.specs.Run.{AgreesFrom, left};

    ghost Value = { List (ℕ × List ℕ) };

    ghost view = { λ c. carried_between c.checker.now.pairs c.next c.below };

    ghost invariant = { λ c. AgreesFrom c.checker.now.pairs c.next (left c.messages) };
}

impl<'a> CarriedRange<'a> {
    /// Returns the carried messages with the numbers from `first` up to, but not including, `below`.
    pub(crate) fn new(checker: &'a Checker, first: u64, below: u64) -> CarriedRange<'a>
        ensures { result ≡ carried_between checker.now.pairs first below }
    {
        CarriedRange {
            checker,
            messages: None,
            next: first,
            below,
        }
    }

    /// Returns the next message with its number, or `None` if no message remains.
    #[inline(always)]
    pub(crate) fn advance(&mut self) -> Option<(u64, &'a [u8])>
        ensures next { IfSome result (λ entry. self.old ≡ (entry.0, entry.1.now) ∷ self.new) }
        ensures none { IfNone result (self.old ≡ []) }
    {
        if self.next >= self.below {
            return None;
        }
        if let Some(message) = next_of(&mut self.messages) {
            let number = self.next;
            self.next = number + 1;
            return Some((number, message));
        }
        let mut run = self.checker.run_from(self.next)?;
        if run.first >= self.below {
            return None;
        }
        let message = run.messages.next()?;
        self.next = run.first + 1;
        self.messages = Some(run.messages);
        Some((run.first, message))
    }
}
