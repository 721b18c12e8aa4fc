//! What saving the messages of an input as a journal came to, and the line that reports it.

ghost use Rattle.std.specs.Prelude.{◌≡◌, ◌++◌, IfOk, OnOk};
ghost use Rattle.mold_show.specs.PackJournal.{outcome_line, outcome_status};

use mold_publish::{MessageRefusal, push_message_refused};
use mold_text::{Word, push_line};
use std::alloc::AllocError;

/// What saving the messages of an input as a journal came to.
#[derive(Clone, Copy)]
pub enum SaveOutcome {
    /// The journal was saved.
    Saved {
        /// The number of its messages.
        messages: u64,
    },
    /// An entry is refused, and nothing was saved.
    Refused {
        /// The number of the entry, from 1.
        number: u64,
        /// The reason.
        refusal: MessageRefusal,
    },
}

/// Appends the line that reports an outcome, and returns its status.
pub(crate) fn push_outcome(out: &mut Vec<u8>, outcome: SaveOutcome) -> Result<u8, AllocError>
    ensures text { OnOk result (out.new.items ≡ out.old.items ++ outcome_line outcome) }
    ensures status { IfOk result (λ status. status ≡ outcome_status outcome) }
{
    match outcome {
        SaveOutcome::Saved { messages } => {
            push_line(out, &[Word::Text(b"saved"), Word::Number(messages)])?;
            Ok(0)
        }
        SaveOutcome::Refused { number, refusal } => {
            push_message_refused(out, number, refusal)?;
            Ok(2)
        }
    }
}
