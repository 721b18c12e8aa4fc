//! Why a message of an input is not published, and the line that reports it.

ghost use Rattle.std.specs.Prelude.{◌≡◌, ◌++◌, length, take, OnErr, OnOk};
ghost use Rattle.mold_publish.specs.Publishing.{refused_text};

use crate::refusal_reason::RefusalReason;
use mold_input::{InputFault, InputKind};
use mold_refusals::push_append_refusal;
use mold_text::{Word, push_line_with};
use std::alloc::AllocError;

/// Why an entry of an input is not published as a message.
#[derive(Clone, Copy)]
pub struct MessageRefusal {
    /// The kind of the input. A line of text names the entry by it.
    pub kind: InputKind,
    /// The reason.
    pub why: RefusalReason,
}

/// Appends the line that reports why the entry of this number is refused. Entries are numbered from 1. If an allocation
/// fails, a part of the line may follow the earlier text.
pub fn push_message_refused(
    out: &mut Vec<u8>,
    number: u64,
    refusal: MessageRefusal,
) -> Result<(), AllocError>
    ensures text { OnOk result (out.new.items ≡ out.old.items ++ refused_text number refusal) }
    ensures kept { OnErr result (take (length out.old.items) out.new.items ≡ out.old.items) }
{
    let entry = match refusal.kind {
        InputKind::Lines => Word::Text(b"line"),
        InputKind::Blocks => Word::Text(b"block"),
    };
    let before = [Word::Text(b"refused"), entry, Word::Number(number)];
    match refusal.why {
        RefusalReason::NotRead(InputFault::NotHex) => {
            push_line_with(out, &before, &[Word::Text(b"NotHex")])
        }
        RefusalReason::NotRead(InputFault::TooLong { len }) => push_line_with(
            out,
            &before,
            &[Word::Text(b"TooLong"), Word::Number(len as u64)],
        ),
        RefusalReason::NotRead(InputFault::Cut) => {
            push_line_with(out, &before, &[Word::Text(b"Cut")])
        }
        RefusalReason::NotTaken(why) => push_append_refusal(out, &before, why),
    }
}
