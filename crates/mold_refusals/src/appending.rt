//! The text of a journal's refusal of a message.

ghost use Rattle.std.specs.Prelude.{◌≡◌, ◌++◌, length, map, take, OnErr, OnOk};
ghost use Rattle.mold_refusals.specs.Words.{append_words};
ghost use Rattle.mold_text.specs.Line.{line_of, word_text};

use mold_session::AppendError;
use mold_text::{Word, push_line_with};
use std::alloc::AllocError;

/// Appends a line of the words `before` and the reason why a journal does not accept a message. If an
/// allocation fails, a part of the line may follow the earlier text.
pub fn push_append_refusal(
    out: &mut Vec<u8>,
    before: &[Word<'_>],
    why: AppendError,
) -> Result<(), AllocError>
    ensures text { OnOk result (out.new.items ≡
        out.old.items ++ line_of (map word_text before.now ++ append_words why)) }
    ensures kept { OnErr result (take (length out.old.items) out.new.items ≡ out.old.items) }
{
    match why {
        AppendError::Closed => push_line_with(out, before, &[Word::Text(b"Closed")]),
        AppendError::TooLong { len } => push_line_with(
            out,
            before,
            &[Word::Text(b"TooLong"), Word::Number(len as u64)],
        ),
        AppendError::Full => push_line_with(out, before, &[Word::Text(b"Full")]),
        AppendError::Memory => push_line_with(out, before, &[Word::Text(b"Memory")]),
    }
}
