//! The text of a server's refusal of a request.

ghost use Rattle.std.specs.Prelude.{◌≡◌, ◌++◌, length, map, take, OnErr, OnOk};
ghost use Rattle.mold_refusals.specs.Words.{answer_words};
ghost use Rattle.mold_text.specs.Line.{line_of, word_text};

use mold_session::AnswerError;
use mold_text::{Word, push_line_with};
use std::alloc::AllocError;

/// Appends a line of the words `before` and the reason why a server does not respond to a request. If an
/// allocation fails, a part of the line may follow the earlier text.
pub fn push_answer_refusal(
    out: &mut Vec<u8>,
    before: &[Word<'_>],
    why: AnswerError,
) -> Result<(), AllocError>
    ensures text { OnOk result (out.new.items ≡
        out.old.items ++ line_of (map word_text before.now ++ answer_words why)) }
    ensures kept { OnErr result (take (length out.old.items) out.new.items ≡ out.old.items) }
{
    match why {
        AnswerError::RequestLength { len } => push_line_with(
            out,
            before,
            &[Word::Text(b"RequestLength"), Word::Number(len as u64)],
        ),
        AnswerError::WrongSession => push_line_with(out, before, &[Word::Text(b"WrongSession")]),
        AnswerError::SequenceZero => push_line_with(out, before, &[Word::Text(b"SequenceZero")]),
        AnswerError::EmptyRequest => push_line_with(out, before, &[Word::Text(b"EmptyRequest")]),
        AnswerError::Ahead { next } => {
            push_line_with(out, before, &[Word::Text(b"Ahead"), Word::Number(next)])
        }
    }
}
