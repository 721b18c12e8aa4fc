//! The text of refusals: a name and the numbers that belong to it.

ghost use Rattle.std.specs.Prelude.{◌≡◌, ◌++◌, ◌∷◌, [], decimal, length, map, take, OnErr, OnOk};
ghost use Rattle.mold_text.specs.Line.{line_of, word_text};
ghost use Rattle.mold_text.specs.Text.{fault_words, refusal_words, refused_line, request_fault_words};

use crate::line::push_line_with;
use crate::word::Word;
use mold_rule::Refusal;
use mold_wire::{DecodeError, RequestError};
use std::alloc::AllocError;

/// Returns the words for the reason why bytes do not encode a packet.
pub fn packet_fault_words(fault: DecodeError) -> [Word<'static>; 2]
    ensures { map word_text result ≡ fault_words fault }
{
    match fault {
        DecodeError::Short { len } => [Word::Text(b"Short"), Word::Number(len as u64)],
        DecodeError::BlockCut { index } => {
            [Word::Text(b"BlockCut"), Word::Number(u64::from(index))]
        }
        DecodeError::Trailing { at } => [Word::Text(b"Trailing"), Word::Number(at as u64)],
    }
}

/// Returns the words for the reason why bytes do not encode a request.
pub fn request_fault_words(fault: RequestError) -> [Word<'static>; 2]
    ensures { map word_text result ≡ request_fault_words fault }
{
    match fault {
        RequestError::RequestLength { len } => {
            [Word::Text(b"RequestLength"), Word::Number(len as u64)]
        }
    }
}

/// Appends a line that starts with `refused`, followed by the words `why`. If an allocation fails, a part of
/// the line may follow the earlier text.
pub fn push_refused(out: &mut Vec<u8>, why: &[Word<'_>]) -> Result<(), AllocError>
    ensures text { OnOk result (out.new.items ≡ out.old.items ++ refused_line (map word_text why.now)) }
    ensures kept { OnErr result (take (length out.old.items) out.new.items ≡ out.old.items) }
{
    push_line_with(out, &[Word::Text(b"refused")], why)
}

// Appends the line of a refusal that has a name only.
fn push_name(out: &mut Vec<u8>, before: &[Word<'_>], name: &[u8]) -> Result<(), AllocError>
    ensures text { OnOk result (out.new.items ≡
        out.old.items ++ line_of (map word_text before.now ++ name.now ∷ [])) }
    ensures kept { OnErr result (take (length out.old.items) out.new.items ≡ out.old.items) }
{
    push_line_with(out, before, &[Word::Text(name)])
}

// Appends the line of a refusal that has a name and a number.
fn push_numbered(
    out: &mut Vec<u8>,
    before: &[Word<'_>],
    name: &[u8],
    number: u64,
) -> Result<(), AllocError>
    ensures text { OnOk result (out.new.items ≡
        out.old.items ++ line_of (map word_text before.now ++ name.now ∷ decimal number ∷ [])) }
    ensures kept { OnErr result (take (length out.old.items) out.new.items ≡ out.old.items) }
{
    push_line_with(out, before, &[Word::Text(name), Word::Number(number)])
}

/// Appends a line of the words `before` and the reason why a receiver or a checker refuses a datagram. If an
/// allocation fails, a part of the line may follow the earlier text.
pub fn push_refusal(out: &mut Vec<u8>, before: &[Word<'_>], why: Refusal) -> Result<(), AllocError>
    ensures text { OnOk result (out.new.items ≡
        out.old.items ++ line_of (map word_text before.now ++ refusal_words why)) }
    ensures kept { OnErr result (take (length out.old.items) out.new.items ≡ out.old.items) }
{
    match why {
        Refusal::Malformed(fault) => {
            let [name, number] = packet_fault_words(fault);
            push_line_with(out, before, &[Word::Text(b"Malformed"), name, number])
        }
        Refusal::WrongSession => push_name(out, before, b"WrongSession"),
        Refusal::SequenceZero => push_name(out, before, b"SequenceZero"),
        Refusal::PastLast => push_name(out, before, b"PastLast"),
        Refusal::EndConflict { end } => push_numbered(out, before, b"EndConflict", end),
        Refusal::EndBelow { known } => push_numbered(out, before, b"EndBelow", known),
        Refusal::PastEnd { end } => push_numbered(out, before, b"PastEnd", end),
        Refusal::Conflict { number } => push_numbered(out, before, b"Conflict", number),
        Refusal::Memory => push_name(out, before, b"Memory"),
    }
}
