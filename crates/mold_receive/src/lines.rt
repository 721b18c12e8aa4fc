//! The lines on standard error about datagrams, and the statistics.

ghost use Rattle.std.specs.Prelude.{◌≡◌, ◌++◌, length, map, take, OnErr, OnOk};
ghost use Rattle.mold_receive.specs.Refused.{is_foreign, line_name, reason_words, refused_from};
ghost use Rattle.mold_text.specs.Line.{line_of, word_text};

use mold_receiver::{Line, Refusal};
use mold_repair::RepairOrigin;
use mold_text::{Word, push_line_with, push_refusal};
use mold_wire::SESSION_LENGTH;
use std::alloc::AllocError;

/// Returns the name of a line.
pub(crate) fn name_of(line: Line) -> &'static [u8]
    ensures { result.now ≡ line_name line }
{
    match line {
        Line::A => b"a",
        Line::B => b"b",
    }
}

// Returns whether the datagram was refused because it is of another session.
fn is_foreign(why: Refusal) -> bool
    ensures { result ≡ is_foreign why }
{
    matches!(why, Refusal::WrongSession)
}

// Appends a line of the words `before` and the reason of a refusal. After `WrongSession`, the session of the datagram
// follows.
fn push_with_reason(
    out: &mut Vec<u8>,
    before: &[Word<'_>],
    why: Refusal,
    datagram: &[u8],
) -> Result<(), AllocError>
    ensures line { OnOk result (out.new.items ≡ out.old.items
        ++ line_of (map word_text before.now ++ reason_words why datagram.now)) }
    ensures kept { OnErr result (take (length out.old.items) out.new.items ≡ out.old.items) }
{
    if !is_foreign(why) {
        return push_refusal(out, before, why);
    }
    let session = &datagram[..SESSION_LENGTH.min(datagram.len())];
    let words = [Word::Text(b"WrongSession"), Word::Digits(session)];
    push_line_with(out, before, &words)
}

/// Appends the line about a datagram that was refused. If an allocation fails, a part of the line may follow the
/// earlier text.
pub(crate) fn push_refused_from(
    out: &mut Vec<u8>,
    origin: RepairOrigin,
    why: Refusal,
    datagram: &[u8],
) -> Result<(), AllocError>
    ensures line { OnOk result (out.new.items ≡ out.old.items ++ refused_from origin why datagram.now) }
    ensures kept { OnErr result (take (length out.old.items) out.new.items ≡ out.old.items) }
{
    match origin {
        RepairOrigin::Line(line) => {
            let from = Word::Text(name_of(line));
            push_with_reason(out, &[Word::Text(b"refused"), from], why, datagram)
        }
        RepairOrigin::Server(server) => {
            let number = Word::Number(u64::from(server) + 1);
            let before = [Word::Text(b"refused"), Word::Text(b"server"), number];
            push_with_reason(out, &before, why, datagram)
        }
    }
}
