//! The lines that a publisher over ports prints. Each function appends to the existing text.

ghost use Rattle.std.specs.Prelude.{◌≡◌, ◌++◌, length, take, OnErr, OnOk};
ghost use Rattle.mold_feeder.specs.FeedText.{compared_text, fed_line, named_line, resumed_line};

use crate::compared::Compared;
use mold_input::InputKind;
use mold_publish::{MessageRefusal, push_message_refused};
use mold_text::{Word, push_line, push_refused};
use std::alloc::AllocError;

/// Appends the first line of a session that is resumed. `messages` is the number of messages that its journal has. If
/// an allocation fails, a part of the line may follow the earlier text.
pub fn push_resumed(out: &mut Vec<u8>, messages: u64) -> Result<(), AllocError>
    ensures text { OnOk result (out.new.items ≡ out.old.items ++ resumed_line messages) }
    ensures kept { OnErr result (take (length out.old.items) out.new.items ≡ out.old.items) }
{
    push_line(out, &[Word::Text(b"resumed"), Word::Number(messages)])
}

/// Appends the last line: the number of the session's messages, and of the data packets, responses and failures of this
/// process. If an allocation fails, a part of the line may follow the earlier text.
pub fn push_fed(
    out: &mut Vec<u8>,
    messages: u64,
    datagrams: u64,
    answered: u64,
    failed: u64,
) -> Result<(), AllocError>
    ensures text { OnOk result
        (out.new.items ≡ out.old.items ++ fed_line messages datagrams answered failed) }
    ensures kept { OnErr result (take (length out.old.items) out.new.items ≡ out.old.items) }
{
    let words = [
        Word::Text(b"published"),
        Word::Number(messages),
        Word::Text(b"datagrams"),
        Word::Number(datagrams),
        Word::Text(b"answered"),
        Word::Number(answered),
        Word::Text(b"failed"),
        Word::Number(failed),
    ];
    push_line(out, &words)
}

// Appends the line of a refusal that has a name only.
fn push_named(
    out: &mut Vec<u8>,
    kind: InputKind,
    number: u64,
    name: &[u8],
) -> Result<(), AllocError>
    ensures text { OnOk result (out.new.items ≡ out.old.items ++ named_line kind number name.now) }
    ensures kept { OnErr result (take (length out.old.items) out.new.items ≡ out.old.items) }
{
    let entry = match kind {
        InputKind::Lines => Word::Text(b"line"),
        InputKind::Blocks => Word::Text(b"block"),
    };
    push_refused(out, &[entry, Word::Number(number), Word::Text(name)])
}

/// Appends the line for the entry of this number after an input was compared with the journal. `Differs` and `Missing`
/// are its words for an entry that is another message, and for an input that ends too early. If an allocation fails, a
/// part of the line may follow the earlier text.
pub fn push_compared(
    out: &mut Vec<u8>,
    kind: InputKind,
    number: u64,
    compared: Compared,
) -> Result<(), AllocError>
    ensures text { OnOk result (out.new.items ≡ out.old.items ++ compared_text kind number compared) }
    ensures kept { OnErr result (take (length out.old.items) out.new.items ≡ out.old.items) }
{
    match compared {
        Compared::Same => Ok(()),
        Compared::Differs => push_named(out, kind, number, b"Differs"),
        Compared::Refused { why } => push_message_refused(
            out,
            number,
            MessageRefusal { kind, why },
        ),
        Compared::End => push_named(out, kind, number, b"Missing"),
    }
}
