//! Writes the text of a loop to standard output and standard error.

ghost use Rattle.std.specs.Prelude.{◌≡◌, [], length, take, IfErr, OnErr, OnOk};
ghost use Rattle.std.specs.Io.KnownBytes.{Appends};
ghost use Rattle.mold_devices.specs.Devices.{AppendsPrefix};
ghost use Rattle.mold_loop.specs.Writing.{HasWritten, IsQuiet, WritesPart};
ghost use Rattle.mold_publish.specs.Publishing.{refused_text};
ghost use Rattle.mold_turns.specs.Outgoing.{IsBounded, KeepsSide, with_note};
ghost use Rattle.mold_turns.specs.Sides.{CountsSinks};

use mold_devices::{CommandFault, Sink};
use mold_input::MessageFormat;
use mold_publish::{MessageRefusal, push_message_refused};
use mold_turns::Outgoing;
use std::alloc::AllocError;

/// Writes the text for standard error. Then writes the text for standard output if it has at least 65,536 bytes or the
/// sink is live.
pub(crate) fn write_large<K: Sink, E: Sink>(
    outgoing: &mut Outgoing,
    sink: &mut K,
    errors: &mut E,
) -> Result<(), CommandFault>
    ensures writes { WritesPart result outgoing.old outgoing.new (K.held sink.old) (K.held sink.new)
        (E.held errors.old) (E.held errors.new) }
    ensures bounded { OnOk result (IsBounded (K.live sink.old) outgoing.new.text) }
    ensures said { OnOk result (outgoing.new.side ≡ []) }
    ensures format { outgoing.new.format ≡ outgoing.old.format }
    ensures live { K.live sink.new ≡ K.live sink.old }
    ensures fault { IfErr result (λ fault. fault ≡ CommandFault.Write) }
    ensures sinks { CountsSinks (K.failed sink.old) (K.failed sink.new) (E.failed errors.old) (E.failed errors.new)
        result }
    ensures quiet { outgoing.old.side ≡ [] →
        IsQuiet (K.failed sink.old) (K.failed sink.new) errors.old errors.new result }
{
    outgoing.send_side(errors)?;
    outgoing.send_large(sink)?;
    Ok(())
}

/// Writes both texts: first the one for standard error, then the one for standard output.
pub(crate) fn write_all<K: Sink, E: Sink>(
    outgoing: &mut Outgoing,
    sink: &mut K,
    errors: &mut E,
) -> Result<(), CommandFault>
    ensures whole { OnOk result (Appends (K.held sink.old) (K.held sink.new) outgoing.old.text) }
    ensures said { OnOk result (Appends (E.held errors.old) (E.held errors.new) outgoing.old.side) }
    ensures front { AppendsPrefix (K.held sink.old) (K.held sink.new) outgoing.old.text }
    ensures said_front { AppendsPrefix (E.held errors.old) (E.held errors.new) outgoing.old.side }
    ensures left { OnOk result (HasWritten outgoing.old outgoing.new) }
    ensures fault { IfErr result (λ fault. fault ≡ CommandFault.Write) }
    ensures sinks { CountsSinks (K.failed sink.old) (K.failed sink.new) (E.failed errors.old) (E.failed errors.new)
        result }
    ensures quiet { outgoing.old.side ≡ [] →
        IsQuiet (K.failed sink.old) (K.failed sink.new) errors.old errors.new result }
{
    outgoing.send_side(errors)?;
    outgoing.send(sink)?;
    Ok(())
}

/// Appends the line that reports why the entry `number` is refused, as a note. If an allocation fails, a part of the
/// line may follow the earlier text.
pub(crate) fn push_refused(
    outgoing: &mut Outgoing,
    number: u64,
    refusal: MessageRefusal,
) -> Result<(), AllocError>
    ensures note { OnOk result (outgoing.new ≡ with_note (refused_text number refusal) outgoing.old) }
    ensures kept { OnErr result (take (length outgoing.old.text) outgoing.new.text ≡ outgoing.old.text) }
    ensures keeps { KeepsSide outgoing.old outgoing.new }
{
    match outgoing.format() {
        MessageFormat::Lines => push_message_refused(&mut outgoing.text, number, refusal),
        MessageFormat::Blocks | MessageFormat::BlocksToEmpty => push_message_refused(
            &mut outgoing.side,
            number,
            refusal,
        ),
    }
}
