//! Writes carried messages as lines.

ghost use Rattle.std.specs.Prelude.{◌≡◌, ◌∷◌, ◌<◌, ◌^◌, ◌++◌, [], length, take, IfErr, IfOk, OnErr, OnOk, decimal};
ghost use Rattle.std.specs.Io.KnownBytes.{Appends};
ghost use Rattle.std.specs.List.{flat_map};
ghost use Rattle.mold_devices.specs.Devices.{AppendsPrefix};
ghost use Rattle.mold_devices.specs.Faults.{CountsSink};
ghost use Rattle.mold_devices.specs.Writing.{Moves};
ghost use Rattle.mold_extract.specs.Carried.{carried_in};
ghost use Rattle.mold_extract.specs.Text.{entry_line, lines_in};

use crate::carried_range::CarriedRange;
use crate::number_range::NumberRange;
use mold_capture::Checker;
use mold_devices::{CommandFault, Sink, end_with, send, send_large};
use mold_text::{Word, push_line};
use std::alloc::{AllocError, Global};

fn push_entry(text: &mut Vec<u8>, number: u64, message: &[u8]) -> Result<(), AllocError>
    ensures line { OnOk result (text.new.items ≡ text.old.items ++ entry_line (number, message.now)) }
    ensures kept { OnErr result (take (length text.old.items) text.new.items ≡ text.old.items) }
{
    push_line(text, &[Word::Number(number), Word::Message(message)])
}

// Appends the line of a message. Then writes the text if it has at least 65,536 bytes. If an allocation fails, writes
// the text before that line.
fn print_entry<K: Sink>(
    sink: &mut K,
    text: &mut Vec<u8>,
    number: u64,
    message: &[u8],
) -> Result<(), CommandFault>
    ensures moved { OnOk result (Moves (K.held sink.old) (K.held sink.new)
        (text.old.items ++ entry_line (number, message.now)) text.new.items) }
    ensures front { OnErr result (AppendsPrefix (K.held sink.old) (K.held sink.new)
        (text.old.items ++ entry_line (number, message.now))) }
    ensures failures { CountsSink (K.failed sink.old) (K.failed sink.new) result }
{
    let before = text.len();
    match push_entry(text, number, message) {
        Ok(()) => {
            send_large(sink, text)?;
            Ok(())
        }
        Err(_) => Err(end_with(sink, text, before, CommandFault::Memory)),
    }
}

// Writes the text and the lines of the messages, and returns the number of messages.
fn print_entries<K: Sink>(
    sink: &mut K,
    text: &mut Vec<u8>,
    carried: &mut CarriedRange<'_>,
) -> Result<u64, CommandFault>
    requires { length carried.old < 2 ^ 64 }
    ensures whole { OnOk result
        (Appends (K.held sink.old) (K.held sink.new) (text.old.items ++ flat_map entry_line carried.old)) }
    ensures counted { IfOk result (λ count. count ≡ length carried.old) }
    ensures front { OnErr result
        (AppendsPrefix (K.held sink.old) (K.held sink.new) (text.old.items ++ flat_map entry_line carried.old)) }
    ensures failures { CountsSink (K.failed sink.old) (K.failed sink.new) result }
{
    let mut count = 0u64;
    while let Some((number, message)) = carried.advance() {
        print_entry(sink, text, number, message)?;
        count += 1;
    }
    send(sink, text)?;
    Ok(count)
}

/// Writes the line `NUMBER BYTES` of each carried message whose number is in the range, in ascending order, and returns
/// the number of messages. Numbers that are not carried have no line.
///
/// The lines are written in pieces of about 64 KiB. After a fault, a prefix of the lines was written. The fault is
/// `Write` if the sink failed, and `Memory` if the allocation of a piece failed.
pub fn extract_lines<K: Sink>(
    alloc: Global,
    checker: &Checker,
    range: NumberRange,
    sink: &mut K,
) -> Result<u64, CommandFault>
    ensures whole { OnOk result (Appends (K.held sink.old) (K.held sink.new) (lines_in checker.now.pairs range)) }
    ensures counted { IfOk result (λ count. count ≡ length (carried_in checker.now.pairs range)) }
    ensures front { OnErr result
        (AppendsPrefix (K.held sink.old) (K.held sink.new) (lines_in checker.now.pairs range)) }
    ensures failures { CountsSink (K.failed sink.old) (K.failed sink.new) result }
{
    let mut text = Vec::new(alloc);
    let mut carried = CarriedRange::new(checker, range.first(), range.below());
    print_entries(sink, &mut text, &mut carried)
}
