//! The text of delivered messages, which is written whenever it is large.

ghost use Rattle.std.specs.Prelude.{◌≡◌, ◌<◌, ◌++◌, IfOk, IfSome, None, length, OnErr, OnOk};
ghost use Rattle.mold_devices.specs.Devices.{AppendsPrefix};
ghost use Rattle.mold_devices.specs.Writing.{Moves};
ghost use Rattle.mold_devices.specs.declared.output.TheConstants.{LARGE};
ghost use Rattle.mold_listen.specs.Text.{handed_text, message_text, printable, stop_after};
ghost use Rattle.mold_receive.specs.Receiving.{HasCut, stops_at};
ghost use Rattle.mold_turns.specs.Outgoing.{IsBounded};

use mold_devices::{CommandFault, LARGE, Sink};
use mold_input::MessageFormat;
use mold_listen::print_message;
use mold_receiver::Batch;
use mold_turns::Outgoing;

// Prints a message, and writes the text if it has at least `LARGE` bytes.
fn print_one<K: Sink>(
    outgoing: &mut Outgoing,
    number: u64,
    message: &[u8],
    sink: &mut K,
) -> Result<(), CommandFault>
    ensures moved { OnOk result (Moves (K.held sink.old) (K.held sink.new)
        (outgoing.old.text ++ message_text outgoing.old.format number message.now) outgoing.new.text) }
    ensures front { OnErr result (AppendsPrefix (K.held sink.old) (K.held sink.new)
        (outgoing.old.text ++ message_text outgoing.old.format number message.now)) }
    ensures bounded { OnOk result (length outgoing.new.text < LARGE) }
    ensures format { outgoing.new.format ≡ outgoing.old.format }
    ensures live { K.live sink.new ≡ K.live sink.old }
{
    let before = outgoing.unwritten();
    let Ok(()) = print_message(outgoing, number, message) else {
        return Err(outgoing.end_with(before, CommandFault::Memory, sink));
    };
    if outgoing.unwritten() < LARGE {
        return Ok(());
    }
    outgoing.send(sink)
}

// Returns whether a message stops printing: its block would be the mark of the end.
fn stops_at(format: MessageFormat, message: &[u8]) -> bool
    ensures { result ≡ stops_at format message.now }
{
    match format {
        MessageFormat::Lines | MessageFormat::Blocks => false,
        MessageFormat::BlocksToEmpty => message.is_empty(),
    }
}

// Prints the messages of the batch, and writes the text whenever it has at least `LARGE` bytes. Returns the number of
// the message that stops printing, if one does. It and the messages after it are not printed.
fn print_all<K: Sink>(
    outgoing: &mut Outgoing,
    batch: &Batch,
    sink: &mut K,
) -> Result<Option<u64>, CommandFault>
    ensures stop { IfOk result
        (λ stop. stop ≡ stop_after outgoing.old.format None batch.now.first batch.now.messages) }
    ensures moved { OnOk result (Moves (K.held sink.old) (K.held sink.new) (outgoing.old.text
        ++ handed_text outgoing.old.format batch.now.first (printable outgoing.old.format None batch.now.messages))
        outgoing.new.text) }
    ensures front { OnErr result (AppendsPrefix (K.held sink.old) (K.held sink.new) (outgoing.old.text
        ++ handed_text outgoing.old.format batch.now.first (printable outgoing.old.format None batch.now.messages))) }
    ensures format { outgoing.new.format ≡ outgoing.old.format }
    ensures live { K.live sink.new ≡ K.live sink.old }
{
    let (Some(first), Some(after)) = (batch.first(), batch.after()) else {
        return Ok(None);
    };
    for number in first..after {
        if let Some(message) = batch.get((number - first) as usize) {
            if stops_at(outgoing.format(), message) {
                return Ok(Some(number));
            }
            print_one(outgoing, number, message, sink)?;
        }
    }
    Ok(None)
}

/// Prints the messages of the batch. Writes the text whenever it has at least 65,536 bytes. For a live sink, it writes
/// all text in the end. After a fault, a prefix of the text is written.
///
/// A message that stops printing is not a fault, but ends the loop like one: its number is put into `stopped`, the text
/// before it is written, and an error is returned.
pub(crate) fn print_batch<K: Sink>(
    outgoing: &mut Outgoing,
    batch: &Batch,
    sink: &mut K,
    stopped: &mut Option<u64>,
) -> Result<(), CommandFault>
    requires going { stopped.old ≡ None }
    ensures moved { OnOk result (Moves (K.held sink.old) (K.held sink.new)
        (outgoing.old.text ++ handed_text outgoing.old.format batch.now.first batch.now.messages)
        outgoing.new.text) }
    ensures full { OnOk result (stop_after outgoing.old.format None batch.now.first batch.now.messages ≡ None) }
    ensures going { OnOk result (stopped.new ≡ None) }
    ensures front { OnErr result (AppendsPrefix (K.held sink.old) (K.held sink.new)
        (outgoing.old.text ++ handed_text outgoing.old.format batch.now.first batch.now.messages)) }
    ensures cut { OnErr result (IfSome stopped.new (HasCut outgoing.old.format batch.now outgoing.old.text
        (K.held sink.old) (K.held sink.new))) }
    ensures bounded { OnOk result (IsBounded (K.live sink.old) outgoing.new.text) }
    ensures format { outgoing.new.format ≡ outgoing.old.format }
{
    if let Some(number) = print_all(outgoing, batch, sink)? {
        outgoing.send(sink)?;
        *stopped = Some(number);
        return Err(CommandFault::Write);
    }
    outgoing.send_large(sink)
}
