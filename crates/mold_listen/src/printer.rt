//! The text that a listener still has to print.

ghost use Rattle.std.specs.Prelude.{◌≡◌, length, take, OnErr, OnOk};
ghost use Rattle.mold_input.specs.declared.message_format.MessageFormat.TheVariants.{BlocksToEmpty};
ghost use Rattle.mold_listen.specs.Listening.{progress, taken, with_handed};
ghost use Rattle.mold_listen.specs.Text.{handed_text, message_text, printable, stop_after};
ghost use Rattle.mold_turns.specs.Outgoing.{KeepsSide, nothing_in, with_more, with_note, with_stop};
ghost use Rattle.mold_turns.specs.Runs.{Begins};
ghost use Rattle.mold_receiver.specs.Origin.{line_of};
ghost use Rattle.mold_text.specs.Text.{refusal_words, refused_line};

use crate::handed::{push_block, push_blocks, push_lines, push_to_empty};
use mold_input::MessageFormat;
use mold_receiver::{Arbiter, Batch, Origin, Refusal};
use mold_text::{Word, push_refusal};
use mold_turns::Outgoing;
use std::alloc::{AllocError, Global};

// Appends the blocks of the batch up to its first empty message, and notes the number of that message. If printing
// stopped earlier, appends nothing.
fn print_to_empty(outgoing: &mut Outgoing, batch: &Batch) -> Result<(), AllocError>
    ensures handed { OnOk result (outgoing.new
        ≡ with_stop (stop_after BlocksToEmpty outgoing.old.stopped batch.now.first batch.now.messages)
        (with_more (handed_text BlocksToEmpty batch.now.first
        (printable BlocksToEmpty outgoing.old.stopped batch.now.messages)) outgoing.old)) }
    ensures kept { OnErr result (take (length outgoing.old.text) outgoing.new.text ≡ outgoing.old.text) }
    ensures keeps { KeepsSide outgoing.old outgoing.new }
{
    if outgoing.stopped.is_none() {
        outgoing.stopped = push_to_empty(&mut outgoing.text, batch)?;
    }
    Ok(())
}

/// Appends a line or a block for each message of the batch that can be printed, in the format of `outgoing`. In the
/// format `BlocksToEmpty` an empty message stops printing: see `Outgoing::stopped`. An error means out of memory; the
/// bytes after the former text are then meaningless. It is linear in the text that it appends.
pub fn print_handed(outgoing: &mut Outgoing, batch: &Batch) -> Result<(), AllocError>
    ensures text { OnOk result (outgoing.new ≡ with_handed batch.now.first batch.now.messages outgoing.old) }
    ensures kept { OnErr result (take (length outgoing.old.text) outgoing.new.text ≡ outgoing.old.text) }
    ensures keeps { KeepsSide outgoing.old outgoing.new }
{
    match outgoing.format() {
        MessageFormat::Lines => push_lines(&mut outgoing.text, batch),
        MessageFormat::Blocks => push_blocks(&mut outgoing.text, batch),
        MessageFormat::BlocksToEmpty => print_to_empty(outgoing, batch),
    }
}

/// Appends the line or the block of a message, in the format of `outgoing`. An error means out of memory; the bytes
/// after the former text are then meaningless.
pub fn print_message(outgoing: &mut Outgoing, number: u64, message: &[u8]) -> Result<(), AllocError>
    ensures text { OnOk result
        (outgoing.new ≡ with_more (message_text outgoing.old.format number message.now) outgoing.old) }
    ensures kept { OnErr result (take (length outgoing.old.text) outgoing.new.text ≡ outgoing.old.text) }
    ensures keeps { KeepsSide outgoing.old outgoing.new }
{
    match outgoing.format() {
        MessageFormat::Lines => outgoing.push_line(&[Word::Number(number), Word::Message(message)]),
        MessageFormat::Blocks | MessageFormat::BlocksToEmpty => push_block(
            &mut outgoing.text,
            message,
        ),
    }
}

// Appends the line of a refused datagram.
fn print_refused(outgoing: &mut Outgoing, why: Refusal) -> Result<(), AllocError>
    ensures text { OnOk result (outgoing.new ≡ with_note (refused_line (refusal_words why)) outgoing.old) }
    ensures kept { OnErr result (take (length outgoing.old.text) outgoing.new.text ≡ outgoing.old.text) }
    ensures keeps { KeepsSide outgoing.old outgoing.new }
{
    let words = [Word::Text(b"refused")];
    match outgoing.format() {
        MessageFormat::Lines => push_refusal(&mut outgoing.text, &words, why),
        MessageFormat::Blocks | MessageFormat::BlocksToEmpty => push_refusal(
            &mut outgoing.side,
            &words,
            why,
        ),
    }
}

/// The text that a listener still has to print, and the batch that a datagram's messages are delivered in.
#[derive(Drop)]
pub struct Printer {
    // The messages that the last datagram delivered. The memory is kept for the next datagram.
    batch: Batch,
    /// The text that is still to be written, and the count of failed sends and receives.
    pub outgoing: Outgoing,
}

impl Printer {
    /// Returns a printer without text and failures that prints messages in this format. This allocates no memory.
    pub fn new(alloc: Global, format: MessageFormat) -> Printer
        ensures { result.outgoing ≡ nothing_in format }
    {
        Printer {
            batch: Batch::new(alloc),
            outgoing: Outgoing::with_format(alloc, format),
        }
    }

    /// Gives the arbiter a datagram. Appends the messages that it delivers, or the reason why the datagram is refused.
    /// In the format `BlocksToEmpty` an empty message and the messages after it are not appended: see
    /// `Outgoing::stopped`. An error means out of memory; the bytes after the former text are then meaningless.
    pub(crate) fn take(
        &mut self,
        arbiter: &mut Arbiter,
        origin: Origin,
        bytes: &[u8],
    ) -> Result<(), AllocError>
        ensures taken { OnOk result (progress arbiter.new self.new.outgoing
            ≡ taken (line_of origin) bytes.now (progress arbiter.old self.old.outgoing)) }
        ensures prints { Begins self.old.outgoing.text self.new.outgoing.text }
        ensures keeps { KeepsSide self.old.outgoing self.new.outgoing }
    {
        self.batch.clear();
        match arbiter.take_from(origin, bytes, &mut self.batch) {
            Ok(_) => print_handed(&mut self.outgoing, &self.batch),
            Err(Refusal::Memory) => Err(AllocError),
            Err(refused) => print_refused(&mut self.outgoing, refused),
        }
    }
}
