//! The last line of a receiver over ports.

ghost use Rattle.std.specs.Prelude.{◌≡◌, ◌++◌, length, take, IfOk, OnErr, OnOk};
ghost use Rattle.std.specs.Io.KnownBytes.{Appends};
ghost use Rattle.mold_listen.specs.Text.{mark_text, stop_line};
ghost use Rattle.mold_receive.specs.Receiving.{finished_line, last_line, last_status, open_line, unopened_line};
ghost use Rattle.mold_turns.specs.Outgoing.{note_side, note_text, with_more, with_note};

use crate::receive_options::ReceiveOptions;
use mold_devices::{CommandFault, Sink};
use mold_input::MessageFormat;
use mold_repair::Repairer;
use mold_text::{Word, push_line};
use mold_turns::Outgoing;
use std::alloc::{AllocError, Global};

/// The status of a receiver that is not finished, or that gave up messages.
const UNFINISHED: u8 = 1;

/// What the last line of a receiver without a first packet reports.
#[derive(Clone, Copy)]
pub struct Unopened {
    /// The number at which it would have started.
    pub next: u64,
    /// The count of failed waits and receives.
    pub failures: u64,
}

// Appends the last line of a receiver that is finished.
fn push_finished(
    outgoing: &mut Outgoing,
    repairer: &Repairer,
    failures: u64,
) -> Result<(), AllocError>
    ensures line { OnOk result (outgoing.new ≡ with_note (finished_line repairer.now failures) outgoing.old) }
    ensures kept { OnErr result (take (length outgoing.old.text) outgoing.new.text ≡ outgoing.old.text) }
{
    let stats = repairer.stats();
    let words = [
        Word::Text(b"finished"),
        Word::Text(b"next"),
        Word::Number(stats.next),
        Word::Text(b"lost"),
        Word::Number(stats.counts.lost),
        Word::Text(b"failed"),
        Word::Number(failures),
    ];
    outgoing.push_note(&words)
}

// Appends the last line of a receiver that is not finished.
fn push_open(outgoing: &mut Outgoing, repairer: &Repairer, failures: u64) -> Result<(), AllocError>
    ensures line { OnOk result (outgoing.new ≡ with_note (open_line repairer.now failures) outgoing.old) }
    ensures kept { OnErr result (take (length outgoing.old.text) outgoing.new.text ≡ outgoing.old.text) }
{
    let stats = repairer.stats();
    let words = [
        Word::Text(b"open"),
        Word::Text(b"next"),
        Word::Number(stats.next),
        Word::Text(b"known"),
        Word::Number(stats.known),
        Word::Text(b"lost"),
        Word::Number(stats.counts.lost),
        Word::Text(b"failed"),
        Word::Number(failures),
    ];
    outgoing.push_note(&words)
}

/// Appends the last line: whether the receiver is finished, the number of the next message, and how many messages were
/// given up. An error means out of memory.
pub(crate) fn push_last(
    outgoing: &mut Outgoing,
    repairer: &Repairer,
    failures: u64,
) -> Result<(), AllocError>
    ensures line { OnOk result (outgoing.new ≡ with_note (last_line repairer.now failures) outgoing.old) }
    ensures kept { OnErr result (take (length outgoing.old.text) outgoing.new.text ≡ outgoing.old.text) }
{
    if repairer.arbiter().receiver().finished() {
        return push_finished(outgoing, repairer, failures);
    }
    push_open(outgoing, repairer, failures)
}

/// Appends the mark of the end, which is an empty block, if the format has one and all messages were printed. An error
/// means out of memory.
pub(crate) fn push_mark(outgoing: &mut Outgoing, is_whole: bool) -> Result<(), AllocError>
    ensures mark { OnOk result (outgoing.new ≡ with_more (mark_text outgoing.old.format is_whole) outgoing.old) }
    ensures kept { OnErr result (take (length outgoing.old.text) outgoing.new.text ≡ outgoing.old.text) }
{
    match outgoing.format() {
        MessageFormat::BlocksToEmpty if is_whole => outgoing.text.extend_from_slice(&[0, 0]),
        _ => Ok(()),
    }
}

/// Appends the line of the empty message `number`, before which printing stopped. An error means out of memory.
pub(crate) fn push_stop(out: &mut Vec<u8>, number: u64) -> Result<(), AllocError>
    ensures line { OnOk result (out.new.items ≡ out.old.items ++ stop_line number) }
{
    let words = [
        Word::Text(b"refused"),
        Word::Text(b"Empty"),
        Word::Number(number),
    ];
    push_line(out, &words)
}

/// Returns the status: 0 if the receiver is finished and nothing was given up, otherwise 1.
pub fn last_status(repairer: &Repairer) -> u8
    ensures { result ≡ last_status repairer.now }
{
    if repairer.arbiter().receiver().finished() && repairer.stats().counts.lost == 0 {
        return 0;
    }
    UNFINISHED
}

// Appends the last line of a receiver without a first packet.
fn push_unopened(outgoing: &mut Outgoing, next: u64, failures: u64) -> Result<(), AllocError>
    ensures line { OnOk result (outgoing.new ≡ with_note (unopened_line next failures) outgoing.old) }
{
    let words = [
        Word::Text(b"open"),
        Word::Text(b"next"),
        Word::Number(next),
        Word::Text(b"known"),
        Word::Number(next),
        Word::Text(b"lost"),
        Word::Number(0),
        Word::Text(b"failed"),
        Word::Number(failures),
    ];
    outgoing.push_note(&words)
}

/// Prints the last line of a receiver that received no first packet, and would have started at `next`. If messages are
/// printed as blocks, it is written to `errors`, otherwise to `sink`. Returns the status, which is 1.
pub fn end_unopened<P: Copy, K: Sink, E: Sink>(
    alloc: Global,
    numbers: Unopened,
    options: &ReceiveOptions<P>,
    sink: &mut K,
    errors: &mut E,
) -> Result<u8, CommandFault>
    ensures status { IfOk result (λ status. status ≡ 1) }
    ensures text { OnOk result (Appends (K.held sink.old) (K.held sink.new)
        (note_text options.now.format (unopened_line numbers.next numbers.failures))) }
    ensures side { OnOk result (Appends (E.held errors.old) (E.held errors.new)
        (note_side options.now.format (unopened_line numbers.next numbers.failures))) }
{
    let mut outgoing = Outgoing::with_format(alloc, options.format());
    push_unopened(&mut outgoing, numbers.next, numbers.failures)?;
    outgoing.send_side(errors)?;
    outgoing.send(sink)?;
    Ok(UNFINISHED)
}
