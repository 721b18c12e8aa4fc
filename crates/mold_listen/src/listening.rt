//! The loop that listens on two lines, and the last line that it prints.

ghost use Rattle.std.specs.Prelude.{◌≡◌, true, IfOk, OnErr, OnOk};
ghost use Rattle.mold_devices.specs.Faults.{CountsSink};
ghost use Rattle.mold_input.specs.declared.message_format.MessageFormat.TheVariants.{Lines};
ghost use Rattle.mold_turns.specs.Sides.{CountsSinks, RanBeside};
ghost use Rattle.mold_listen.specs.Listening.{Agrees, IsInNextTurn, beginning, progress, last_line, line_status};
ghost use Rattle.mold_listen.specs.Listening.{listened_lines, listened_side, listening, side_text, status};
ghost use Rattle.mold_turns.specs.Outgoing.{KeepsSide, with_note};
ghost use Rattle.mold_turns.specs.Runs.{Begins, WrittenInTime};
ghost use Rattle.mold_listen.specs.Text.{finished_line, open_line};

use crate::feed_listener::FeedListener;
use crate::listen_options::ListenOptions;
use crate::listen_ports::ListenPorts;
use crate::printer::Printer;
use mold_devices::{CommandFault, Sink};
use mold_input::MessageFormat;
use mold_ports::Datagrams;
use mold_receiver::Arbiter;
use mold_text::Word;
use mold_turns::Outgoing;
use mold_wire::MAX_LIMIT;
use std::alloc::{AllocError, Global};

// The last line if all messages up to the end of the session were delivered.
fn push_finished(outgoing: &mut Outgoing, next: u64) -> Result<(), AllocError>
    ensures line { OnOk result (outgoing.new ≡ with_note (finished_line next outgoing.old.failures) outgoing.old) }
    ensures prints { Begins outgoing.old.text outgoing.new.text }
    ensures keeps { KeepsSide outgoing.old outgoing.new }
{
    let words = [
        Word::Text(b"finished"),
        Word::Text(b"next"),
        Word::Number(next),
        Word::Text(b"failed"),
        Word::Number(outgoing.failures()),
    ];
    outgoing.push_note(&words)
}

// The last line of a listener that has not finished.
fn push_open(outgoing: &mut Outgoing, next: u64, known: u64) -> Result<(), AllocError>
    ensures line { OnOk result (outgoing.new ≡ with_note (open_line next known outgoing.old.failures) outgoing.old) }
    ensures prints { Begins outgoing.old.text outgoing.new.text }
    ensures keeps { KeepsSide outgoing.old outgoing.new }
{
    let words = [
        Word::Text(b"open"),
        Word::Text(b"next"),
        Word::Number(next),
        Word::Text(b"known"),
        Word::Number(known),
        Word::Text(b"failed"),
        Word::Number(outgoing.failures()),
    ];
    outgoing.push_note(&words)
}

/// Appends the last line to the text: whether the listener has finished, the number of the next message, and the count
/// of failed sends and receives. If it has not finished, the line also has the known top. Returns the status: 0
/// finished, 1 open. An error means out of memory.
pub fn push_last(arbiter: &Arbiter, outgoing: &mut Outgoing) -> Result<u8, AllocError>
    ensures status { IfOk result (λ status. status ≡ line_status (progress arbiter.now outgoing.old)) }
    ensures line { OnOk result
        (outgoing.new ≡ with_note (last_line (progress arbiter.now outgoing.old)) outgoing.old) }
    ensures prints { Begins outgoing.old.text outgoing.new.text }
    ensures keeps { KeepsSide outgoing.old outgoing.new }
{
    let receiver = arbiter.receiver();
    if receiver.finished() {
        push_finished(outgoing, receiver.next())?;
        return Ok(0);
    }
    push_open(outgoing, receiver.next(), receiver.known())?;
    Ok(1)
}

/// Listens on lines `a` and `b`. Prints each message that the arbiter delivers, in order: in the format `Lines` as its
/// number and its bytes, otherwise as its block. Prints each refusal.
///
/// In each turn the loop receives once on each line. If messages are missing, it then sends a request from `requests`
/// to the server and receives at most `burst` responses. The loop ends after the first turn that leaves the receiver
/// finished, or after `turns` turns. It prints reports of `a` and `b` if `reporting` is set, then a last line, and
/// returns the status: 0 finished, 1 open.
///
/// In the format `Lines` all text is written to `sink`. Otherwise `sink` gets the blocks and nothing else, and
/// refusals, reports and the last line are written to `errors`.
///
/// In the format `BlocksToEmpty` an empty block follows the last message once the receiver has finished. An empty
/// message cannot be printed then: the loop ends after the turn that delivers it. Neither it nor a later message is
/// printed. In place of reports and last line, the line `refused Empty NUMBER` is written to `errors`, and the status
/// is 2.
///
/// A failed send or receive is counted, and the loop continues. After a fault, a prefix of each text is written.
pub fn listen_loop<D: Datagrams, K: Sink, E: Sink>(
    alloc: Global,
    a: &mut D,
    b: &mut D,
    requests: &mut D,
    server: D::Peer,
    arbiter: &mut Arbiter,
    burst: u16,
    turns: u64,
    reporting: bool,
    format: MessageFormat,
    sink: &mut K,
    errors: &mut E,
) -> Result<u8, CommandFault>
    ensures run { D.modeled ≡ true → RanBeside (listening server burst) side_text turns
        (beginning format (D.port a.old) (D.port b.old) (D.port requests.old) arbiter.old)
        (listened_lines reporting) (listened_side reporting) status
        (Agrees (D.port a.new) (D.port b.new) (D.port requests.new) arbiter.new)
        result (K.held sink.old) (K.held sink.new) (E.held errors.old) (E.held errors.new) (D.port requests.new).sent }
    ensures timely { OnErr result (D.modeled ≡ true → WrittenInTime (listening server burst)
        (beginning format (D.port a.old) (D.port b.old) (D.port requests.old) arbiter.old) (K.live sink.old)
        (K.held sink.old) (K.held sink.new) (IsInNextTurn (D.port a.new) (D.port b.new))) }
    ensures sinks { CountsSinks (K.failed sink.old) (K.failed sink.new) (E.failed errors.old) (E.failed errors.new)
        result }
    ensures lines { format ≡ Lines →
        (errors.new ≡ errors.old) × CountsSink (K.failed sink.old) (K.failed sink.new) result }
{
    let mut buffer = vec![in alloc; 0; MAX_LIMIT]?;
    let mut printer = Printer::new(alloc, format);
    let mut listener = FeedListener {
        a,
        b,
        requests,
        arbiter,
        printer: &mut printer,
    };
    let options = ListenOptions {
        server,
        burst,
        turns,
        reporting,
        format,
    };
    listener.listen(options, buffer.as_mut_slice(), sink, errors)
}

/// Listens as `listen_loop` does, with these ports and options.
pub fn listen<D: Datagrams + Drop, K: Sink, E: Sink>(
    alloc: Global,
    ports: &mut ListenPorts<D>,
    options: ListenOptions<D::Peer>,
    arbiter: &mut Arbiter,
    sink: &mut K,
    errors: &mut E,
) -> Result<u8, CommandFault>
    ensures run { D.modeled ≡ true → RanBeside (listening options.server options.burst) side_text options.turns
        (beginning options.format (D.port ports.old.a) (D.port ports.old.b) (D.port ports.old.requests) arbiter.old)
        (listened_lines options.reporting) (listened_side options.reporting) status
        (Agrees (D.port ports.new.a) (D.port ports.new.b) (D.port ports.new.requests) arbiter.new)
        result (K.held sink.old) (K.held sink.new) (E.held errors.old) (E.held errors.new)
        (D.port ports.new.requests).sent }
    ensures timely { OnErr result (D.modeled ≡ true → WrittenInTime (listening options.server options.burst)
        (beginning options.format (D.port ports.old.a) (D.port ports.old.b) (D.port ports.old.requests) arbiter.old)
        (K.live sink.old) (K.held sink.old) (K.held sink.new)
        (IsInNextTurn (D.port ports.new.a) (D.port ports.new.b))) }
    ensures sinks { CountsSinks (K.failed sink.old) (K.failed sink.new) (E.failed errors.old) (E.failed errors.new)
        result }
    ensures lines { options.format ≡ Lines →
        (errors.new ≡ errors.old) × CountsSink (K.failed sink.old) (K.failed sink.new) result }
{
    let ListenPorts { a, b, requests } = ports;
    let ListenOptions {
        server,
        burst,
        turns,
        reporting,
        format,
    } = options;
    listen_loop(
        alloc, a, b, requests, server, arbiter, burst, turns, reporting, format, sink, errors,
    )
}
