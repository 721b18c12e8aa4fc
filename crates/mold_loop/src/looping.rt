//! The loop over any ports, source and sink.

ghost use Rattle.std.specs.Prelude.{◌≡◌, ◌≤◌, ◌++◌, true, IfErr, IfOk, IfSome, OnOk};
ghost use Rattle.std.specs.Io.KnownBytes.{Appends};
ghost use Rattle.mold_devices.specs.Devices.{AppendsPrefix};
ghost use Rattle.mold_devices.specs.Faults.{CountsCommand};
ghost use Rattle.mold_input.specs.Entries.{known_input};
ghost use Rattle.mold_listen.specs.Listening.{last_lines, last_side, listener_status, progress};
ghost use Rattle.mold_loop.specs.Looping.{LoopRun, lines_at};
ghost use Rattle.mold_loop.specs.Writing.{CountsLoop, HasWritten, IsPlain, IsQuiet};
ghost use Rattle.mold_turns.specs.Outgoing.{IsBounded, note_side, note_text};
ghost use Rattle.mold_turns.specs.Sides.{CountsSinks};
ghost use Rattle.mold_loop.specs.Passing.{LoopSends};
ghost use Rattle.mold_send.specs.PublishLoop.{left_journal};
ghost use Rattle.mold_loop.specs.Repairing.{rounds_at};
ghost use Rattle.mold_publish.specs.Publishing.{HasRoom, input_published, refused_text};

use crate::local_feed::LocalFeed;
use crate::loop_parts::{Listener, LoopOptions, LoopParts, LoopPorts};
use crate::writing::{push_refused, write_all};
use mold_devices::{CommandFault, Sink, Source};
use mold_input::MessageReader;
use mold_listen::push_end;
use mold_ports::Datagrams;
use mold_publish::MessageRefusal;
use mold_turns::Outgoing;
use mold_wire::MAX_LIMIT;

// Prints the text that is still unwritten, and then why the entry `number` is refused: after lines on standard output,
// otherwise on standard error. Returns the status. If memory runs out, the unwritten text for standard output is
// written.
pub(crate) fn print_refused<K: Sink, E: Sink>(
    outgoing: &mut Outgoing,
    number: u64,
    refusal: MessageRefusal,
    sink: &mut K,
    errors: &mut E,
) -> Result<u8, CommandFault>
    ensures whole { IfOk result (λ status. Appends (K.held sink.old) (K.held sink.new)
        (outgoing.old.text ++ note_text outgoing.old.format (refused_text number refusal)) × (status ≡ 2)) }
    ensures front { AppendsPrefix (K.held sink.old) (K.held sink.new)
        (outgoing.old.text ++ note_text outgoing.old.format (refused_text number refusal)) }
    ensures said { OnOk result (Appends (E.held errors.old) (E.held errors.new)
        (outgoing.old.side ++ note_side outgoing.old.format (refused_text number refusal))) }
    ensures said_front { AppendsPrefix (E.held errors.old) (E.held errors.new)
        (outgoing.old.side ++ note_side outgoing.old.format (refused_text number refusal)) }
    ensures left { OnOk result (HasWritten outgoing.old outgoing.new) }
    ensures kept { IfErr result (λ fault. fault ≡ CommandFault.Memory →
        Appends (K.held sink.old) (K.held sink.new) outgoing.old.text) }
    ensures sinks { CountsSinks (K.failed sink.old) (K.failed sink.new) (E.failed errors.old) (E.failed errors.new)
        result }
    ensures quiet { IsPlain outgoing.old →
        IsQuiet (K.failed sink.old) (K.failed sink.new) errors.old errors.new result }
{
    let told = outgoing.unwritten();
    let Ok(()) = push_refused(outgoing, number, refusal) else {
        return Err(outgoing.end_with(told, CommandFault::Memory, sink));
    };
    write_all(outgoing, sink, errors)?;
    Ok(2)
}

// Prints the text that is still unwritten and the listener's last line, preceded by the reports of its lines if
// `reporting`. After blocks, these lines are printed on standard error. Returns the status. If memory runs out, the
// unwritten text for standard output is written.
pub(crate) fn print_last<K: Sink, E: Sink>(
    listener: &mut Listener,
    reporting: bool,
    sink: &mut K,
    errors: &mut E,
) -> Result<u8, CommandFault>
    requires { IsBounded (K.live sink.old) listener.old.printer.outgoing.text }
    ensures whole { IfOk result (λ status. Appends (K.held sink.old) (K.held sink.new)
        (listener.old.printer.outgoing.text
        ++ last_lines reporting (progress listener.old.arbiter listener.old.printer.outgoing))
        × (status ≡ listener_status (progress listener.old.arbiter listener.old.printer.outgoing))) }
    ensures front { AppendsPrefix (K.held sink.old) (K.held sink.new)
        (listener.old.printer.outgoing.text
        ++ last_lines reporting (progress listener.old.arbiter listener.old.printer.outgoing)) }
    ensures said { OnOk result (Appends (E.held errors.old) (E.held errors.new)
        (listener.old.printer.outgoing.side
        ++ last_side reporting (progress listener.old.arbiter listener.old.printer.outgoing))) }
    ensures said_front { AppendsPrefix (E.held errors.old) (E.held errors.new)
        (listener.old.printer.outgoing.side
        ++ last_side reporting (progress listener.old.arbiter listener.old.printer.outgoing)) }
    ensures left { OnOk result (HasWritten listener.old.printer.outgoing listener.new.printer.outgoing) }
    ensures arbiter { listener.new.arbiter ≡ listener.old.arbiter }
    ensures kept { IfErr result (λ fault. fault ≡ CommandFault.Memory →
        Appends (K.held sink.old) (K.held sink.new) listener.old.printer.outgoing.text) }
    ensures sinks { CountsSinks (K.failed sink.old) (K.failed sink.new) (E.failed errors.old) (E.failed errors.new)
        result }
    ensures quiet { IsPlain listener.old.printer.outgoing →
        IsQuiet (K.failed sink.old) (K.failed sink.new) errors.old errors.new result }
{
    let Listener { arbiter, printer } = listener;
    let outgoing = &mut printer.outgoing;
    let told = outgoing.unwritten();
    let Ok(status) = push_end(arbiter, reporting, outgoing) else {
        return Err(outgoing.end_with(told, CommandFault::Memory, sink));
    };
    write_all(outgoing, sink, errors)?;
    Ok(status)
}

/// Publishes the messages of the source, and listens to them in the same process. Returns the status.
///
/// - Each datagram is sent on both lines, except where `options.drops` leaves it out. The listener makes one receive
///   on each line where the send succeeded.
/// - After the last message the session is closed, and its end packet is sent on both lines. Then the listener requests
///   the missing messages, in at most `options.turns` rounds.
/// - The text, the last line and the status are those of `mold listen`. If `options.reporting` is set, the reports of
///   both lines precede the last line.
/// - The listener's printer has the format in which messages are printed. In the format `Lines` all text is written to
///   `sink`. Otherwise `sink` gets the blocks and nothing else, and refusals, reports and the last line are written to
///   `errors`.
/// - In the format `BlocksToEmpty` an empty block follows the last message if the status is 0. An empty message cannot be
///   printed then. Neither it nor a later message is printed, but the loop goes on. At its end the line
///   `refused Empty NUMBER` replaces the reports and the last line, and the status is 2.
/// - A refused entry ends the publication. The delivered messages stay printed, and the refusal follows them. There are
///   no reports and no last line, and the status is 2. Of an input of blocks, all messages before the entry are sent.
///   Of an input of lines, the last datagram is not sent.
/// - A failed send or receive is counted. It does not end the loop.
///
/// The publisher may already have messages. Those that it has not sent yet must fit one datagram. They are sent before
/// the messages of the source or together with them. A refused entry is reported with the sequence number that its
/// message would have.
///
/// The publisher's maximum message length must not exceed the server's, so that the server can respond to each request.
///
/// After a fault, the texts written and the datagrams sent are prefixes of those of a complete run. If reading fails or
/// memory runs out, the text for `sink` before that is written first. The ports of the lines send nothing. `Read` is
/// returned only if the source failed, `Write` only if a sink failed.
pub fn session_loop<M: MessageReader, D: Datagrams + Drop, S: Source, K: Sink, E: Sink>(
    ports: &mut LoopPorts<D>,
    options: &LoopOptions<D::Peer>,
    parts: &mut LoopParts,
    source: &mut S,
    sink: &mut K,
    errors: &mut E,
) -> Result<u8, CommandFault>
    requires room { HasRoom parts.old.publisher }
    requires longest { parts.old.publisher.journal.max_message ≤ parts.old.server.max_message }
    ensures sends { D.modeled ≡ true → IfSome (known_input M.input_kind M.entries (S.left source.old)) (λ input.
        LoopSends options.now.drops options.now.peers.a options.now.peers.b
        parts.old.publisher.limit parts.old.publisher.sent
        (input_published parts.old.publisher.journal input) result
        (D.port ports.old.publisher) (D.port ports.new.publisher)) }
    ensures run { D.modeled ≡ true → IfSome (known_input M.input_kind M.entries (S.left source.old)) (λ input.
        LoopRun options.now.reporting options.now.drops options.now.peers.a options.now.peers.b
        options.now.peers.server options.now.turns parts.old.publisher.limit parts.old.publisher.sent
        (input_published parts.old.publisher.journal input) parts.old.server
        (lines_at D.port ports.old parts.old.listener) (rounds_at D.port ports.old parts.old.server parts.old.listener)
        result (K.held sink.old) (K.held sink.new) (E.held errors.old) (E.held errors.new)
        (lines_at D.port ports.new parts.new.listener)
        (rounds_at D.port ports.new parts.new.server parts.new.listener)) }
    ensures a { D.modeled ≡ true → (D.port ports.new.a).sent ≡ (D.port ports.old.a).sent }
    ensures b { D.modeled ≡ true → (D.port ports.new.b).sent ≡ (D.port ports.old.b).sent }
    ensures journal { D.modeled ≡ true → OnOk result (IfSome (known_input M.input_kind M.entries
        (S.left source.old)) (λ input.
        parts.new.publisher.journal ≡ left_journal (input_published parts.old.publisher.journal input))) }
    ensures limit { OnOk result (parts.new.publisher.limit ≡ parts.old.publisher.limit) }
    ensures server { parts.new.server ≡ record parts.old.server { answered = parts.new.server.answered } }
    ensures failures { CountsLoop (S.failed source.old) (S.failed source.new) (K.failed sink.old) (K.failed sink.new)
        (E.failed errors.old) (E.failed errors.new) result }
    ensures lines { IsPlain parts.old.listener.printer.outgoing → (errors.new ≡ errors.old)
        × CountsCommand (S.failed source.old) (S.failed source.new) (K.failed sink.old) (K.failed sink.new) result }
{
    let alloc = parts.alloc;
    let mut buffer = vec![in alloc; 0; MAX_LIMIT]?;
    let LoopParts {
        publisher,
        server,
        listener,
        ..
    } = parts;
    let mut feed = LocalFeed {
        ports,
        options,
        buffer: buffer.as_mut_slice(),
        listener,
        alloc,
    };
    feed.run::<M, S, K, E>(publisher, server, source, sink, errors)
}
