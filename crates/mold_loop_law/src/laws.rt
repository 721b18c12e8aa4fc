//! The law of the loop in one process, over the definitions of its contract. A law is a function that does nothing: its
//! contract is a theorem.

ghost use Rattle.std.specs.Prelude.{◌≡◌, ◌+◌, ◌≤◌, Bool, List, [], None, Ok, Option, Result, Some, length, ℕ};
ghost use Rattle.std.specs.Io.KnownBytes.{Appends};
ghost use Rattle.mold_devices.specs.declared.fault.CommandFault.{CommandFault};
ghost use Rattle.mold_feed.specs.Received.{PrintsLines, PrintsMessages, PrintsMessagesRefused, PrintsRefused};
ghost use Rattle.mold_feed.specs.Received.{PrintsToEmpty, WritesToMark};
ghost use Rattle.mold_feed.specs.Sent.{IsOpening, blocks_input, to_empty_input};
ghost use Rattle.mold_input.specs.Entries.{InputEntries};
ghost use Rattle.mold_input.specs.declared.message_format.MessageFormat.{MessageFormat};
ghost use Rattle.mold_input.specs.declared.message_format.MessageFormat.TheVariants.{Blocks, BlocksToEmpty, Lines};
ghost use Rattle.mold_loop.specs.Looping.{LineState, LoopRun};
ghost use Rattle.mold_loop.specs.Repairing.{RepairState};
ghost use Rattle.mold_loop.specs.declared.loop_parts.Drops.{Drops};
ghost use Rattle.mold_loop_law.specs.Own.{OwnPorts};
ghost use Rattle.mold_publish.specs.Publishing.{input_published, lines_published};
ghost use Rattle.mold_publish.specs.declared.message_refusal.MessageRefusal.{MessageRefusal};
ghost use Rattle.mold_receiver.specs.View.{fresh};
ghost use Rattle.mold_session.specs.Journal.{JournalState};
ghost use Rattle.mold_send.specs.PublishLoop.{left_journal};
ghost use Rattle.mold_session.specs.Server.{IsServer, ServerState};
ghost use Rattle.mold_wire.specs.Block.{IsBytes};

use mold_feed::laws::{published_law, served_law};
use mold_input::laws::{blocks_law, blocks_to_empty_law};
use mold_ports::Datagrams;
use mold_publish::laws::lines_published_law;
use mold_receiver::laws::{honest_stays_law, honest_take_law, taken_law};
use mold_wire::laws::reading_law;

/// Relates the messages that a loop in one process publishes to what it prints.
///
/// The session and the listener are new. The listener starts at a message that will be published, or at the number
/// after the last one. The ports may lose, repeat and reorder datagrams, but give only what the loop itself sent
/// (`OwnPorts`).
///
/// - `messages`: no entry of the input is refused, and the server's maximum message length is at least the journal's.
///   The loop prints published messages in order from the start on, in the listener's format. With status 0 it has
///   printed all of them.
/// - `same_bytes`: the input is blocks, and the listener prints blocks from message 1 on. With status 0 the loop has
///   written exactly the bytes of its input.
/// - `marked`: as `same_bytes`, if the input and the output end at an empty block. With status 0 the loop has written
///   the bytes of its input up to its first empty block, and that block.
/// - `to_empty`: as `messages`, for a listener that prints blocks up to an empty one. With status 0 an empty block
///   follows the blocks of all messages, and none of these is empty. If a delivered message is empty, the loop prints
///   the messages before it, and the status is 2.
/// - `stopped`: an entry is refused, so no request is made. The loop prints messages before the refused entry. Among
///   lines, the refusal follows on standard output.
/// - `printed`: as `messages`, for an input of lines and a listener that prints lines. The loop prints the published
///   lines, each after its number.
/// - `refused`: as `stopped`, for such an input and listener. The loop prints lines before the refused one, and then
///   the refusal.
///
/// After a fault, the text written is a prefix of such a text. The reports of the two lines are printed only if
/// `reporting` is set, and only before the last line.
pub fn loop_law<D: Datagrams>()
    ensures messages { (format : MessageFormat) (reporting : Bool) (drops : Drops) (a b to : D.Peer)
        (turns limit first window : ℕ) (journal : JournalState) (input : InputEntries) (server : ServerState)
        (start start_left : LineState D.Peer) (rounds rounds_left : RepairState D.Peer)
        (result : Result ℕ CommandFault) (old new errors_old errors_new : Option (List ℕ)) →
        IsOpening journal limit → (input_published journal input).refused ≡ None →
        IsServer server → journal.max_message ≤ server.max_message → 1 ≤ first →
        first ≤ length (left_journal (input_published journal input)).messages + 1 →
        start.progress.arbitration.view ≡ fresh journal.session first window →
        start.progress.outgoing.text ≡ [] → start.progress.outgoing.format ≡ format →
        start.progress.outgoing.stopped ≡ None →
        OwnPorts start start_left rounds rounds_left →
        LoopRun reporting drops a b to turns limit 0 (input_published journal input) server start rounds result old new
        errors_old errors_new start_left rounds_left →
        PrintsMessages format reporting (left_journal (input_published journal input)) first result old new }
    ensures same_bytes { (reporting : Bool) (drops : Drops) (a b to : D.Peer) (turns limit window : ℕ)
        (journal : JournalState) (input : List ℕ) (server : ServerState) (start start_left : LineState D.Peer)
        (rounds rounds_left : RepairState D.Peer) (result : Result ℕ CommandFault)
        (old new errors_old errors_new : Option (List ℕ)) →
        IsOpening journal limit → IsBytes input → IsServer server → journal.max_message ≤ server.max_message →
        start.progress.arbitration.view ≡ fresh journal.session 1 window →
        start.progress.outgoing.text ≡ [] → start.progress.outgoing.format ≡ Blocks →
        start.progress.outgoing.stopped ≡ None →
        OwnPorts start start_left rounds rounds_left →
        LoopRun reporting drops a b to turns limit 0 (input_published journal (blocks_input input)) server start rounds
        result old new errors_old errors_new start_left rounds_left → result ≡ Ok 0 → Appends old new input }
    ensures marked { (reporting : Bool) (drops : Drops) (a b to : D.Peer) (turns limit window : ℕ)
        (journal : JournalState) (input : List ℕ) (server : ServerState) (start start_left : LineState D.Peer)
        (rounds rounds_left : RepairState D.Peer) (result : Result ℕ CommandFault)
        (old new errors_old errors_new : Option (List ℕ)) →
        IsOpening journal limit → IsBytes input → IsServer server → journal.max_message ≤ server.max_message →
        start.progress.arbitration.view ≡ fresh journal.session 1 window →
        start.progress.outgoing.text ≡ [] → start.progress.outgoing.format ≡ BlocksToEmpty →
        start.progress.outgoing.stopped ≡ None →
        OwnPorts start start_left rounds rounds_left →
        LoopRun reporting drops a b to turns limit 0 (input_published journal (to_empty_input input)) server start rounds
        result old new errors_old errors_new start_left rounds_left → result ≡ Ok 0 → WritesToMark input old new }
    ensures to_empty { (reporting : Bool) (drops : Drops) (a b to : D.Peer) (turns limit first window : ℕ)
        (journal : JournalState) (input : InputEntries) (server : ServerState) (start start_left : LineState D.Peer)
        (rounds rounds_left : RepairState D.Peer) (result : Result ℕ CommandFault)
        (old new errors_old errors_new : Option (List ℕ)) →
        IsOpening journal limit → (input_published journal input).refused ≡ None →
        IsServer server → journal.max_message ≤ server.max_message → 1 ≤ first →
        first ≤ length (left_journal (input_published journal input)).messages + 1 →
        start.progress.arbitration.view ≡ fresh journal.session first window →
        start.progress.outgoing.text ≡ [] → start.progress.outgoing.format ≡ BlocksToEmpty →
        start.progress.outgoing.stopped ≡ None →
        OwnPorts start start_left rounds rounds_left →
        LoopRun reporting drops a b to turns limit 0 (input_published journal input) server start rounds result old new
        errors_old errors_new start_left rounds_left →
        PrintsToEmpty (left_journal (input_published journal input)) first result old new }
    ensures stopped { (format : MessageFormat) (reporting : Bool) (drops : Drops) (a b to : D.Peer)
        (turns limit first window : ℕ) (journal : JournalState) (input : InputEntries) (why : MessageRefusal)
        (server : ServerState) (start start_left : LineState D.Peer) (rounds rounds_left : RepairState D.Peer)
        (result : Result ℕ CommandFault) (old new errors_old errors_new : Option (List ℕ)) →
        IsOpening journal limit → (input_published journal input).refused ≡ Some why →
        1 ≤ first → first ≤ length (input_published journal input).journal.messages + 1 →
        start.progress.arbitration.view ≡ fresh journal.session first window →
        start.progress.outgoing.text ≡ [] → start.progress.outgoing.format ≡ format →
        start.progress.outgoing.stopped ≡ None →
        OwnPorts start start_left rounds rounds_left →
        LoopRun reporting drops a b to turns limit 0 (input_published journal input) server start rounds result old new
        errors_old errors_new start_left rounds_left →
        PrintsMessagesRefused format (input_published journal input).journal.messages why first result old new }
    ensures printed { (reporting : Bool) (drops : Drops) (a b to : D.Peer) (turns limit first window : ℕ)
        (journal : JournalState) (lines : List (List ℕ)) (server : ServerState) (start start_left : LineState D.Peer)
        (rounds rounds_left : RepairState D.Peer) (result : Result ℕ CommandFault)
        (old new errors_old errors_new : Option (List ℕ)) →
        IsOpening journal limit → (lines_published journal lines).refused ≡ None →
        IsServer server → journal.max_message ≤ server.max_message →
        1 ≤ first → first ≤ length lines + 1 → start.progress.arbitration.view ≡ fresh journal.session first window →
        start.progress.outgoing.text ≡ [] → start.progress.outgoing.format ≡ Lines →
        start.progress.outgoing.stopped ≡ None →
        OwnPorts start start_left rounds rounds_left →
        LoopRun reporting drops a b to turns limit 0 (lines_published journal lines) server start rounds result old new
        errors_old errors_new start_left rounds_left → PrintsLines reporting lines first result old new }
    ensures refused { (reporting : Bool) (drops : Drops) (a b to : D.Peer) (turns limit first window : ℕ)
        (journal : JournalState) (lines : List (List ℕ)) (why : MessageRefusal) (server : ServerState)
        (start start_left : LineState D.Peer) (rounds rounds_left : RepairState D.Peer)
        (result : Result ℕ CommandFault) (old new errors_old errors_new : Option (List ℕ)) →
        IsOpening journal limit → (lines_published journal lines).refused ≡ Some why →
        1 ≤ first → first ≤ length (lines_published journal lines).journal.messages + 1 →
        start.progress.arbitration.view ≡ fresh journal.session first window →
        start.progress.outgoing.text ≡ [] → start.progress.outgoing.format ≡ Lines →
        start.progress.outgoing.stopped ≡ None →
        OwnPorts start start_left rounds rounds_left →
        LoopRun reporting drops a b to turns limit 0 (lines_published journal lines) server start rounds result old new
        errors_old errors_new start_left rounds_left →
        PrintsRefused lines (length (lines_published journal lines).journal.messages + 1) why first result old new }
{
    published_law::<D>();
    served_law::<D>();
    lines_published_law();
    blocks_law();
    blocks_to_empty_law();
    honest_stays_law();
    honest_take_law();
    taken_law();
    reading_law();
}
