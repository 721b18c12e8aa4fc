//! Laws about the definitions that the contracts of the publishing, serving and listening loops cite. Each law is a
//! function that does nothing; its contract is the theorem.

ghost use Rattle.mold_wire.specs.declared.limits.TheConstants.{MESSAGE_OVERHEAD};
ghost use Rattle.std.specs.Prelude.{◌≡◌, ◌+◌, ◌++◌, ◌≤◌, Bool, List, [], None, Ok, Option, Result, Some, length, map};
ghost use Rattle.std.specs.Prelude.{true, ℕ};
ghost use Rattle.std.specs.Io.KnownBytes.{Appends};
ghost use Rattle.std.specs.List.{AllByRecursion};
ghost use Rattle.mold_devices.specs.declared.fault.CommandFault.{CommandFault};
ghost use Rattle.mold_feed.specs.Received.{CanReceive, HasFinished, HasListened, IsFed, IsHarmless, PrintsAmong};
ghost use Rattle.mold_feed.specs.Received.{PrintsBlocks, PrintsLines, PrintsMessages, PrintsMessagesAmong, PrintsOpen};
ghost use Rattle.mold_feed.specs.Received.{PrintsToEmpty, ReceivesOnly, WritesToMark, lines_text};
ghost use Rattle.mold_input.specs.Entries.{InputEntries, line_entry};
ghost use Rattle.mold_input.specs.declared.message_format.MessageFormat.{MessageFormat};
ghost use Rattle.mold_input.specs.declared.message_format.MessageFormat.TheVariants.{Blocks, BlocksToEmpty, Lines};
ghost use Rattle.mold_listen.specs.Listening.{Agrees, ListenerState, beginning, is_finished, listened_lines, listening};
ghost use Rattle.mold_listen.specs.Listening.{status};
ghost use Rattle.mold_send.specs.PublishLoop.{PublishRun, all_datagrams, left_journal};
ghost use Rattle.mold_turns.specs.Runs.{Ran, run};
ghost use Rattle.mold_feed.specs.Sent.{AllSent, HasMessages, HasMessagesBefore, IsOpening, IsSent, blocks_input};
ghost use Rattle.mold_feed.specs.Sent.{lines_input, to_empty_input};
ghost use Rattle.mold_serve.specs.Serving.{ResponderState, Service, serving};
ghost use Rattle.mold_listen.specs.Text.{handed_text, printable};
ghost use Rattle.mold_ports.specs.Ports.{Port};
ghost use Rattle.mold_publish.specs.Publishing.{input_published, lines_published};
ghost use Rattle.mold_publish.specs.declared.message_refusal.MessageRefusal.{MessageRefusal};
ghost use Rattle.mold_receiver.specs.Arbiter.{Arbitration};
ghost use Rattle.mold_receiver.specs.Honest.{IsHonest};
ghost use Rattle.mold_receiver.specs.Store.{Message};
ghost use Rattle.mold_receiver.specs.View.{fresh};
ghost use Rattle.mold_session.specs.Answer.{between};
ghost use Rattle.mold_session.specs.Journal.{JournalState};
ghost use Rattle.mold_session.specs.Truthful.{MayAnswer, IsTrueDatagram};
ghost use Rattle.mold_wire.specs.Block.{IsBytes, blocks};
ghost use Rattle.mold_wire.specs.Packer.{IsLimit};

use mold_input::laws::{blocks_law, blocks_to_empty_law};
use mold_ports::Datagrams;
use mold_publish::laws::lines_published_law;
use mold_receiver::laws::{honest_stays_law, honest_take_law, taken_law};
use mold_session::laws::{answered_law, publisher_law, sending_law};
use mold_wire::laws::reading_law;

/// States that every datagram offered by a publisher is true of the journal that it leaves, even if an entry of its
/// input is refused. If all datagrams that its port sent before publishing are true of this journal, so are those that
/// it sends while publishing, even if publishing ends with a fault.
///
/// If no entry is refused, the journal is closed and has the messages of the entries. Otherwise it is open and has
/// those of the entries before the refused one. A server may respond from it if the server's datagrams have room for
/// the journal's longest message.
pub fn published_law<D: Datagrams>()
    ensures offered { (beats ends limit : ℕ) (journal : JournalState) (input : InputEntries) →
        IsOpening journal limit → AllByRecursion (IsTrueDatagram (left_journal (input_published journal input)))
        (all_datagrams limit beats ends (input_published journal input)) }
    ensures sent { (a b : D.Peer) (beats ends limit : ℕ) (journal : JournalState) (input : InputEntries)
        (result : Result ℕ CommandFault) (before after : Port D.Peer)
        (text_old text_new file_old file_new : Option (List ℕ)) → IsOpening journal limit →
        PublishRun a b beats ends limit (input_published journal input) result before after
        text_old text_new file_old file_new →
        AllSent (IsTrueDatagram (left_journal (input_published journal input))) before.sent →
        AllSent (IsTrueDatagram (left_journal (input_published journal input))) after.sent }
    ensures messages { (limit : ℕ) (journal : JournalState) (input : InputEntries) → IsOpening journal limit →
        (input_published journal input).refused ≡ None →
        HasMessages input.entries (left_journal (input_published journal input)) }
    ensures before { (limit : ℕ) (journal : JournalState) (input : InputEntries) (why : MessageRefusal) →
        IsOpening journal limit → (input_published journal input).refused ≡ Some why →
        HasMessagesBefore input why (input_published journal input).journal }
    ensures answers { (limit other : ℕ) (journal : JournalState) (input : InputEntries) → IsOpening journal limit →
        IsLimit other → journal.max_message + MESSAGE_OVERHEAD ≤ other →
        MayAnswer (left_journal (input_published journal input)) other }
{
    publisher_law();
    sending_law();
}

/// States that everything a server sends is true of the journal that it answers from. This holds for every request and
/// for every choice of which sends fail, if everything that the port sent earlier is true of the journal.
pub fn served_law<D: Datagrams>()
    ensures { (service : Service) (choices : List (List Bool)) (start : ResponderState D.Peer) →
        MayAnswer service.journal service.limit → AllSent (IsTrueDatagram service.journal) start.port.sent →
        AllSent (IsTrueDatagram service.journal) (run (serving service) choices start).port.sent }
{
    answered_law();
    sending_law();
}

/// States that a datagram which is fed is harmless: it was sent by the publisher of the input or by one of its servers,
/// or does not encode a packet of the session. So it is true of the journal that the publisher leaves, or does not
/// encode a packet of the journal's session.
pub fn fed_law<D: Datagrams>()
    ensures { (limit : ℕ) (journal : JournalState) (input : InputEntries) (bytes : List ℕ) →
        IsOpening journal limit → IsFed D.Peer journal limit input bytes →
        IsHarmless (left_journal (input_published journal input)) bytes }
{
    published_law::<D>();
    served_law::<D>();
}

/// States what an honest listener prints. Its ports give only datagrams that are true of the session, and bytes that
/// do not encode a packet of the session. The law holds for any burst, any number of turns and any choice of which
/// sends fail.
///
/// - The listener stays honest. The messages that it prints have consecutive numbers from its first `next` on, and are
///   the published ones. In the format `BlocksToEmpty` it prints those before the first empty one.
/// - What it refuses was received, and does not encode a packet of the session.
/// - If all that its ports give is true of the session, it prints only messages.
/// - If it has finished, it printed all messages up to the end of the session.
pub fn listened_law<D: Datagrams>()
    ensures received { (journal : JournalState) (server : D.Peer) (burst : ℕ) (choices : List Bool)
        (start : ListenerState D.Peer) → IsHonest start.progress.arbitration.view journal.messages journal.closed →
        start.progress.arbitration.view.session ≡ journal.session → ReceivesOnly (IsHarmless journal) start →
        HasListened start.progress.outgoing.format journal (CanReceive start) start.progress.arbitration.view.next
        start.progress.outgoing.stopped start.progress.outgoing.text
        (run (listening server burst) choices start).progress }
    ensures plain { (journal : JournalState) (server : D.Peer) (burst : ℕ) (choices : List Bool)
        (start : ListenerState D.Peer) → IsHonest start.progress.arbitration.view journal.messages journal.closed →
        start.progress.arbitration.view.session ≡ journal.session → ReceivesOnly (IsTrueDatagram journal) start →
        (run (listening server burst) choices start).progress.outgoing.text
        ≡ start.progress.outgoing.text
        ++ handed_text start.progress.outgoing.format start.progress.arbitration.view.next
        (printable start.progress.outgoing.format start.progress.outgoing.stopped
        (between journal.messages start.progress.arbitration.view.next
        (run (listening server burst) choices start).progress.arbitration.view.next)) }
    ensures finished { (journal : JournalState) (server : D.Peer) (burst : ℕ) (choices : List Bool)
        (start : ListenerState D.Peer) → IsHonest start.progress.arbitration.view journal.messages journal.closed →
        start.progress.arbitration.view.session ≡ journal.session → ReceivesOnly (IsHarmless journal) start →
        is_finished (run (listening server burst) choices start).progress ≡ true →
        HasFinished journal (run (listening server burst) choices start).progress }
{
    honest_take_law();
    taken_law();
    reading_law();
}

/// States what a listener prints for messages. As blocks, these are the blocks of the messages. As lines, these are the
/// lines of an input that has these messages, each after its number and with its digits in lower case.
pub fn printed_law()
    ensures blocks { (number : ℕ) (messages : List Message) → handed_text Blocks number messages ≡ blocks messages }
    ensures lines { (number : ℕ) (lines : List (List ℕ)) (messages : List Message) →
        map line_entry lines ≡ map Ok messages → handed_text Lines number messages ≡ lines_text number lines }
    ensures between { (first next : ℕ) (lines : List (List ℕ)) (messages : List Message) →
        map line_entry lines ≡ map Ok messages →
        handed_text Lines first (between messages first next) ≡ lines_text first (between lines first next) }
{}

/// States that a listener prints the messages that were published. The messages of an input are published into a new
/// session, up to the first entry that is refused. Any number of servers answer from copies of the journal that the
/// publisher left. A listener starts at a published message or at the number after the last one. All datagrams of the
/// session that its ports give were sent by the publisher or the servers. Each of these may come any number of times,
/// in any order, or never. The input may have lines or blocks, and so may the listener's output.
///
/// - The listener prints the published messages from its first one on. With status 0 it printed all of them, and no
///   entry was refused.
/// - If its ports also give bytes that do not encode a packet of the session, the same holds for its text of messages.
///   Blocks are then the whole text.
/// - In the format `BlocksToEmpty` an empty block follows all messages if the status is 0, and no other block is empty.
///   If a delivered message is empty, the listener prints the messages before it, and the status is 2.
/// - Reports of lines A and B are printed only if they were requested, and only just before the last line.
pub fn session_law<D: Datagrams>()
    ensures printed { (format : MessageFormat) (reporting : Bool) (limit first window turns burst : ℕ)
        (journal : JournalState) (input : InputEntries) (server : D.Peer) (a b requests : Port D.Peer)
        (arbitration : Arbitration) (a_left b_left requests_left : Port D.Peer) (left : Arbitration)
        (result : Result ℕ CommandFault) (old new : Option (List ℕ)) (sent : List (D.Peer × List ℕ)) →
        IsOpening journal limit → 1 ≤ first →
        first ≤ length (left_journal (input_published journal input)).messages + 1 →
        arbitration.view ≡ fresh journal.session first window →
        ReceivesOnly (IsSent D.Peer journal limit input) (beginning format a b requests arbitration) →
        Ran (listening server burst) turns (beginning format a b requests arbitration) (listened_lines reporting) status
        (Agrees a_left b_left requests_left left) result old new sent →
        PrintsMessages format reporting (left_journal (input_published journal input)) first result old new }
    ensures among { (format : MessageFormat) (reporting : Bool) (limit first window turns burst : ℕ)
        (journal : JournalState) (input : InputEntries) (server : D.Peer) (a b requests : Port D.Peer)
        (arbitration : Arbitration) (a_left b_left requests_left : Port D.Peer) (left : Arbitration)
        (result : Result ℕ CommandFault) (old new : Option (List ℕ)) (sent : List (D.Peer × List ℕ)) →
        IsOpening journal limit → 1 ≤ first →
        first ≤ length (left_journal (input_published journal input)).messages + 1 →
        arbitration.view ≡ fresh journal.session first window →
        ReceivesOnly (IsFed D.Peer journal limit input) (beginning format a b requests arbitration) →
        Ran (listening server burst) turns (beginning format a b requests arbitration) (listened_lines reporting) status
        (Agrees a_left b_left requests_left left) result old new sent →
        PrintsMessagesAmong format reporting (CanReceive (beginning format a b requests arbitration))
        (left_journal (input_published journal input)) first result old new }
    ensures blocks { (reporting : Bool) (limit first window turns burst : ℕ) (journal : JournalState)
        (input : InputEntries) (server : D.Peer) (a b requests : Port D.Peer) (arbitration : Arbitration)
        (a_left b_left requests_left : Port D.Peer) (left : Arbitration) (result : Result ℕ CommandFault)
        (old new : Option (List ℕ)) (sent : List (D.Peer × List ℕ)) → IsOpening journal limit → 1 ≤ first →
        first ≤ length (left_journal (input_published journal input)).messages + 1 →
        arbitration.view ≡ fresh journal.session first window →
        ReceivesOnly (IsFed D.Peer journal limit input) (beginning Blocks a b requests arbitration) →
        Ran (listening server burst) turns (beginning Blocks a b requests arbitration) (listened_lines reporting) status
        (Agrees a_left b_left requests_left left) result old new sent →
        PrintsBlocks (left_journal (input_published journal input)) first result old new }
    ensures to_empty { (reporting : Bool) (limit first window turns burst : ℕ) (journal : JournalState)
        (input : InputEntries) (server : D.Peer) (a b requests : Port D.Peer) (arbitration : Arbitration)
        (a_left b_left requests_left : Port D.Peer) (left : Arbitration) (result : Result ℕ CommandFault)
        (old new : Option (List ℕ)) (sent : List (D.Peer × List ℕ)) → IsOpening journal limit → 1 ≤ first →
        first ≤ length (left_journal (input_published journal input)).messages + 1 →
        arbitration.view ≡ fresh journal.session first window →
        ReceivesOnly (IsFed D.Peer journal limit input) (beginning BlocksToEmpty a b requests arbitration) →
        Ran (listening server burst) turns (beginning BlocksToEmpty a b requests arbitration) (listened_lines reporting)
        status (Agrees a_left b_left requests_left left) result old new sent →
        PrintsToEmpty (left_journal (input_published journal input)) first result old new }
{
    published_law::<D>();
    served_law::<D>();
    listened_law::<D>();
    honest_stays_law();
}

/// States that a listener prints the lines that were published, as `session_law` does for the messages of any input.
/// The input has lines, and the listener prints lines.
///
/// - If no line is refused, the listener prints the published lines from its first one on, each after its number. With
///   status 0 it printed all of them.
/// - If its ports also give bytes that do not encode a packet of the session, the same holds for its lines of
///   messages.
/// - If a line is refused, the listener prints only lines before that one, and its status is 1.
pub fn session_lines_law<D: Datagrams>()
    ensures printed { (reporting : Bool) (limit first window turns burst : ℕ) (journal : JournalState)
        (lines : List (List ℕ)) (server : D.Peer) (a b requests : Port D.Peer) (arbitration : Arbitration)
        (a_left b_left requests_left : Port D.Peer) (left : Arbitration) (result : Result ℕ CommandFault)
        (old new : Option (List ℕ)) (sent : List (D.Peer × List ℕ)) → IsOpening journal limit →
        (lines_published journal lines).refused ≡ None →
        1 ≤ first → first ≤ length lines + 1 → arbitration.view ≡ fresh journal.session first window →
        ReceivesOnly (IsSent D.Peer journal limit (lines_input lines)) (beginning Lines a b requests arbitration) →
        Ran (listening server burst) turns (beginning Lines a b requests arbitration) (listened_lines reporting) status
        (Agrees a_left b_left requests_left left) result old new sent →
        PrintsLines reporting lines first result old new }
    ensures among { (reporting : Bool) (limit first window turns burst : ℕ) (journal : JournalState)
        (lines : List (List ℕ)) (server : D.Peer) (a b requests : Port D.Peer) (arbitration : Arbitration)
        (a_left b_left requests_left : Port D.Peer) (left : Arbitration) (result : Result ℕ CommandFault)
        (old new : Option (List ℕ)) (sent : List (D.Peer × List ℕ)) → IsOpening journal limit →
        (lines_published journal lines).refused ≡ None →
        1 ≤ first → first ≤ length lines + 1 → arbitration.view ≡ fresh journal.session first window →
        ReceivesOnly (IsFed D.Peer journal limit (lines_input lines)) (beginning Lines a b requests arbitration) →
        Ran (listening server burst) turns (beginning Lines a b requests arbitration) (listened_lines reporting) status
        (Agrees a_left b_left requests_left left) result old new sent →
        PrintsAmong reporting journal.session (CanReceive (beginning Lines a b requests arbitration))
        lines first result old new }
    ensures refused { (reporting : Bool) (limit first window turns burst : ℕ) (journal : JournalState)
        (lines : List (List ℕ)) (why : MessageRefusal) (server : D.Peer) (a b requests : Port D.Peer)
        (arbitration : Arbitration) (a_left b_left requests_left : Port D.Peer) (left : Arbitration)
        (result : Result ℕ CommandFault) (old new : Option (List ℕ)) (sent : List (D.Peer × List ℕ)) →
        IsOpening journal limit → (lines_published journal lines).refused ≡ Some why →
        1 ≤ first → first ≤ length (lines_published journal lines).journal.messages + 1 →
        arbitration.view ≡ fresh journal.session first window →
        ReceivesOnly (IsSent D.Peer journal limit (lines_input lines)) (beginning Lines a b requests arbitration) →
        Ran (listening server burst) turns (beginning Lines a b requests arbitration) (listened_lines reporting) status
        (Agrees a_left b_left requests_left left) result old new sent →
        PrintsOpen reporting lines (length (lines_published journal lines).journal.messages + 1) first result old new }
{
    session_law::<D>();
    published_law::<D>();
    lines_published_law();
}

/// States that a listener with status 0 has written exactly the bytes that the publisher read, if both its output and
/// the publisher's input are message blocks. The listener starts at message 1. All datagrams of the session that its
/// ports give were sent by the publisher or its servers. The ports may also give bytes that do not encode a packet of
/// the session. A publisher that refused a block leaves the session open, so no listener then has status 0.
///
/// `marked` states the same with `--end-at-empty` on both sides. Then the listener has written the bytes that the
/// publisher read: those up to its first empty block, and that block.
pub fn same_bytes_law<D: Datagrams>()
    ensures same { (reporting : Bool) (limit window turns burst : ℕ) (journal : JournalState) (input : List ℕ)
        (server : D.Peer) (a b requests : Port D.Peer) (arbitration : Arbitration)
        (a_left b_left requests_left : Port D.Peer) (left : Arbitration) (result : Result ℕ CommandFault)
        (old new : Option (List ℕ)) (sent : List (D.Peer × List ℕ)) → IsOpening journal limit → IsBytes input →
        arbitration.view ≡ fresh journal.session 1 window →
        ReceivesOnly (IsFed D.Peer journal limit (blocks_input input)) (beginning Blocks a b requests arbitration) →
        Ran (listening server burst) turns (beginning Blocks a b requests arbitration) (listened_lines reporting) status
        (Agrees a_left b_left requests_left left) result old new sent →
        result ≡ Ok 0 → Appends old new input }
    ensures marked { (reporting : Bool) (limit window turns burst : ℕ) (journal : JournalState) (input : List ℕ)
        (server : D.Peer) (a b requests : Port D.Peer) (arbitration : Arbitration)
        (a_left b_left requests_left : Port D.Peer) (left : Arbitration) (result : Result ℕ CommandFault)
        (old new : Option (List ℕ)) (sent : List (D.Peer × List ℕ)) → IsOpening journal limit →
        IsBytes input → arbitration.view ≡ fresh journal.session 1 window →
        ReceivesOnly (IsFed D.Peer journal limit (to_empty_input input))
        (beginning BlocksToEmpty a b requests arbitration) →
        Ran (listening server burst) turns (beginning BlocksToEmpty a b requests arbitration) (listened_lines reporting)
        status (Agrees a_left b_left requests_left left) result old new sent →
        result ≡ Ok 0 → WritesToMark input old new }
{
    session_law::<D>();
    published_law::<D>();
    blocks_law();
    blocks_to_empty_law();
}
