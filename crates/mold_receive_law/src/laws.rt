//! The law of the receiver over ports, over the definitions of its contract. A law is a function that does nothing: its
//! contract is a theorem.

ghost use Rattle.std.specs.Prelude.{◌≡◌, ◌+◌, ◌++◌, ◌≤◌, List, Option, length, true, ℕ};
ghost use Rattle.std.specs.Io.KnownBytes.{Appends};
ghost use Rattle.mold_feed.specs.Received.{WritesToMark};
ghost use Rattle.mold_feed.specs.Sent.{IsOpening, blocks_input, lines_input, to_empty_input};
ghost use Rattle.mold_input.specs.Entries.{InputEntries};
ghost use Rattle.mold_input.specs.declared.message_format.MessageFormat.{MessageFormat};
ghost use Rattle.mold_input.specs.declared.message_format.MessageFormat.TheVariants.{Blocks, BlocksToEmpty, Lines};
ghost use Rattle.mold_port_set.specs.PortSet.{Given, PortSetState};
ghost use Rattle.mold_publish.specs.Publishing.{input_published};
ghost use Rattle.mold_receive.specs.Receiving.{HasBroken, HasEnded, HasStopped, started};
ghost use Rattle.mold_receive_law.specs.Printed.{AreFed, HasPrinted, HasPrintedAll, HasPrintedLines};
ghost use Rattle.mold_receive_law.specs.Printed.{HasPrintedPart, HasPrintedToEmpty};
ghost use Rattle.mold_receiver.specs.Fresh.{IsNew};
ghost use Rattle.mold_repair.specs.Stats.{no_counts};
ghost use Rattle.mold_repair.specs.declared.repairer.Repairer.{Repairer};
ghost use Rattle.mold_send.specs.PublishLoop.{left_journal};
ghost use Rattle.mold_session.specs.Journal.{JournalState};
ghost use Rattle.mold_wire.specs.Block.{IsBytes};

use mold_feed::laws::{fed_law, published_law};
use mold_input::laws::{blocks_law, blocks_to_empty_law};
use mold_ports::Datagrams;
use mold_receiver::laws::{honest_stays_law, taken_law};
use mold_repair::laws::{lost_count_law, safe_law};

/// Relates the messages that are published to what a receiver over ports prints.
///
/// The messages of an input are published into a new session, up to the first entry that is refused. Any number of
/// servers respond from copies of the journal that the publisher left. A new receiver starts at a published message, or
/// at the number after the last one. Each datagram that its ports gave, and each one that it took first (`given`), was
/// sent by the publisher or by a server, or does not encode a packet of the session. A sent datagram may arrive any
/// number of times, in any order, or never.
///
/// - `printed`: the receiver has ended. It printed the published messages from its first one up to some number, in
///   order, and left out exactly the ranges that it gave up. If it prints lines, the line `lost FIRST LAST` is in place
///   of each range. With status 0 it gave up nothing, and has finished.
/// - `all`: the receiver has ended with status 0. It printed all published messages from its first one on, and the
///   session is closed, so no entry was refused. In the format `BlocksToEmpty` it then printed the mark of the end.
/// - `lines`: as `all`, for an input of lines and a receiver that prints lines. It printed all published lines from its
///   first one on, each after its number and with its digits in lower case.
/// - `same_bytes`: the input is blocks, and the receiver prints blocks from message 1 on. With status 0 it has written
///   exactly the bytes of the input.
/// - `marked`: the same with `--end-at-empty` on both sides. With status 0 the receiver has written the bytes that the
///   publisher read: those up to its first empty block, and that block.
/// - `stopped`: the receiver has stopped printing before an empty message. This message was published. The receiver
///   printed the published messages up to it, without those that it gave up.
/// - `broken`: the receiver has ended with a fault. It has written a prefix of a text as in `printed`.
pub fn receive_law<D: Datagrams>()
    ensures printed { (lines : ℕ) (servers : List D.Peer) (format : MessageFormat) (given : List Given)
        (limit first window : ℕ)
        (journal : JournalState) (input : InputEntries) (old new : Repairer) (before after : PortSetState D.Peer)
        (held_old held_new : Option (List ℕ)) (status : ℕ) → IsOpening journal limit → 1 ≤ first →
        first ≤ length (left_journal (input_published journal input)).messages + 1 →
        IsNew old.arbiter.view journal.session first window → old.counts ≡ no_counts →
        AreFed D.Peer journal limit input (given ++ after.given) →
        HasEnded lines servers format true given (started old before) new after held_old held_new status →
        HasPrinted format (left_journal (input_published journal input)) first status held_old held_new }
    ensures all { (lines : ℕ) (servers : List D.Peer) (format : MessageFormat) (given : List Given)
        (limit first window : ℕ)
        (journal : JournalState) (input : InputEntries) (old new : Repairer) (before after : PortSetState D.Peer)
        (held_old held_new : Option (List ℕ)) → IsOpening journal limit → 1 ≤ first →
        first ≤ length (left_journal (input_published journal input)).messages + 1 →
        IsNew old.arbiter.view journal.session first window → old.counts ≡ no_counts →
        AreFed D.Peer journal limit input (given ++ after.given) →
        HasEnded lines servers format true given (started old before) new after held_old held_new 0 →
        HasPrintedAll format (left_journal (input_published journal input)) first held_old held_new }
    ensures lines { (lines : ℕ) (servers : List D.Peer) (given : List Given) (limit first window : ℕ)
        (journal : JournalState)
        (published : List (List ℕ)) (old new : Repairer) (before after : PortSetState D.Peer)
        (held_old held_new : Option (List ℕ)) → IsOpening journal limit → 1 ≤ first →
        first ≤ length (left_journal (input_published journal (lines_input published))).messages + 1 →
        IsNew old.arbiter.view journal.session first window → old.counts ≡ no_counts →
        AreFed D.Peer journal limit (lines_input published) (given ++ after.given) →
        HasEnded lines servers Lines true given (started old before) new after held_old held_new 0 →
        HasPrintedLines published first held_old held_new }
    ensures same_bytes { (lines : ℕ) (servers : List D.Peer) (given : List Given) (limit window : ℕ)
        (journal : JournalState)
        (input : List ℕ) (old new : Repairer) (before after : PortSetState D.Peer)
        (held_old held_new : Option (List ℕ)) → IsOpening journal limit → IsBytes input →
        IsNew old.arbiter.view journal.session 1 window → old.counts ≡ no_counts →
        AreFed D.Peer journal limit (blocks_input input) (given ++ after.given) →
        HasEnded lines servers Blocks true given (started old before) new after held_old held_new 0 →
        Appends held_old held_new input }
    ensures marked { (lines : ℕ) (servers : List D.Peer) (given : List Given) (limit window : ℕ)
        (journal : JournalState)
        (input : List ℕ) (old new : Repairer) (before after : PortSetState D.Peer)
        (held_old held_new : Option (List ℕ)) → IsOpening journal limit → IsBytes input →
        IsNew old.arbiter.view journal.session 1 window → old.counts ≡ no_counts →
        AreFed D.Peer journal limit (to_empty_input input) (given ++ after.given) →
        HasEnded lines servers BlocksToEmpty true given (started old before) new after held_old held_new 0 →
        WritesToMark input held_old held_new }
    ensures stopped { (lines : ℕ) (servers : List D.Peer) (given : List Given) (limit first window : ℕ)
        (journal : JournalState) (input : InputEntries) (old new : Repairer) (before after : PortSetState D.Peer)
        (held_old held_new : Option (List ℕ)) (number : ℕ) → IsOpening journal limit → 1 ≤ first →
        first ≤ length (left_journal (input_published journal input)).messages + 1 →
        IsNew old.arbiter.view journal.session first window → old.counts ≡ no_counts →
        AreFed D.Peer journal limit input (given ++ after.given) →
        HasStopped lines servers BlocksToEmpty true given (started old before) new after held_old held_new number →
        HasPrintedToEmpty (left_journal (input_published journal input)) first number held_old held_new }
    ensures broken { (lines : ℕ) (servers : List D.Peer) (format : MessageFormat) (given : List Given)
        (limit first window : ℕ)
        (journal : JournalState) (input : InputEntries) (old : Repairer) (before : PortSetState D.Peer)
        (held_old held_new : Option (List ℕ)) → IsOpening journal limit → 1 ≤ first →
        first ≤ length (left_journal (input_published journal input)).messages + 1 →
        IsNew old.arbiter.view journal.session first window → old.counts ≡ no_counts →
        (is : HasBroken lines servers format true given (started old before) held_old held_new) →
        AreFed D.Peer journal limit input (given ++ is.end.ports.given) →
        HasPrintedPart format (left_journal (input_published journal input)) first held_old held_new }
{
    published_law::<D>();
    fed_law::<D>();
    blocks_law();
    blocks_to_empty_law();
    honest_stays_law();
    taken_law();
    safe_law();
    lost_count_law();
}
