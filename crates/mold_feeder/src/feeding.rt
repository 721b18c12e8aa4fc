//! The loop of a publisher over ports.

ghost use Rattle.std.specs.Prelude.{◌≡◌, ◌≤◌, ◌+◌, length, IfOk, OnErr};
ghost use Rattle.mold_durable.specs.Life.{Life};
ghost use Rattle.mold_durable_publisher.specs.DurablePublisher.{IsAtRest};
ghost use Rattle.mold_feeder.specs.FeedText.{failed_count, fed_line, status_at};
ghost use Rattle.mold_feeder.specs.Feeding.{HasBroken, HasFinished, MayClose, state_of};
ghost use Rattle.mold_feeder.specs.Input.{IsInput, entries_of_rest};
ghost use Rattle.mold_feeder.specs.JournalMessages.{HasMessages};
ghost use Rattle.mold_feeder.specs.Taking.{TakesYet};

use crate::feed::Feed;
use crate::feed_options::FeedOptions;
use crate::feed_ports::FeedPorts;
use crate::feed_stop::FeedStop;
use crate::journal_messages::JournalMessages;
use crate::piece_reader::PieceReader;
use crate::send_counts::LineCounts;
use mold_devices::{CommandFault, Sink, Source, send};
use mold_durable::Storage;
use mold_ports::Datagrams;
use mold_wire::MAX_LIMIT;
use std::alloc::Global;

// The status of a publisher if each send on a line failed.
const LOST: u8 = 1;

// The status of a publisher whose input is refused.
const REFUSED: u8 = 2;

// Returns the status of a publisher that stopped so, with these counts of its sends.
fn status_of(stop: FeedStop, counts: &LineCounts) -> u8
    ensures { result ≡ status_at stop counts.now }
{
    match stop {
        FeedStop::Ended if counts.is_line_lost() => LOST,
        FeedStop::Ended => 0,
        FeedStop::Refused { .. } => REFUSED,
        FeedStop::Other { .. } => REFUSED,
    }
}

/// Publishes the messages of an input, and answers requests meanwhile.
///
/// If the journal existed, it first prints `resumed` with the number of its messages, and sends a heartbeat or an end
/// packet. Unless the input continues after these messages, its first entries have to be them. They are compared with
/// the messages that `journal` reads from the journal's file, and requests are answered meanwhile. If the input
/// continues after the messages, `journal` is not read.
///
/// Then it reads the input in pieces of at most 65,536 bytes. The messages that are whole in a piece are committed
/// together, or in groups if the rate is bounded, and then sent, before the next piece is waited for. At least one
/// request that waits is answered after each piece. A heartbeat or an end packet is sent when the lines are idle.
///
/// At the end of the input the session is ended as the options state, and requests are answered for `linger`
/// milliseconds. Then it prints the last line. The status is 1 if there is a line on which a send was tried and each one
/// failed, and otherwise 0. If an entry is refused, the messages before it are committed and sent, the refusal is
/// printed, and the status is 2. The journal then stays open.
///
/// If a wait fails, it reads the input without waiting for it first, if it lacks entries. The fault is `Read` if a read
/// of the input failed, or after 18446744073709551615 turns. It is also `Read` if `journal` could not be read, or has
/// fewer messages than the publisher: then another process has changed the file. It is `Write` if the journal or `sink`
/// could not be written. If a group could not be committed, none of its messages is sent, and a crash leaves all of
/// them or none.
pub fn feed_loop<
    S: Storage + Drop,
    L: FeedPorts + Drop,
    D: Datagrams + Drop,
    M: PieceReader,
    K: Source + Drop,
    J: Source + Drop,
    O: Sink,
>(
    alloc: Global,
    feed: &mut Feed<S, L, D, M, K>,
    options: &FeedOptions<L::Peer>,
    journal: &mut JournalMessages<J>,
    sink: &mut O,
) -> Result<u8, CommandFault>
    requires longest { feed.old.feeder.publisher.publisher.journal.max_message
        ≤ feed.old.requests.server.max_message }
    requires input { IsInput M.is_part M.unread K.left feed.old.input }
    ensures finished { (life : Life) → IsAtRest S.shows S.may_leave feed.old.feeder.publisher life → IfOk result
        (HasFinished S.shows S.may_leave S.moment S.left_since S.failed L.modeled D.modeled
        (HasMessages J.left journal.old feed.old.feeder.publisher.publisher.journal.messages 1)
        M.input_kind options.now
        (fed_line (length feed.new.feeder.publisher.publisher.journal.messages) feed.new.feeder.datagrams
        feed.new.requests.answered
        (failed_count (L.state feed.new.feeder.ports).failures (D.port feed.new.requests.port).failures
        feed.new.requests.unread))
        (entries_of_rest M.unread K.left M.entries feed.old.input) life (state_of L.state D.port feed.old)
        (state_of L.state D.port feed.new) (O.held sink.old) (O.held sink.new)) }
    ensures broken { (life : Life) → IsAtRest S.shows S.may_leave feed.old.feeder.publisher life → OnErr result
        (HasBroken S.shows S.may_leave S.moment S.left_since S.failed L.modeled D.modeled options.now.lines
        (TakesYet (HasMessages J.left journal.old feed.old.feeder.publisher.publisher.journal.messages 1)
        options.now.appends M.input_kind feed.old.feeder.publisher.publisher.journal
        (entries_of_rest M.unread K.left M.entries feed.old.input))
        (MayClose (HasMessages J.left journal.old feed.old.feeder.publisher.publisher.journal.messages 1)
        options.now.end options.now.appends M.input_kind feed.old.feeder.publisher.publisher.journal
        (entries_of_rest M.unread K.left M.entries feed.old.input)) life (state_of L.state D.port feed.old)
        (state_of L.state D.port feed.new)) }
{
    let mut buffer = vec![in alloc; 0; MAX_LIMIT]?;
    let mut text = Vec::new(alloc);
    feed.begin(options, &mut text, sink)?;
    let stop = feed.run(options, journal, buffer.as_mut_slice())?;
    feed.push_stop(&mut text, stop)?;
    send(sink, &mut text)?;
    Ok(status_of(stop, &feed.feeder.counts))
}
