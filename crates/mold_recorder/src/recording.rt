//! The loop of a receiver over ports that keeps the session in a durable journal.

ghost use Rattle.std.specs.Prelude.{◌≡◌, ◌+◌, [], false, length, IfOk, OnErr};
ghost use Rattle.mold_receive.specs.Receiving.{datagram_of_first, is_finished, last_line, last_status};
ghost use Rattle.mold_receiver.specs.View.{fresh_within};
ghost use Rattle.mold_recorder.specs.Appending.{IsSaved};
ghost use Rattle.mold_recorder.specs.Recording.{HasBroken, HasEnded, HasSaid};

use crate::commit_plan::CommitPlan;
use crate::feed_recorder::FeedRecorder;
use mold_devices::{CommandFault, Sink};
use mold_durable::{DurableJournal, Storage};
use mold_input::MessageFormat;
use mold_port_set::PortSet;
use mold_receive::{FeedReceiver, ReceiveOptions, ReceiveParts, Received};
use mold_receiver::{Receiver, ReceiverError};
use mold_repair::laws::order_law;
use std::alloc::Global;

/// Returns a receiver for the messages that follow those of the journal, with this window, whose store has room for
/// `store` bytes. `Receiver::bounded` has the errors.
pub fn receiver_of<S: Storage>(
    alloc: Global,
    journal: &DurableJournal<S>,
    window: u32,
    store: Option<u64>,
) -> Result<Receiver, ReceiverError>
    ensures { IfOk result (λ receiver. receiver ≡ fresh_within store journal.now.session
        (journal.now.committed + length journal.now.waiting + 1) window) }
{
    Receiver::bounded(alloc, journal.session(), journal.next(), window, store)
}

/// Receives a session as `mold_receive::receive_loop` does, and keeps the messages in a durable journal. The repairer
/// continues after the messages of the journal. It never gives up messages, so its option `give_up` has to be 0.
///
/// Each message that is delivered is appended to the journal, in order. The messages that wait are committed when their
/// records have 1 MiB, when the oldest has waited for 20 milliseconds and no port has a datagram, when it has waited
/// for a second, and in the end. If the session is finished in the end, the journal is closed.
///
/// A crash at any moment leaves all messages that were committed, and a prefix of those that were delivered after them.
/// It leaves a closed journal only if the session is finished and the journal has all its messages.
///
/// Refused datagrams, contradictions, statistics and the last line are printed on `errors`. The options state when the
/// loop ends. If the journal can't be written, the fault is `Write`. Before the loop ends with another fault, it
/// commits the messages that wait.
pub fn record_loop<D: PortSet + Drop, S: Storage, E: Sink>(
    alloc: Global,
    parts: ReceiveParts<D>,
    options: &ReceiveOptions<D::Peer>,
    journal: &mut DurableJournal<S>,
    errors: &mut E,
) -> Result<Received<D>, CommandFault>
    requires begins { parts.repairer.arbiter.view.next ≡ journal.old.committed + 1 }
    requires named { parts.repairer.arbiter.view.session ≡ journal.old.session }
    requires open { journal.old.closed ≡ false }
    requires none { journal.old.waiting ≡ [] }
    ensures ended { IfOk result (λ received. HasEnded options.now.lines options.now.servers.items D.modeled S.shows
        S.may_leave S.moment S.left_since (datagram_of_first options.now.lines parts.first)
        (record { repairer = parts.repairer; ports = D.state parts.ports })
        (record { repairer = received.repairer; ports = D.state received.ports }) journal.old journal.new) }
    ensures numbered { IfOk result (λ received.
        received.repairer.arbiter.view.next ≡ journal.new.committed + 1) }
    ensures closed { IfOk result (λ received. journal.new.closed ≡ is_finished received.repairer) }
    ensures status { IfOk result (λ received. received.status ≡ last_status received.repairer) }
    ensures said { IfOk result (λ received. HasSaid (E.held errors.old) (E.held errors.new)
        (last_line received.repairer (D.state received.ports).failures)) }
    ensures broken { OnErr result (HasBroken options.now.lines options.now.servers.items D.modeled S.shows S.may_leave
        S.moment S.left_since (datagram_of_first options.now.lines parts.first)
        (record { repairer = parts.repairer; ports = D.state parts.ports }) journal.old journal.new) }
    ensures saved { OnErr result (IsSaved journal.new) }
{
    order_law();
    let ReceiveParts {
        ports,
        repairer,
        first,
    } = parts;
    let feed = FeedReceiver::new(alloc, ports, repairer, options, MessageFormat::Blocks);
    let mut recorder = FeedRecorder {
        feed,
        plan: CommitPlan::new(),
        alloc,
    };
    let status = recorder.receive(&first, options, journal, errors)?;
    let FeedRecorder { feed, .. } = recorder;
    Ok(feed.into_received(status))
}
