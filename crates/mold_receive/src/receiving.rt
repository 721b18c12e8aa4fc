//! The loop of a receiver over a set of ports.

ghost use Rattle.std.specs.Prelude.{◌≡◌, [], IfNone, IfOk, IfSome, OnErr};
ghost use Rattle.mold_receive.specs.Receiving.{HasBroken, HasEnded, HasStopped, datagram_of_first, started};

use crate::feed_receiver::FeedReceiver;
use crate::first_packet::FirstPacket;
use crate::receive_options::ReceiveOptions;
use mold_devices::{CommandFault, Sink};
use mold_port_set::PortSet;
use mold_repair::Repairer;
use std::alloc::Global;

/// What a receiver over ports works with.
#[derive(Drop)]
pub struct ReceiveParts<D> {
    /// The ports: those of the lines, and then those of the servers.
    pub ports: D,
    /// The repairer.
    pub repairer: Repairer,
    /// A datagram that the ports gave before, and that is taken first. `await_session` returns it.
    pub first: Option<FirstPacket>,
}

/// What a loop that ended leaves.
#[derive(Drop)]
pub struct Received<D> {
    /// The status: 2 if printing stopped before an empty message. Otherwise 0 if the session is finished and nothing was
    /// given up, and 1 if not.
    pub status: u8,
    /// The number of the empty message before which printing stopped, if it stopped.
    pub stopped: Option<u64>,
    /// The ports.
    pub ports: D,
    /// The repairer.
    pub repairer: Repairer,
}

/// Receives a session on one or two lines, and requests missing messages from the servers by the repairer's policy.
/// Prints each message that is delivered, in order: as its number and its bytes, or as its block. Prints the line
/// `lost FIRST LAST` for each range of messages that is given up.
///
/// In each turn the loop takes what is at the ports, at most 64 datagrams from each before the next one is looked at.
/// Then it gives up what is due, and sends the requests that may be sent. The text is written after each message with
/// which it has at least 65,536 bytes. When no datagram is at a port, the loop writes all text and waits for a datagram,
/// or until the repairer has something to do. So at most 65,535 bytes of text are kept back, and none while it waits.
///
/// It ends after the first turn in which each message is delivered or given up, after the `turns` of the options, or
/// when no datagram was accepted for the time of `with_quiet`. Then it prints a last line and returns the status: 0 if
/// the session is finished and nothing was given up, otherwise 1. Refused datagrams, contradictions and statistics are
/// printed on `errors`. If messages are printed as blocks, lines are written to `errors`, and `sink` gets the blocks and
/// nothing else.
///
/// In the format `BlocksToEmpty` an empty block, which marks the end, follows the messages if the status is 0. An empty
/// message would look like this mark. At the first one that is delivered the loop ends at once: it has written the
/// messages before it, prints the line `refused Empty NUMBER` on `errors` in place of statistics and last line, and the
/// status is 2.
///
/// A failed wait, receive or send is counted, and the loop continues. After a fault, a prefix of the text is written.
pub fn receive_loop<D: PortSet + Drop, K: Sink, E: Sink>(
    alloc: Global,
    parts: ReceiveParts<D>,
    options: &ReceiveOptions<D::Peer>,
    sink: &mut K,
    errors: &mut E,
) -> Result<Received<D>, CommandFault>
    ensures ended { IfOk result (λ received. IfNone received.stopped (HasEnded options.now.lines
        options.now.servers.items options.now.format D.modeled (datagram_of_first options.now.lines parts.first)
        (started parts.repairer (D.state parts.ports)) received.repairer (D.state received.ports)
        (K.held sink.old) (K.held sink.new) received.status)) }
    ensures stopped { IfOk result (λ received. IfSome received.stopped (HasStopped options.now.lines
        options.now.servers.items options.now.format D.modeled (datagram_of_first options.now.lines parts.first)
        (started parts.repairer (D.state parts.ports)) received.repairer (D.state received.ports)
        (K.held sink.old) (K.held sink.new))) }
    ensures status { IfOk result (λ received. IfSome received.stopped (λ number. received.status ≡ 2)) }
    ensures failed { OnErr result (HasBroken options.now.lines options.now.servers.items
        options.now.format D.modeled (datagram_of_first options.now.lines parts.first)
        (started parts.repairer (D.state parts.ports)) (K.held sink.old) (K.held sink.new)) }
{
    let ReceiveParts {
        ports,
        repairer,
        first,
    } = parts;
    let mut receiver = FeedReceiver::new(alloc, ports, repairer, options, options.format());
    let mut stopped = None;
    match receiver.run(alloc, &first, options, sink, errors, &mut stopped) {
        Ok(status) => Ok(receiver.into_received(status)),
        Err(fault) => receiver.stop(fault, stopped, errors),
    }
}
