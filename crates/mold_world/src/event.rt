//! The events that can happen in a world.

use crate::way::Way;

/// An event in a world, with its bytes as a `B`. Receivers are numbered from 0 in the order of the windows given to
/// `World::new`. Datagrams are numbered from 0 in the order in which they were sent.
#[derive(Clone, Copy, Debug, PartialEq, Eq)]
pub enum EventOf<B> {
    /// The publisher publishes a message.
    Publish(B),
    /// The publisher sends the next data packet, with as many unsent messages as fit.
    Datagram,
    /// The publisher sends a heartbeat.
    Heartbeat,
    /// The publisher closes the session.
    Close,
    /// The publisher sends an end packet.
    End,
    /// The re-request server receives these bytes as a request and sends its responses.
    Request(B),
    /// The re-request server receives the request that this receiver wants, and sends its responses. If the receiver
    /// misses no message, nothing happens.
    Ask(usize),
    /// Receiver `r` receives the datagram with the number `sent`.
    Deliver { r: usize, way: Way, sent: usize },
    /// Receiver `r` receives bytes that don't encode a packet of the session.
    Noise { r: usize, way: Way, bytes: B },
    /// Receiver `r` restarts at the message `next`, with the same window.
    Restart { r: usize, next: u64 },
}

/// An event that borrows its bytes. The definitions have lists of bytes instead.
pub type Event<'a> = EventOf<&'a [u8]>;
