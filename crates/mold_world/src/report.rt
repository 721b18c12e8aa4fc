//! The result of an event.

use mold_receiver::{Refusal, Taken};
use mold_session::SessionError;
use thiserror::Error;

/// What an event did in the world.
#[derive(Clone, Copy, Debug, PartialEq, Eq)]
pub enum Report {
    /// A message was published with this number.
    Published { number: u64 },
    /// A datagram was sent. `place` is its index among all datagrams that were sent, counted from 0.
    Sent { place: usize },
    /// The `count` responses to a request were sent. `first` is the index of the first of them.
    Burst { first: usize, count: usize },
    /// There was nothing to send, or the receiver misses no message.
    Nothing,
    /// The session was closed.
    Closed,
    /// A receiver accepted a datagram, with these counts.
    Delivered(Taken),
    /// A receiver refused the bytes for this reason.
    NoiseRefused(Refusal),
    /// A receiver restarted at this number.
    Restarted { next: u64 },
}

/// Why an event is refused or a world can't be created. A refused event leaves the world unchanged. `BadLimit`,
/// `BadBurst` and `BadWindow` come from `World::new` alone. If several reasons apply to it, it returns the first in
/// the order `BadLimit`, `BadBurst`, `BadWindow`, `Memory`.
#[derive(Clone, Copy, Debug, PartialEq, Eq, Error)]
pub enum WorldError {
    /// No receiver has this number.
    #[error("there is no receiver with this number")]
    NoReceiver,
    /// No datagram that was sent has this number.
    #[error("no datagram with this index was sent")]
    NoSuchDatagram,
    /// The bytes of a noise event encode a packet of the session.
    #[error("the bytes are a packet of the session")]
    NotNoise,
    /// A receiver can't restart at this number, which is 0 or above its next number `next`.
    #[error("the receiver has reached {next}")]
    NotReached { next: u64 },
    /// The publisher or the re-request server refused.
    #[error("{0}")]
    Layer(SessionError),
    /// An allocation failed.
    #[error("out of memory")]
    Memory,
    /// A datagram limit is not `MIN_LIMIT` to `MAX_LIMIT`, or the server's limit is below the publisher's.
    #[error("a datagram's limit is 64 to 65,507 bytes, and the server's is at least the publisher's")]
    BadLimit,
    /// A window is not 1 to `MAX_WINDOW` messages. `r` is the first receiver with such a window.
    #[error("the window of receiver {r} is not 1 to 65,536 messages")]
    BadWindow { r: usize },
    /// The burst is not 1 to `MAX_BURST` datagrams.
    #[error("the greatest number of datagrams for one request is 1 to 64")]
    BadBurst,
}
