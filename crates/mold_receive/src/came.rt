//! What a receive of a waiting receiver gave.

use crate::first_packet::FirstPacket;

/// What a receive of a waiting receiver gave.
#[derive(Drop)]
pub(crate) enum Came {
    /// No datagram.
    Nothing,
    /// A datagram that does not open the session.
    Other,
    /// The first packet of the session.
    First(FirstPacket),
}
