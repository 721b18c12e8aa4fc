//! The reasons why a datagram is refused.

use mold_wire::DecodeError;
use thiserror::Error;

/// The reason why a datagram is refused. If several reasons apply, the first one in this order is returned.
#[derive(Clone, Copy, Debug, PartialEq, Eq, Error)]
pub enum Refusal {
    /// The bytes do not encode a packet.
    #[error("{0}")]
    Malformed(DecodeError),
    /// The packet belongs to another session.
    #[error("the packet is of another session")]
    WrongSession,
    /// The sequence number is 0, which no message has.
    #[error("the sequence number is 0")]
    SequenceZero,
    /// The packet's top is above `MAX_NUMBER`. A packet whose last message has the number `MAX_NUMBER` is
    /// therefore refused too. The greatest usable sequence number of a message is 18446744073709551614.
    #[error("the packet has a message with a number above 18446744073709551614")]
    PastLast,
    /// The number of an end packet is not the end that an earlier end packet reported. `end` is that earlier
    /// end.
    #[error("the session ends at {end}, and the packet states another end")]
    EndConflict { end: u64 },
    /// The number of an end packet is below `known`, the greatest top of the packets accepted so far.
    #[error("the packet ends the session at a number below {known}")]
    EndBelow { known: u64 },
    /// The top of a data packet or a heartbeat is above the session's end. `end` is the session's end.
    #[error("the session ends at {end}, and the packet goes beyond it")]
    PastEnd { end: u64 },
    /// A message of the packet differs from the message stored with the same number. `number` is the least
    /// such number.
    #[error("message {number} differs from the one received before")]
    Conflict { number: u64 },
    /// An allocation for the packet's messages failed.
    #[error("out of memory")]
    Memory,
}
