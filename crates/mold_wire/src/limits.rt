//! The limits of datagrams, messages, sequence numbers, windows and bursts.

use crate::block::LENGTH_BYTES;
use crate::header::{END_OF_SESSION, HEADER_LENGTH};

/// The least limit of a datagram, in bytes.
pub const MIN_LIMIT: usize = 64;

/// The greatest limit of a datagram, in bytes. It is the greatest UDP payload over IPv4.
pub const MAX_LIMIT: usize = 65507;

/// The bytes of a datagram with one message that are not the message's data: a header and the length field of
/// the block.
pub const MESSAGE_OVERHEAD: usize = HEADER_LENGTH + LENGTH_BYTES;

/// The greatest number of messages in a packet, and the most that a receiver requests at once. It is one less
/// than the message count of an end packet.
pub const MAX_COUNT: u16 = END_OF_SESSION - 1;

/// The greatest value of a sequence number field. A 64-bit counter that would exceed it stays at this value.
pub const MAX_NUMBER: u64 = u64::MAX;

/// The greatest window of a receiver that `Receiver::new` makes, in messages.
pub const MAX_WINDOW: u32 = 65536;

/// The greatest window of a receiver that `Receiver::wide` makes, in messages.
pub const MAX_WIDE_WINDOW: u32 = 1_048_576;

/// The greatest number of datagrams that a server sends for one request.
pub const MAX_BURST: u16 = 64;
