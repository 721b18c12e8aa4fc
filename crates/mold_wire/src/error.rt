//! The errors of the codec and of the packer.

use thiserror::Error;

/// The reason why a datagram does not encode a downstream packet. At most one of these faults applies to any
/// bytes.
#[derive(Clone, Copy, Debug, PartialEq, Eq, Error)]
pub enum DecodeError {
    /// The datagram is shorter than a header. `len` is its length in bytes.
    #[error("a packet has at least 20 bytes, and this one has {len}")]
    Short { len: usize },
    /// The message count states more blocks than there are whole blocks. `index` is the index of the first
    /// block that is not whole, counted from 0.
    #[error("message block {index} is truncated")]
    BlockCut { index: u16 },
    /// Bytes follow the header and the stated blocks. `at` is the offset of the first of these bytes.
    #[error("the packet ends at byte {at}, and more bytes follow")]
    Trailing { at: usize },
}

/// The reason why a datagram does not encode a request packet.
#[derive(Clone, Copy, Debug, PartialEq, Eq, Error)]
pub enum RequestError {
    /// The datagram does not have the length of a request, which is `HEADER_LENGTH`. `len` is its length in
    /// bytes.
    #[error("a request has 20 bytes, and this one has {len}")]
    RequestLength { len: usize },
}

/// The reason why a packer cannot be made.
#[derive(Clone, Copy, Debug, PartialEq, Eq, Error)]
pub enum PackerError {
    /// The limit is not in the range `MIN_LIMIT` to `MAX_LIMIT`.
    #[error("a datagram's limit is 64 to 65,507 bytes")]
    Limit,
    /// The allocation of the buffer failed.
    #[error("out of memory")]
    Memory,
}
