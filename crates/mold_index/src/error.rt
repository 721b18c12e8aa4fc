//! The errors of this crate.

use thiserror::Error;

/// Why an index takes no more messages. If both reasons apply, the first one is returned.
#[derive(Clone, Copy, Debug, PartialEq, Eq, Error)]
pub enum IndexError {
    /// The index has `MAX_MESSAGES` messages, or the message would end after the offset `MAX_END`.
    #[error("the file has no room for another message")]
    Full,
    /// An allocation failed.
    #[error("out of memory")]
    Memory,
}

/// The bytes are not a piece of a file with the message that was searched for.
#[derive(Clone, Copy, Debug, PartialEq, Eq, Error)]
#[error("no whole message follows the first {index} messages of a piece of the file")]
pub struct NoMessage {
    /// The number of whole messages before the bytes that do not begin with one.
    pub index: u64,
}
