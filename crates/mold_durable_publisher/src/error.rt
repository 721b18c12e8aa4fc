//! The errors of this crate.

use mold_durable::{CommitError, OpenError};
use mold_session::Unsent;
use thiserror::Error;

/// Why a session is not closed. If both reasons apply, `Unsent` is returned.
#[derive(Clone, Copy, Debug, PartialEq, Eq, Error)]
pub enum CloseError {
    /// Some messages were not put into a datagram yet.
    #[error("{0}")]
    Unsent(Unsent),
    /// The closing of the session is not committed.
    #[error("{0}")]
    Commit(CommitError),
}

/// Why a durable publisher is not made. If several reasons apply, the first one in this list is returned.
#[derive(Clone, Copy, Debug, PartialEq, Eq, Error)]
pub enum ResumeError {
    /// The journals differ in their session, their number of messages, the largest length of a message, or in whether
    /// the session is closed. Or a message waits in the durable journal.
    #[error("the journals differ")]
    Differs,
    /// The limit is outside the range `MIN_LIMIT` to `MAX_LIMIT`, or it is not the journal's `max_message` plus
    /// `MESSAGE_OVERHEAD`.
    #[error("a datagram's limit is 64 to 65,507 bytes, and 22 more than the longest message of its journal")]
    Limit,
    /// The allocation of the datagram's buffer failed.
    #[error("out of memory")]
    Memory,
}

/// Why the journal of a storage is not opened to publish. If several reasons apply, the first one in this list is
/// returned.
#[derive(Clone, Copy, Debug, PartialEq, Eq, Error)]
pub enum StartError {
    /// The limit is outside the range `MIN_LIMIT` to `MAX_LIMIT`.
    #[error("a datagram's limit is 64 to 65,507 bytes")]
    Limit,
    /// The storage has no valid journal of version 3, or it failed, or an allocation for the index failed.
    #[error("{0}")]
    Open(OpenError),
    /// The allocation of the datagram's buffer failed.
    #[error("out of memory")]
    Memory,
}
