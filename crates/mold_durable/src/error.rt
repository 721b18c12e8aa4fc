//! The errors of this crate.

use mold_session::AppendError;
use std::alloc::AllocError;
use std::fmt;
use std::fmt::{Debug, Formatter};
use thiserror::Error;

/// Why a message is not appended. If both reasons apply, `Broken` is returned.
#[derive(Clone, Copy, Debug, PartialEq, Eq, Error)]
pub enum WaitingError {
    /// An earlier write or sync failed. docs/DURABILITY.md states how to continue.
    #[error("an earlier write of the journal failed")]
    Broken,
    /// The message does not fit the journal, or an allocation failed.
    #[error("{0}")]
    Append(AppendError),
}

/// Why messages are not committed. If both reasons apply, `Broken` is returned.
#[derive(Clone, Copy, Debug, PartialEq, Eq, Error)]
pub enum CommitError {
    /// An earlier write or sync failed. docs/DURABILITY.md states how to continue.
    #[error("an earlier write of the journal failed")]
    Broken,
    /// A write or a sync failed. From now on the journal is broken. Its storage has all waiting messages or none. For a
    /// file, docs/DURABILITY.md states how to continue.
    #[error("the journal can't be written")]
    Write,
}

/// Why a journal is not created or opened. The bytes of a storage have at most one of the first five faults.
#[derive(Clone, Copy, Debug, PartialEq, Eq, Error)]
pub enum OpenError {
    /// The storage has fewer bytes than the head of a journal, which has 18. `len` is their number.
    #[error("{len} bytes are too short for a journal")]
    Short { len: usize },
    /// The first eight bytes are not the magic bytes of version 3.
    #[error("not a journal of version 3")]
    BadMagic,
    /// The record of a message follows message `MAX_MESSAGES`, the last one that can have a sequence number.
    #[error("the journal has messages after the greatest number")]
    Full,
    /// A message is longer than `max_message`. `len` is its length in bytes.
    #[error("a message of {len} bytes is too long")]
    TooLong { len: usize },
    /// Neither a whole record nor a shut gate follows the messages before message `number`.
    #[error("the file is damaged where message {number} has to be")]
    Damaged { number: u64 },
    /// A read of the storage failed.
    #[error("the journal can't be read")]
    Read,
    /// A write or a sync of the storage failed.
    #[error("the journal can't be written")]
    Write,
    /// An allocation failed.
    #[error("out of memory")]
    Memory,
}

impl From<AllocError> for OpenError {
    ghost use Rattle.std.specs.Prelude.{◌≡◌};
    ghost use Rattle.mold_durable.specs.declared.error.OpenError.TheVariants.{Memory};

    ghost from_gives = { λ _ error. error ≡ Memory };

    /// Returns `Memory`, the error for a failed allocation.
    fn from(_error: AllocError) -> OpenError {
        OpenError::Memory
    }
}

/// A journal that is not created or opened: why, and its storage.
#[derive(Drop)]
pub struct NotOpened<S> {
    /// Why it is not opened.
    pub error: OpenError,
    /// The storage.
    pub storage: S,
}

impl<S> Debug for NotOpened<S> {
    fn fmt<W: fmt::Write>(&self, f: &mut Formatter<W>) -> fmt::Result {
        f.debug_struct("NotOpened")
            .field("error", &self.error)
            .finish_non_exhaustive()
    }
}
