//! Why the file of a journal is not opened or created.

use crate::obstacle::Obstacle;
use thiserror::Error;

/// Why the file of a journal is not opened or created.
#[derive(Clone, Copy, Debug, PartialEq, Eq, Error)]
pub enum JournalFileError {
    /// Another process has a lock on the file, or the name changed to another file in each of 100 attempts.
    #[error("another process writes the journal")]
    Locked,
    /// A call of the system failed.
    #[error("the file can't be opened or written")]
    Write,
    /// The file, or the new file beside it, stays as it is.
    #[error("another file prevents that the journal is created")]
    Obstructed(Obstacle),
    /// An allocation failed.
    #[error("out of memory")]
    Memory,
}
