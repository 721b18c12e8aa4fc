//! A piece of a file.

use crate::entry::Entry;

/// A piece of a file, which begins with a message.
#[derive(Clone, Copy)]
pub struct Piece {
    /// The message with which the piece begins, and the offset of the piece in the file.
    pub entry: Entry,
    /// The length of the piece in bytes.
    pub len: u64,
}
