//! What a capture is read as.

use crate::resolution::Resolution;

/// What the rest of a capture is read as.
#[derive(Clone, Copy)]
pub enum Kind {
    /// Nothing was read yet.
    Start,
    /// The records of a classic capture, which have one link type.
    Classic { link: u16, resolution: Resolution },
    /// The blocks of pcapng.
    Blocks,
    /// Nothing more: the capture has ended, or an error was returned.
    Spent,
}
