//! A gap: missing messages with consecutive numbers.

/// The messages from `first` to just below `end` are missing.
#[derive(Clone, Copy, Debug)]
pub struct Gap {
    /// The number of the first missing message.
    pub first: u64,
    /// One more than the number of the last missing message.
    pub end: u64,
}
