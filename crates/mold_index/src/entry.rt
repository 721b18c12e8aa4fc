//! An entry of the index.

/// Where a message begins in a file. An entry takes 16 bytes.
#[derive(Clone, Copy)]
pub struct Entry {
    /// The number of the message. The first message has number 1.
    pub number: u64,
    /// The offset in the file at which the message's block or record begins.
    pub offset: u64,
}
