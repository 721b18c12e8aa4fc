//! A run of stored messages.

/// Stored messages that follow each other in one segment.
#[derive(Clone, Copy)]
pub(crate) struct Run<'a> {
    /// The messages' blocks, and nothing else.
    pub bytes: &'a [u8],
    /// The number of messages.
    pub count: usize,
}
