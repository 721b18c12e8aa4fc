//! The outcome of writing messages.

/// Whether all messages that were asked for were written.
#[derive(Clone, Copy, Debug, PartialEq, Eq)]
pub enum Extracted {
    /// All messages were written.
    All {
        /// The number of messages that were written.
        messages: u64,
    },
    /// A message that was asked for is not carried. Nothing was written.
    Holes,
}
