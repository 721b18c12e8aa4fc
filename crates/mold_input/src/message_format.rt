//! The formats of messages in inputs and outputs, from which a user chooses.

/// How bytes encode messages.
#[derive(Clone, Copy)]
pub enum MessageFormat {
    /// Lines of hexadecimal digits.
    Lines,
    /// Message blocks.
    Blocks,
    /// Message blocks, with an empty block as the mark of the end. It and the bytes after it are not messages.
    BlocksToEmpty,
}
