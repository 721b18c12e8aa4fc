//! How `mold extract` writes messages.

/// The form in which `extract` writes messages.
#[derive(Clone, Copy)]
pub enum ExtractForm {
    /// Each message as a message block.
    Blocks,
    /// Each message as a line: its sequence number, a space, and its bytes as hexadecimal digits.
    Lines,
}
