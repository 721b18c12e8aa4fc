//! The kinds of inputs.

/// How an input encodes messages. Refusals name its parts by it: `line` or `block`.
#[derive(Clone, Copy)]
pub enum InputKind {
    /// Lines of hexadecimal digits.
    Lines,
    /// Message blocks, as in Nasdaq's BinaryFILE.
    Blocks,
}
