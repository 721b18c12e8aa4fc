//! Why an input has no message where one is expected.

use thiserror::Error;

/// The reason why an entry of an input is not a message.
#[derive(Clone, Copy, Debug, PartialEq, Eq, Error)]
pub enum InputFault {
    /// A line is not an even number of hexadecimal digits.
    #[error("the line is not an even number of hexadecimal digits")]
    NotHex,
    /// A line has more than `MAX_LINE` hexadecimal digits, an even number. `len` is the number of bytes that they
    /// encode.
    #[error("a message of {len} bytes is too long")]
    TooLong { len: usize },
    /// The input ends within a block: after the first byte of its length, or before the last byte of its message.
    #[error("the input ends within a block")]
    Cut,
}
