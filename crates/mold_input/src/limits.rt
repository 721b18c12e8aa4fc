//! How much of a line is kept.

/// The greatest number of bytes of a line that are kept. The digits of every message that a session can have fit. A
/// longer line is refused, whatever the limit of the session's datagrams is.
pub const MAX_LINE: usize = 131_094;
