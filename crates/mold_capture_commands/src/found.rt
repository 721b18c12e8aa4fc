//! What a frame counts as.

use mold_frame::Datagram;

/// What a frame of a capture counts as.
#[derive(Clone, Copy, Debug, PartialEq, Eq)]
pub enum Found<'a> {
    /// A UDP datagram that passes the filters.
    Passed(Datagram<'a>),
    /// Another packet, or one that does not pass.
    Skipped,
    /// A fragment, or a datagram that the capture cut short. It would pass the filters.
    Partial,
    /// A frame of a link type that is not read.
    Unread,
}
