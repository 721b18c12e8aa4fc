//! The type of what a captured frame carries.

use crate::datagram::Datagram;
use crate::target::Target;

/// What a captured frame carries.
#[derive(Clone, Copy, Debug, PartialEq, Eq)]
pub enum Carried<'a> {
    /// A whole UDP datagram. Its payload may be empty.
    Whole(Datagram<'a>),
    /// A fragment of a UDP datagram. Only the first fragment has a port, and only if it has the bytes of both ports.
    Fragment(Target<'a>),
    /// A UDP datagram that the capture cut short. It has a port if the frame has the bytes of both ports.
    Cut(Target<'a>),
    /// Another packet, or bytes that are not a valid packet.
    Other,
    /// A frame of a link type that is not read.
    Unread,
}
