//! Where a datagram came from.

use crate::line::Line;

/// The origin of a datagram: one of the two lines, or a re-request server. No line's report counts a server's
/// response.
#[derive(Clone, Copy, Debug, PartialEq, Eq, Hash)]
pub enum Origin {
    /// The datagram came on this line.
    Line(Line),
    /// The datagram is a re-request server's response.
    Response,
}
