//! How a datagram reaches a receiver.

ghost use Rattle.std.specs.Prelude.{◌≡◌};
ghost use Rattle.mold_receiver.specs.Origin.{line_of as line_of_origin};
ghost use Rattle.mold_world.specs.Event.{line_of};

use mold_receiver::{Line, Origin};

/// How a datagram reaches a receiver: on one of the two lines, or as a re-request server's response. A response is in
/// no line's report.
#[derive(Clone, Copy, Debug, PartialEq, Eq, Hash)]
pub enum Way {
    /// The datagram came on this line.
    Line(Line),
    /// The datagram is a re-request server's response.
    Answer,
}

impl Way {
    /// Returns the origin that the arbiter knows.
    pub(crate) fn origin(self) -> Origin
        ensures { line_of_origin result ≡ line_of self }
    {
        match self {
            Way::Line(line) => Origin::Line(line),
            Way::Answer => Origin::Response,
        }
    }
}
