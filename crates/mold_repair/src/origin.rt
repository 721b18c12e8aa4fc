//! Where a datagram came from.

ghost use Rattle.std.specs.Prelude.{◌≡◌};
ghost use Rattle.mold_repair.specs.Origin.{receiver_origin};
ghost use Rattle.mold_repair.specs.Timing.{is_line, line_index};

use mold_receiver::{Line, Origin};

/// The origin of a datagram: one of the two lines, or a re-request server.
#[derive(Clone, Copy)]
pub enum RepairOrigin {
    /// The datagram arrived on this line.
    Line(Line),
    /// The datagram is a response of the server with this index, from 0.
    Server(u32),
}

impl RepairOrigin {
    /// Returns the origin as the arbiter sees it, to which all servers are alike.
    #[inline(always)]
    pub(crate) fn receiver_origin(self) -> Origin
        ensures { result ≡ receiver_origin self }
    {
        match self {
            RepairOrigin::Line(line) => Origin::Line(line),
            RepairOrigin::Server(_) => Origin::Response,
        }
    }

    /// Returns whether the origin is a line.
    #[inline(always)]
    pub(crate) fn is_line(self) -> bool
        ensures { result ≡ is_line self }
    {
        match self {
            RepairOrigin::Line(_) => true,
            RepairOrigin::Server(_) => false,
        }
    }

    /// Returns the index of the line, or 0 if there is none.
    #[inline(always)]
    pub(crate) fn line_index(self) -> u32
        ensures { result ≡ line_index self }
    {
        match self {
            RepairOrigin::Line(Line::A) | RepairOrigin::Server(_) => 0,
            RepairOrigin::Line(Line::B) => 1,
        }
    }
}
