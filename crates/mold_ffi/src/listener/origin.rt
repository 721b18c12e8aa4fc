//! Lines, and where a datagram came from, by the numbers that callers use.

ghost use Rattle.std.specs.Prelude.{◌≡◌};
ghost use Rattle.mold_ffi.specs.Listener.Origin.{line_at, origin_at};

use mold_receiver::{Line, Origin};

/// The line with this number; none for any other number.
pub(crate) fn line_of(number: u32) -> Option<Line>
    ensures { result ≡ line_at number }
{
    match number {
        0 => Some(Line::A),
        1 => Some(Line::B),
        _ => None,
    }
}

/// Where a datagram came from, by its number; none for any other number.
pub(crate) fn origin_of(number: u32) -> Option<Origin>
    ensures { result ≡ origin_at number }
{
    match number {
        0 => Some(Origin::Line(Line::A)),
        1 => Some(Origin::Line(Line::B)),
        2 => Some(Origin::Response),
        _ => None,
    }
}
