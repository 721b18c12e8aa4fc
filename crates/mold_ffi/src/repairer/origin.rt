//! Where a datagram of a repairer came from, by the numbers that callers use.

ghost use Rattle.std.specs.Prelude.{◌≡◌};
ghost use Rattle.mold_ffi.specs.Repairer.Origin.{repair_origin_at};

use mold_receiver::Line;
use mold_repair::RepairOrigin;

/// Where a datagram came from, by its number, if there are `servers` servers; none for any other number.
#[inline(always)]
pub(crate) fn repair_origin_of(servers: u32, number: u32) -> Option<RepairOrigin>
    ensures { result ≡ repair_origin_at servers number }
{
    match number {
        0 => Some(RepairOrigin::Line(Line::A)),
        1 => Some(RepairOrigin::Line(Line::B)),
        _ if number - 2 < servers => Some(RepairOrigin::Server(number - 2)),
        _ => None,
    }
}
