//! The parts of a classic capture.

ghost use Rattle.std.specs.Prelude.{◌≡◌};
ghost use Rattle.mold_pcap.specs.Classic.{head_at, head_by, record_at, variant_of};

use crate::fault::CaptureFault;
use crate::limits::MAX_CAPTURED;
use crate::look::Look;
use crate::next::Next;
use crate::order::Order;
use crate::place::Place;
use crate::resolution::Resolution;
use crate::stamp::Stamp;

/// The length of the head of a capture.
const HEAD: usize = 24;

/// The length of the head of a record.
const RECORD_HEAD: usize = 16;

/// The version of the format that is read.
const VERSION: u16 = 2;

/// Returns what the magic of a classic capture states. It is read with its most significant byte first.
#[tactic(auto, unfolding(crate::specs::Classic::variant_of))]
pub fn variant_of(magic: u32) -> Option<(Order, Resolution)>
    ensures { result ≡ variant_of magic }
{
    match magic {
        0xa1b2_c3d4 => Some((Order::Big, Resolution::Microseconds)),
        0xa1b2_3c4d => Some((Order::Big, Resolution::Nanoseconds)),
        0xd4c3_b2a1 => Some((Order::Little, Resolution::Microseconds)),
        0x4d3c_b2a1 => Some((Order::Little, Resolution::Nanoseconds)),
        _ => None,
    }
}

// Looks at the head of a classic capture.
#[tactic(auto, unfolding(crate::specs::Classic::head_at))]
fn look_at_head(order: Order, resolution: Resolution, bytes: &[u8]) -> Look
    ensures { result ≡ head_at order resolution bytes.now }
{
    if bytes.len() < HEAD {
        return Look::Short { need: HEAD };
    }
    if order.u16_at(bytes, 4) != VERSION {
        return Look::Refused {
            why: CaptureFault::NoCapture,
        };
    }
    Look::Passed {
        next: Next::Head {
            order,
            link: (order.u32_at(bytes, 20) % 65536) as u16,
            resolution,
        },
        used: HEAD,
    }
}

/// Looks at the head of a classic capture with this magic.
pub fn look_by_magic(magic: u32, bytes: &[u8]) -> Look
    ensures { result ≡ head_by (variant_of magic) bytes.now }
{
    match variant_of(magic) {
        Some((order, resolution)) => look_at_head(order, resolution, bytes),
        None => Look::Refused {
            why: CaptureFault::NoCapture,
        },
    }
}

/// Looks at a record of a classic capture, which begins at byte `at`.
#[tactic(auto, unfolding(crate::specs::Classic::record_at))]
#[inline(always)]
pub fn look_at_record(
    at: u64,
    order: Order,
    link: u16,
    resolution: Resolution,
    bytes: &[u8],
) -> Look
    ensures { result ≡ record_at at order link resolution bytes.now }
{
    if bytes.len() < RECORD_HEAD {
        return Look::Short { need: RECORD_HEAD };
    }
    let len = order.u32_at(bytes, 8) as usize;
    if len > MAX_CAPTURED {
        return Look::Refused {
            why: CaptureFault::TooLong { at },
        };
    }
    let used = RECORD_HEAD + len;
    if bytes.len() < used {
        return Look::Short { need: used };
    }
    let stamp = Stamp::Classic {
        seconds: order.u32_at(bytes, 0),
        fraction: order.u32_at(bytes, 4),
        resolution,
    };
    Look::Framed {
        place: Place {
            link,
            start: RECORD_HEAD,
            len,
            stamp,
        },
        used,
    }
}
