//! The blocks of a pcapng capture.

ghost use Rattle.std.specs.Prelude.{◌≡◌, ◌+◌, ◌^◌, ◌<◌, ◌≤◌, length, IfNone};
ghost use Rattle.mold_pcap.specs.Blocks.{block_at, description_at, enhanced_at, framed_in, kind_at, order_of};
ghost use Rattle.mold_pcap.specs.Blocks.{other_at, section_at, section_in, simple_at, snapped, wrong_block};

use crate::fault::CaptureFault;
use crate::interface::Interface;
use crate::interfaces::Interfaces;
use crate::limits::MAX_BLOCK;
use crate::look::Look;
use crate::next::Next;
use crate::options::read_clock;
use crate::order::Order;
use crate::place::Place;
use crate::stamp::Stamp;

/// The kind of a section header. Its bytes read the same in both orders.
pub const SECTION_HEADER: u32 = 0x0a0d_0d0a;

/// The kind of an interface description.
const INTERFACE_DESCRIPTION: u32 = 1;

/// The kind of a simple packet.
const SIMPLE_PACKET: u32 = 3;

/// The kind of an enhanced packet.
const ENHANCED_PACKET: u32 = 6;

/// The length of the kind and the total length of a block.
const BLOCK_HEAD: usize = 8;

/// The length of a block without a body.
const LEAST_BLOCK: usize = 12;

/// The offset of a frame in a simple packet.
const SIMPLE_START: usize = 12;

/// The offset of a frame in an enhanced packet.
const ENHANCED_START: usize = 28;

// Returns the fault of a block of a kind that is read, or how many bytes it needs. Its kind has at least `least` bytes.
// `None` means that the whole block is available.
#[tactic(auto, unfolding(crate::specs::Blocks::wrong_block))]
fn wrong_block(at: u64, order: Order, least: usize, total: usize, bytes: &[u8]) -> Option<Look>
    requires { 12 ≤ least }
    ensures wrong { result ≡ wrong_block at order least total bytes.now }
    ensures whole { IfNone result ((least ≤ total) × (total ≤ length bytes.now)) }
{
    let bad = Look::Refused {
        why: CaptureFault::BadBlock { at },
    };
    if total < least {
        return Some(bad);
    }
    if total % 4 != 0 {
        return Some(bad);
    }
    if total > MAX_BLOCK {
        return Some(Look::Refused {
            why: CaptureFault::TooLong { at },
        });
    }
    if bytes.len() < total {
        return Some(Look::Short { need: total });
    }
    if order.u32_at(bytes, total - 4) as usize == total {
        None
    } else {
        Some(bad)
    }
}

// Looks at a section header with this order of bytes.
#[tactic(auto, unfolding(crate::specs::Blocks::section_in))]
fn look_in_section(at: u64, order: Order, bytes: &[u8]) -> Look
    requires { 12 ≤ length bytes.now }
    ensures { result ≡ section_in at order bytes.now }
{
    let total = order.u32_at(bytes, 4) as usize;
    if let Some(wrong) = wrong_block(at, order, 28, total, bytes) {
        return wrong;
    }
    Look::Passed {
        next: Next::Section { order },
        used: total,
    }
}

// Returns the order of bytes that a byte-order magic states. It is read with its most significant byte first.
#[tactic(auto, unfolding(crate::specs::Blocks::order_of))]
fn order_of(magic: u32) -> Option<Order>
    ensures { result ≡ order_of magic }
{
    match magic {
        0x1a2b_3c4d => Some(Order::Big),
        0x4d3c_2b1a => Some(Order::Little),
        _ => None,
    }
}

/// Looks at a section header, which begins at byte `at`.
#[tactic(auto, unfolding(crate::specs::Blocks::section_at))]
pub fn look_at_section(at: u64, bytes: &[u8]) -> Look
    ensures { result ≡ section_at at bytes.now }
{
    if bytes.len() < LEAST_BLOCK {
        return Look::Short { need: LEAST_BLOCK };
    }
    match order_of(Order::Big.u32_at(bytes, 8)) {
        Some(order) => look_in_section(at, order, bytes),
        None => Look::Refused {
            why: CaptureFault::BadBlock { at },
        },
    }
}

// Looks at an interface description.
#[tactic(auto, unfolding(crate::specs::Blocks::description_at))]
fn look_at_description(at: u64, order: Order, total: usize, bytes: &[u8]) -> Look
    ensures { result ≡ description_at at order total bytes.now }
{
    if let Some(wrong) = wrong_block(at, order, 20, total, bytes) {
        return wrong;
    }
    let interface = Interface {
        link: order.u16_at(bytes, 8),
        snaplen: order.u32_at(bytes, 12),
        clock: read_clock(order, &bytes[16..total - 4]),
    };
    Look::Passed {
        next: Next::Described { interface },
        used: total,
    }
}

// Returns the look at a packet block with the frame at this place, or `BadBlock` if the frame does not fit.
#[inline(always)]
fn framed(at: u64, total: usize, place: Place) -> Look
    requires { place.start + place.len + 4 < 2 ^ 63 }
    ensures { result ≡ framed_in at total place }
{
    if total < place.start + place.len + 4 {
        return Look::Refused {
            why: CaptureFault::BadBlock { at },
        };
    }
    Look::Framed { place, used: total }
}

// Looks at an enhanced packet.
#[tactic(auto, unfolding(crate::specs::Blocks::enhanced_at))]
#[inline(always)]
fn look_at_enhanced(
    at: u64,
    order: Order,
    interfaces: &Interfaces,
    total: usize,
    bytes: &[u8],
) -> Look
    ensures { result ≡ enhanced_at at order interfaces.now total bytes.now }
{
    if let Some(wrong) = wrong_block(at, order, 32, total, bytes) {
        return wrong;
    }
    let Some(interface) = interfaces.get(order.u32_at(bytes, 8)) else {
        return Look::Refused {
            why: CaptureFault::NoInterface { at },
        };
    };
    let upper = u64::from(order.u32_at(bytes, 12));
    let stamp = Stamp::Units {
        units: upper * (1 << 32) + u64::from(order.u32_at(bytes, 16)),
        clock: interface.clock,
    };
    let place = Place {
        link: interface.link,
        start: ENHANCED_START,
        len: order.u32_at(bytes, 20) as usize,
        stamp,
    };
    framed(at, total, place)
}

// Returns the captured length of a frame of `len` bytes. A snapshot length of 0 is no limit.
fn snapped(snaplen: u32, len: u32) -> usize
    ensures value { result ≡ snapped snaplen len }
    ensures few { result ≤ len }
{
    if snaplen == 0 {
        len as usize
    } else {
        len.min(snaplen) as usize
    }
}

// Looks at a simple packet.
#[tactic(auto, unfolding(crate::specs::Blocks::simple_at))]
fn look_at_simple(
    at: u64,
    order: Order,
    interfaces: &Interfaces,
    total: usize,
    bytes: &[u8],
) -> Look
    ensures { result ≡ simple_at at order interfaces.now total bytes.now }
{
    if let Some(wrong) = wrong_block(at, order, 16, total, bytes) {
        return wrong;
    }
    let Some(interface) = interfaces.get(0) else {
        return Look::Refused {
            why: CaptureFault::NoInterface { at },
        };
    };
    let place = Place {
        link: interface.link,
        start: SIMPLE_START,
        len: snapped(interface.snaplen, order.u32_at(bytes, 8)),
        stamp: Stamp::Absent,
    };
    framed(at, total, place)
}

// Returns the look at a block of another kind, which begins at byte `at`.
#[tactic(auto, unfolding(crate::specs::Blocks::other_at))]
fn other(at: u64, total: usize) -> Look
    ensures { result ≡ other_at at total }
{
    if total < LEAST_BLOCK || total % 4 != 0 {
        return Look::Refused {
            why: CaptureFault::BadBlock { at },
        };
    }
    Look::Other { total }
}

// Looks at a block of this kind.
#[tactic(auto, unfolding(crate::specs::Blocks::kind_at))]
#[inline(always)]
fn look_at_kind(at: u64, order: Order, interfaces: &Interfaces, kind: u32, bytes: &[u8]) -> Look
    requires { 8 ≤ length bytes.now }
    ensures { result ≡ kind_at at order interfaces.now kind bytes.now }
{
    if kind == SECTION_HEADER {
        return look_at_section(at, bytes);
    }
    let total = order.u32_at(bytes, 4) as usize;
    match kind {
        INTERFACE_DESCRIPTION => look_at_description(at, order, total, bytes),
        SIMPLE_PACKET => look_at_simple(at, order, interfaces, total, bytes),
        ENHANCED_PACKET => look_at_enhanced(at, order, interfaces, total, bytes),
        _ => other(at, total),
    }
}

/// Looks at a block, which begins at byte `at`.
#[tactic(auto, unfolding(crate::specs::Blocks::block_at))]
#[inline(always)]
pub fn look_at_block(at: u64, order: Order, interfaces: &Interfaces, bytes: &[u8]) -> Look
    ensures { result ≡ block_at at order interfaces.now bytes.now }
{
    if bytes.len() < BLOCK_HEAD {
        return Look::Short { need: BLOCK_HEAD };
    }
    look_at_kind(at, order, interfaces, order.u32_at(bytes, 0), bytes)
}
