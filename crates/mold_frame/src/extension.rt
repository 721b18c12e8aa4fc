//! The extension headers of IPv6.

ghost use Rattle.std.specs.Prelude.{◌≡◌, ◌≤◌, length, IfSome};
ghost use Rattle.mold_frame.specs.Ipv6.{atomic_length, header_length, is_atomic, is_common};

use byteorder::{BigEndian, ByteOrder};

// The protocol numbers of extension headers. The length of the first six is in units of 8 bytes.
const HOP_BY_HOP: u8 = 0;

const ROUTING: u8 = 43;

const DESTINATION: u8 = 60;

const MOBILITY: u8 = 135;

const HIP: u8 = 139;

const SHIM6: u8 = 140;

const AUTHENTICATION: u8 = 51;

/// The protocol number of the fragment header.
pub(crate) const FRAGMENT: u8 = 44;

/// The size of a fragment header in bytes.
pub(crate) const FRAGMENT_LENGTH: usize = 8;

/// The offset of the field in a fragment header that has the offset and the flag "more fragments".
pub(crate) const FIELD_AT: usize = 2;

/// The size in bytes of a fragment header up to the end of that field.
pub(crate) const FIELD_END: usize = 4;

// Whether the length of this extension header is in units of 8 bytes.
fn is_common(next: u8) -> bool
    ensures { result ≡ is_common next }
{
    next == HOP_BY_HOP
        || next == ROUTING
        || next == DESTINATION
        || next == MOBILITY
        || next == HIP
        || next == SHIM6
}

/// Whether the field of a fragment header is that of a packet that was not fragmented.
pub(crate) fn is_atomic(field: u16) -> bool
    ensures { result ≡ is_atomic field }
{
    field / 8 == 0 && field % 2 == 0
}

// Returns the length of the fragment header at the start of the bytes, if the packet was not fragmented.
fn atomic_length(bytes: &[u8]) -> Option<usize>
    ensures { result ≡ atomic_length bytes.now }
{
    if bytes.len() < FIELD_END {
        return None;
    }
    if !is_atomic(BigEndian::read_u16(&bytes[FIELD_AT..])) {
        return None;
    }
    Some(FRAGMENT_LENGTH)
}

/// Returns the length in bytes of the extension header at the start of the bytes, if it is one to pass over.
#[tactic(auto, unfolding(crate::specs::Ipv6::header_length))]
pub(crate) fn header_length(next: u8, bytes: &[u8]) -> Option<usize>
    ensures exact { result ≡ header_length next bytes.now }
    ensures start { IfSome result (λ len. 2 ≤ length bytes.now) }
{
    if bytes.len() < 2 {
        return None;
    }
    if is_common(next) {
        return Some(8 * (usize::from(bytes[1]) + 1));
    }
    if next == AUTHENTICATION {
        return Some(4 * (usize::from(bytes[1]) + 2));
    }
    if next == FRAGMENT {
        return atomic_length(bytes);
    }
    None
}
