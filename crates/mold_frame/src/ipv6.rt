//! Reads IPv6 packets.

ghost use Rattle.std.specs.Prelude.{◌≡◌};
ghost use Rattle.mold_frame.specs.Ipv6.{ipv6_fragment, ipv6_of, ipv6_payload};
ghost use Rattle.mold_frame.specs.Lent.{lent_carried, lent_payload};

use crate::carried::Carried;
use crate::extension::{FIELD_AT, FIELD_END, FRAGMENT, FRAGMENT_LENGTH, is_atomic};
use crate::part::{part_at, rest_at};
use crate::payload::Payload;
use crate::target::Target;
use crate::udp::{UDP, read_fragment_port, read_udp};
use byteorder::{BigEndian, ByteOrder};

// The size of a header in bytes.
const HEADER_LENGTH: usize = 40;

// The offsets of the fields in a header.
const SIZE_AT: usize = 4;

const NEXT_AT: usize = 6;

const SOURCE_AT: usize = 8;

const TARGET_AT: usize = 24;

// Returns what a payload of `size` bytes carries that begins with a fragment header. `bytes` are those that the capture
// has.
#[tactic(auto, unfolding(crate::specs::Ipv6::ipv6_fragment))]
fn read_fragment<'a>(target: &'a [u8], size: usize, bytes: &[u8]) -> Carried<'a>
    ensures { lent_carried result ≡ ipv6_fragment target.now size bytes.now }
{
    if size < FRAGMENT_LENGTH || bytes.len() < FIELD_END {
        return Carried::Other;
    }
    let field = BigEndian::read_u16(&bytes[FIELD_AT..]);
    if is_atomic(field) || bytes[0] != UDP {
        return Carried::Other;
    }
    Carried::Fragment(Target {
        address: target,
        port: read_fragment_port(field / 8, rest_at(bytes, FRAGMENT_LENGTH)),
    })
}

// Returns what the payload after the extension headers carries.
#[tactic(auto, unfolding(crate::specs::Ipv6::ipv6_payload))]
fn read_payload<'a>(source: &'a [u8], target: &'a [u8], payload: Payload<'a>) -> Carried<'a>
    ensures { lent_carried result ≡ ipv6_payload source.now target.now (lent_payload payload.entry) }
{
    match payload.next {
        UDP => read_udp(source, target, payload.size, payload.bytes),
        FRAGMENT => read_fragment(target, payload.size, payload.bytes),
        _ => Carried::Other,
    }
}

/// Returns what the IPv6 packet at the start of the bytes carries.
#[tactic(auto, unfolding(crate::specs::Ipv6::ipv6_of))]
pub(crate) fn read_ipv6(bytes: &[u8]) -> Carried<'_>
    ensures { lent_carried result ≡ ipv6_of bytes.now }
{
    if bytes.len() < HEADER_LENGTH {
        return Carried::Other;
    }
    if bytes[0] / 16 != 6 {
        return Carried::Other;
    }
    let size = usize::from(BigEndian::read_u16(&bytes[SIZE_AT..]));
    let payload = Payload {
        next: bytes[NEXT_AT],
        size,
        bytes: part_at(bytes, HEADER_LENGTH, size),
    };
    read_payload(
        &bytes[SOURCE_AT..TARGET_AT],
        &bytes[TARGET_AT..HEADER_LENGTH],
        payload.after_extensions(),
    )
}
