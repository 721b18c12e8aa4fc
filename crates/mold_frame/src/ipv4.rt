//! Reads IPv4 packets.

ghost use Rattle.std.specs.Prelude.{◌≡◌, ◌≤◌, ◌&&◌, length, IsTrue};
ghost use Rattle.mold_frame.specs.Ipv4.{fragment_field, ipv4_of, ipv4_part, ipv4_payload, is_ipv4_udp};
ghost use Rattle.mold_frame.specs.Lent.{lent_carried};
ghost use Rattle.mold_frame.specs.declared.ipv4.TheConstants.{HEADER_LENGTH};

use crate::carried::Carried;
use crate::part::part_at;
use crate::target::Target;
use crate::udp::{UDP, read_fragment_port, read_udp};
use byteorder::{BigEndian, ByteOrder};

// The size in bytes of a header without options.
const HEADER_LENGTH: usize = 20;

// The offsets of the fields in a header.
const TOTAL_AT: usize = 2;

const FRAGMENT_AT: usize = 6;

const PROTOCOL_AT: usize = 9;

const SOURCE_AT: usize = 12;

const TARGET_AT: usize = 16;

// The fragment's field has two flags above the flag "more fragments", and that flag above the offset.
const BELOW_FLAGS: u16 = 16384;

const BELOW_MORE: u16 = 8192;

// Returns the fragment field of a header, without the flags above "more fragments".
#[tactic(auto, unfolding(crate::specs::Ipv4::fragment_field))]
fn fragment_field(header: &[u8]) -> u16
    requires { HEADER_LENGTH ≤ length header.now }
    ensures { result ≡ fragment_field header.now }
{
    BigEndian::read_u16(&header[FRAGMENT_AT..]) % BELOW_FLAGS
}

// Returns what a UDP packet with this fragment field carries. Its payload has `size` bytes, of which the capture has
// `payload`.
#[tactic(auto, unfolding(crate::specs::Ipv4::ipv4_part))]
fn read_part<'a>(
    field: u16,
    source: &'a [u8],
    target: &'a [u8],
    size: usize,
    payload: &'a [u8],
) -> Carried<'a>
    ensures { lent_carried result ≡ ipv4_part field source.now target.now size payload.now }
{
    if field == 0 {
        return read_udp(source, target, size, payload);
    }
    Carried::Fragment(Target {
        address: target,
        port: read_fragment_port(field % BELOW_MORE, payload),
    })
}

// Returns what a UDP packet with this header carries.
#[tactic(auto, unfolding(crate::specs::Ipv4::ipv4_payload))]
fn read_payload<'a>(header: &'a [u8], size: usize, payload: &'a [u8]) -> Carried<'a>
    requires { HEADER_LENGTH ≤ length header.now }
    ensures { lent_carried result ≡ ipv4_payload header.now size payload.now }
{
    let source = &header[SOURCE_AT..TARGET_AT];
    let target = &header[TARGET_AT..HEADER_LENGTH];
    read_part(fragment_field(header), source, target, size, payload)
}

// Whether the packet has a UDP datagram or a part of one, and its header without options is there.
fn is_udp(bytes: &[u8]) -> bool
    ensures exact { result ≡ is_ipv4_udp bytes.now }
    ensures header { IsTrue result → HEADER_LENGTH ≤ length bytes.now }
{
    bytes.len() >= HEADER_LENGTH && bytes[0] / 16 == 4 && bytes[PROTOCOL_AT] == UDP
}

/// Returns what the IPv4 packet at the start of the bytes carries.
#[tactic(auto, unfolding(crate::specs::Ipv4::ipv4_of))]
pub(crate) fn read_ipv4(bytes: &[u8]) -> Carried<'_>
    ensures { lent_carried result ≡ ipv4_of bytes.now }
{
    if !is_udp(bytes) {
        return Carried::Other;
    }
    let start = 4 * usize::from(bytes[0] % 16);
    let total = usize::from(BigEndian::read_u16(&bytes[TOTAL_AT..]));
    if start < HEADER_LENGTH || total < start {
        return Carried::Other;
    }
    let size = total - start;
    read_payload(bytes, size, part_at(bytes, start, size))
}
