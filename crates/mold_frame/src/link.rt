//! Reads the frames of each link type.

ghost use Rattle.std.specs.Prelude.{◌≡◌, ◌≤◌, ◌+◌};
ghost use Rattle.mold_frame.specs.Lent.{lent_carried};
ghost use Rattle.mold_frame.specs.Link.{carried, headed_of, ip_of, loopback_of, protocol_of};

use crate::carried::Carried;
use crate::ipv4::read_ipv4;
use crate::ipv6::read_ipv6;
use crate::tagged::Tagged;
use byteorder::{BigEndian, ByteOrder};

// The numbers of the link types.
const LOOPBACK: u16 = 0;

const ETHERNET: u16 = 1;

const RAW_IP: u16 = 101;

const OPEN_LOOPBACK: u16 = 108;

const COOKED: u16 = 113;

const RAW_IPV4: u16 = 228;

const RAW_IPV6: u16 = 229;

const COOKED_2: u16 = 276;

// The size in bytes of the address family before a packet of a BSD loopback.
const FAMILY_LENGTH: usize = 4;

// The protocol numbers of IP.
const IPV4: u16 = 0x0800;

const IPV6: u16 = 0x86dd;

// Returns what the packet of this protocol carries.
#[tactic(auto, unfolding(crate::specs::Link::protocol_of))]
fn read_protocol(protocol: u16, bytes: &[u8]) -> Carried<'_>
    ensures { lent_carried result ≡ protocol_of protocol bytes.now }
{
    match protocol {
        IPV4 => read_ipv4(bytes),
        IPV6 => read_ipv6(bytes),
        _ => Carried::Other,
    }
}

// Returns what a frame carries with a header of `header` bytes, of which those at offset `at` are the protocol number.
#[tactic(auto, unfolding(crate::specs::Link::headed_of))]
fn read_headed(header: usize, at: usize, bytes: &[u8]) -> Carried<'_>
    requires { at + 2 ≤ header }
    ensures { lent_carried result ≡ headed_of header at bytes.now }
{
    if bytes.len() < header {
        return Carried::Other;
    }
    let tagged = Tagged {
        protocol: BigEndian::read_u16(&bytes[at..]),
        bytes: &bytes[header..],
    };
    let packet = tagged.after_tags();
    read_protocol(packet.protocol, packet.bytes)
}

// Returns what the IP packet at the start of the bytes carries, by its version.
#[tactic(auto, unfolding(crate::specs::Link::ip_of))]
fn read_ip(bytes: &[u8]) -> Carried<'_>
    ensures { lent_carried result ≡ ip_of bytes.now }
{
    if bytes.is_empty() {
        return Carried::Other;
    }
    match bytes[0] / 16 {
        4 => read_ipv4(bytes),
        6 => read_ipv6(bytes),
        _ => Carried::Other,
    }
}

// Returns what the IP packet after the address family carries.
#[tactic(auto, unfolding(crate::specs::Link::loopback_of))]
fn read_loopback(bytes: &[u8]) -> Carried<'_>
    ensures { lent_carried result ≡ loopback_of bytes.now }
{
    if bytes.len() < FAMILY_LENGTH {
        return Carried::Other;
    }
    read_ip(&bytes[FAMILY_LENGTH..])
}

/// Returns what a captured frame of this link type carries, in one pass, without a copy or an allocation. `bytes` are
/// those that the capture has of the frame. The link types that are read are Ethernet (1) and Linux cooked (113, 276)
/// with at most two VLAN tags, raw IP (101), IPv4 (228), IPv6 (229) and BSD loopback (0, 108). At most 8 extension
/// headers of IPv6 are passed over. Checksums are not verified.
#[tactic(auto, unfolding(crate::specs::Link::carried))]
pub fn read_frame(link: u16, bytes: &[u8]) -> Carried<'_>
    ensures { lent_carried result ≡ carried link bytes.now }
{
    match link {
        ETHERNET => read_headed(14, 12, bytes),
        RAW_IP => read_ip(bytes),
        RAW_IPV4 => read_ipv4(bytes),
        RAW_IPV6 => read_ipv6(bytes),
        COOKED => read_headed(16, 14, bytes),
        COOKED_2 => read_headed(20, 0, bytes),
        LOOPBACK | OPEN_LOOPBACK => read_loopback(bytes),
        _ => Carried::Unread,
    }
}
