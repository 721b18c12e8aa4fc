//! Reads UDP datagrams.

ghost use Rattle.std.specs.Prelude.{◌≡◌};
ghost use Rattle.mold_frame.specs.Lent.{lent_carried};
ghost use Rattle.mold_frame.specs.Udp.{fragment_port, port_of, udp_in, udp_of};

use crate::carried::Carried;
use crate::datagram::Datagram;
use crate::target::Target;
use byteorder::{BigEndian, ByteOrder};

/// The protocol number of UDP.
pub(crate) const UDP: u8 = 17;

// The size of a UDP header in bytes, and of the two ports at its start.
const HEADER_LENGTH: usize = 8;

const PORTS_LENGTH: usize = 4;

// The offsets of the fields in a UDP header. The source port is at 0.
const TARGET_AT: usize = 2;

const SIZE_AT: usize = 4;

// Returns the destination port of the UDP header at the start of the bytes, or `None` if they are fewer than both ports
// have.
fn read_port(bytes: &[u8]) -> Option<u16>
    ensures { result ≡ port_of bytes.now }
{
    if bytes.len() < PORTS_LENGTH {
        return None;
    }
    Some(BigEndian::read_u16(&bytes[TARGET_AT..]))
}

/// Returns the destination port of a fragment whose bytes these are. Only the first fragment, at offset 0, has one.
pub(crate) fn read_fragment_port(offset: u16, bytes: &[u8]) -> Option<u16>
    ensures { result ≡ fragment_port offset bytes.now }
{
    if offset == 0 { read_port(bytes) } else { None }
}

// Returns the datagram at the start of the bytes, which are the whole payload of an IP packet.
#[tactic(auto, unfolding(crate::specs::Udp::udp_of))]
fn read_whole<'a>(source: &'a [u8], target: &'a [u8], bytes: &'a [u8]) -> Carried<'a>
    ensures { lent_carried result ≡ udp_of source.now target.now bytes.now }
{
    if bytes.len() < HEADER_LENGTH {
        return Carried::Other;
    }
    let size = usize::from(BigEndian::read_u16(&bytes[SIZE_AT..]));
    if size < HEADER_LENGTH || bytes.len() < size {
        return Carried::Other;
    }
    Carried::Whole(Datagram {
        source,
        source_port: BigEndian::read_u16(bytes),
        target,
        target_port: BigEndian::read_u16(&bytes[TARGET_AT..]),
        payload: &bytes[HEADER_LENGTH..size],
    })
}

/// Returns the datagram in an IP payload of `size` bytes, of which the capture has `bytes`. If they are fewer, the
/// datagram is cut.
#[tactic(auto, unfolding(crate::specs::Udp::udp_in))]
pub(crate) fn read_udp<'a>(
    source: &'a [u8],
    target: &'a [u8],
    size: usize,
    bytes: &'a [u8],
) -> Carried<'a>
    ensures { lent_carried result ≡ udp_in source.now target.now size bytes.now }
{
    if bytes.len() < size {
        return Carried::Cut(Target {
            address: target,
            port: read_port(bytes),
        });
    }
    read_whole(source, target, bytes)
}
