//! An IPv4 address as the bytes of C's `sockaddr_in`.

ghost use Rattle.std.specs.Prelude.{◌≡◌, ◌++◌, IfSome, replicate};
ghost use Rattle.std.specs.Net.Addr.{HasPrefix};
ghost use Rattle.std.specs.Net.SockAddr.{sockaddr_in};

use libc::net::{_SS_SIZE, AF_INET};
use std::net::{Ipv4Addr, SocketAddrV4};

/// The number of bytes of a `sockaddr_in`.
pub(crate) const ADDRESS_LENGTH: u32 = 16;

/// The number of bytes in which each address fits.
pub(crate) const STORAGE_LENGTH: u32 = _SS_SIZE as u32;

/// Memory for an address of any family.
pub(crate) type Storage = [u8; _SS_SIZE];

/// Returns the bytes of an address.
pub(crate) fn encode(address: SocketAddrV4) -> Storage
    ensures { result ≡ sockaddr_in address ++ replicate 120 0 }
{
    let mut raw = [0u8; _SS_SIZE];
    let (start, ip) = raw.split_at_mut(4);
    start[..2].copy_from_slice(&(AF_INET as u16).to_ne_bytes());
    start[2..].copy_from_slice(&address.port().to_be_bytes());
    ip[..4].copy_from_slice(&address.ip().octets());
    raw
}

/// Returns the address of these bytes, or `None` if it is not an IPv4 address.
pub(crate) fn decode(raw: &Storage) -> Option<SocketAddrV4>
    ensures { IfSome result (λ address. HasPrefix raw.now (sockaddr_in address)) }
{
    if i32::from(u16::from_ne_bytes([raw[0], raw[1]])) != AF_INET {
        return None;
    }
    let ip = Ipv4Addr::new(raw[4], raw[5], raw[6], raw[7]);
    Some(SocketAddrV4::new(ip, u16::from_be_bytes([raw[2], raw[3]])))
}
