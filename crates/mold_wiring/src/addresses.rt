//! Addresses of ports in the form that the system takes.

ghost use Rattle.mold_wiring.specs.Addresses.{IsPeerOf, IsSocketOf};

use mold_words::Address;
use std::net::{Ipv4Addr, SocketAddr, SocketAddrV4};

/// Returns the address in the form that the system takes.
pub fn socket_address(address: Address) -> SocketAddrV4
    ensures { IsSocketOf address result }
{
    SocketAddrV4::new(Ipv4Addr::from_octets(address.host), address.port)
}

/// Returns the address as a `SocketAddr`, the type of a peer that a port sends datagrams to.
pub fn peer_address(address: Address) -> SocketAddr
    ensures { IsPeerOf address result }
{
    SocketAddr::V4(socket_address(address))
}
