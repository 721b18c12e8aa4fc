//! How a port of a set was opened.

use std::net::SocketAddrV4;

/// How a port of a set was opened.
#[derive(Clone, Copy, PartialEq, Eq)]
pub enum Opened {
    /// At an address of this machine. Its port number may be 0.
    Bound(SocketAddrV4),
    /// From a descriptor that the process was started with.
    Adopted(u16),
}
