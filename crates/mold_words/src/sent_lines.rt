//! The lines of `mold feed`.

use crate::address::Address;

/// The lines that `feed` sends a session on, and the addresses of this machine that it sends them from.
#[derive(Clone, Copy)]
pub struct SentLines {
    /// The address that line A is sent to. It may be a multicast group.
    pub a: Address,
    /// The address that line B is sent to, if there is a second line.
    pub b: Option<Address>,
    /// The IPv4 address that line A is sent from. With 0.0.0.0 the system chooses one.
    pub interface_a: [u8; 4],
    /// The same for line B. It is not used if there is no line B.
    pub interface_b: [u8; 4],
    /// The TTL of a datagram to a multicast group: it crosses fewer routers than this number. With 0 it does not leave this
    /// machine.
    pub ttl: u8,
}
