//! The type of a destination.

/// The destination of a datagram that is not whole in its frame.
#[derive(Clone, Copy, Debug, PartialEq, Eq)]
pub struct Target<'a> {
    /// The destination address: 4 bytes (IPv4) or 16 bytes (IPv6), in the order of the packet.
    pub address: &'a [u8],
    /// The destination port, if the frame has it.
    pub port: Option<u16>,
}
