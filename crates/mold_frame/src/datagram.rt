//! The type of a UDP datagram.

/// A UDP datagram that borrows the frame from which it was read. An address has 4 bytes (IPv4) or 16 bytes (IPv6), in
/// the order of the packet, and both addresses have the same length.
#[derive(Clone, Copy, Debug, PartialEq, Eq)]
pub struct Datagram<'a> {
    /// The source address.
    pub source: &'a [u8],
    /// The source port. It is 0 if the sender has none.
    pub source_port: u16,
    /// The destination address.
    pub target: &'a [u8],
    /// The destination port.
    pub target_port: u16,
    /// The bytes after the UDP header, 0 to 65,527 of them. Padding of the frame is not part of it.
    pub payload: &'a [u8],
}
