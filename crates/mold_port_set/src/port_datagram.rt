//! A datagram at a port of a set in memory.

/// A datagram that a set of ports in memory gave or sent.
#[derive(Drop)]
pub struct PortDatagram {
    /// The index of the port.
    pub port: usize,
    /// Its bytes.
    pub bytes: Vec<u8>,
}
