//! The address of a UDP port.

/// The IPv4 address and the number of a UDP port.
#[derive(Clone, Copy)]
pub struct Address {
    /// The four bytes of the IPv4 address, in the order in which they are written.
    pub host: [u8; 4],
    /// The port number. With 0 the system chooses one.
    pub port: u16,
}
