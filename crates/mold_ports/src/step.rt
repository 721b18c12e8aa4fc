//! The steps of the script of a port in memory.

/// What one receive of a port in memory gives.
#[derive(Drop)]
pub enum Step {
    /// A datagram from the peer `from`.
    Come { from: u32, bytes: Vec<u8> },
    /// Nothing within the port's time.
    Quiet,
    /// A device fault.
    Fail,
}
