//! The ports of a listener.

use mold_ports::Datagrams;

/// The ports of a listener: one for each line, and one that requests are sent from.
#[derive(Drop)]
pub struct ListenPorts<D: Datagrams + Drop> {
    /// The port that line A is received on.
    pub a: D,
    /// The port that line B is received on.
    pub b: D,
    /// The port that requests are sent from and responses are received on.
    pub requests: D,
}
