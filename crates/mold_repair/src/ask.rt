//! A request to send.

use mold_wire::Request;

/// A request to send now, to this server.
#[derive(Clone, Copy, PartialEq, Eq)]
pub struct Ask {
    /// The request. It asks for at least one message.
    pub request: Request,
    /// The server's index, from 0.
    pub server: u32,
}
