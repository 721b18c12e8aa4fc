//! A request to send.

/// A request to send now: for the numbers from `first` to `end - 1`, to this server.
#[derive(Clone, Copy, PartialEq, Eq)]
pub struct Ask {
    /// The first number to request.
    pub first: u64,
    /// One more than the last number to request.
    pub end: u64,
    /// The server's index, from 0.
    pub server: u32,
}
