//! A request in flight.

/// A request that was sent. Until `until` it is in flight. After that its record remains, so that the next request for
/// one of its numbers waits longer and goes to the next server.
#[derive(Clone, Copy)]
pub struct Flight {
    /// The first number that was requested.
    pub first: u64,
    /// One more than the last number that was requested.
    pub end: u64,
    /// The time at which the request is no longer in flight.
    pub until: u64,
    /// How long the request was to wait for a response. A response sets it to 0.
    pub pause: u64,
    /// The server to which the request was sent.
    pub server: u32,
    /// How many requests in a row had no response, up to this one. A response sets it to 0.
    pub attempts: u32,
    /// One more than the greatest number of its responses, or `first` without a response.
    pub reached: u64,
}
