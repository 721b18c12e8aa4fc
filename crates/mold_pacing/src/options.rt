//! The options of a pacer.

ghost use Rattle.std.specs.Prelude.{◌<◌, ◌≤◌, ◌^◌};

/// What a pacer keeps to. Times are in nanoseconds.
#[derive(Clone, Copy)]
pub struct PacerOptions {
    /// How long a number has to be known before it may be requested, until `Pacer::adapt` changes it. A missing number
    /// waits one to two patiences.
    pub patience: u64,
    /// How long a request waits for a response before it is sent again.
    pub timeout: u64,
    /// The longest wait for a response. Each request without a response waits twice as long as the one before it.
    pub ceiling: u64,
    /// How long a request stays in flight after a response that did not bring all of its numbers.
    pub settle: u64,
    /// The time after which another request may be sent.
    pub interval: u64,
    /// How much earlier a request may be sent: `interval` times the number of requests that may be sent at once, less
    /// one.
    pub tolerance: u64,
    /// The greatest number of messages that one request asks for. If the servers send fewer, the pacer asks for fewer.
    pub most: u32,
    /// The greatest number of requests in flight.
    pub places: u32,
    /// The number of servers.
    pub servers: u32,
    ghost times: { (patience < 2 ^ 62) × (settle < 2 ^ 62) × (interval < 2 ^ 62) × (tolerance < 2 ^ 62) },
    ghost settles: { 0 < settle },
    ghost waits: { (0 < timeout) × (timeout ≤ ceiling) × (ceiling < 2 ^ 62) },
    ghost asks: { (0 < most) × (0 < places) × (places ≤ 4096) × (0 < servers) },
}
