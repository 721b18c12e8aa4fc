//! The times of `mold feed`.

ghost use Rattle.std.specs.Prelude.{◌≤◌};

/// When `feed` sends messages and heartbeats, and how long it responds to requests.
#[derive(Clone, Copy)]
pub struct FeedTimes {
    /// The time without a datagram on the lines after which a heartbeat is sent, in milliseconds, 0 to 60,000. With 0
    /// none is sent.
    pub idle: u32,
    /// The maximum number of messages in a second, 0 to 10,000,000. With 0 there is no maximum.
    pub rate: u32,
    /// How long requests are responded to after the input has ended, in milliseconds, 0 to 86,400,000.
    pub linger: u32,
    ghost idling: { idle ≤ 60000 },
    ghost rated: { rate ≤ 10000000 },
    ghost lingering: { linger ≤ 86400000 },
}
