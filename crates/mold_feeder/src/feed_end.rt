//! How a publisher over ports ends its session.

/// What a publisher sends at the end of its input, and whether its session stays open.
#[derive(Clone, Copy)]
pub struct FeedEnd {
    /// The number of heartbeats that are sent after the last message.
    pub beats: u32,
    /// The number of end packets that are sent once the session is closed.
    pub ends: u32,
    /// Whether an open session stays open.
    pub stays_open: bool,
}
