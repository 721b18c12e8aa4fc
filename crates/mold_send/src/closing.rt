//! How a publisher ends its session.

/// The number of heartbeats that are sent after the last message, and of end packets that are sent after them.
#[derive(Clone, Copy)]
pub(crate) struct Closing {
    pub(crate) beats: u32,
    pub(crate) ends: u32,
}
