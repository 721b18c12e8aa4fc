//! The options of a publisher.

/// The options of a publisher.
#[derive(Clone, Copy)]
pub struct PublishOptions<P: Copy> {
    /// The address that line A is sent to.
    pub a: P,
    /// The address that line B is sent to.
    pub b: P,
    /// The number of heartbeats that are sent after the last message.
    pub beats: u32,
    /// The number of end packets that are sent after the heartbeats.
    pub ends: u32,
}
