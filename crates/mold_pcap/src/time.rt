//! The time of a frame.

/// The time at which a frame was captured, since the start of 1970 in UTC.
#[derive(Clone, Copy, Debug, PartialEq, Eq)]
pub struct FrameTime {
    /// The whole seconds.
    pub seconds: u64,
    /// The nanoseconds after them, less than 1,000,000,000.
    pub nanoseconds: u32,
}
