//! An interface of pcapng.

use crate::clock::Clock;

/// An interface that a section describes.
#[derive(Clone, Copy)]
pub struct Interface {
    /// The link type of its frames.
    pub link: u16,
    /// The greatest number of bytes that are captured of a frame. 0 is no limit.
    pub snaplen: u32,
    /// How it counts time.
    pub clock: Clock,
}
