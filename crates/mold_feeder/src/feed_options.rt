//! The options of the loop of a publisher over ports.

use crate::feed_end::FeedEnd;
use crate::feed_lines::FeedLines;

/// The options of the loop of a publisher over ports.
#[derive(Clone, Copy)]
pub struct FeedOptions<P: Copy> {
    /// The addresses of the lines.
    pub lines: FeedLines<P>,
    /// What is sent at the end of the input, and whether the session stays open.
    pub end: FeedEnd,
    /// Whether the journal existed before. Then the number of its messages is printed first, and a heartbeat or an end
    /// packet is sent.
    pub resumed: bool,
    /// Whether the input continues after the journal's messages. Otherwise it begins with them.
    pub appends: bool,
    /// How many milliseconds requests are answered after the end.
    pub linger: u32,
}
