//! Why the loop of a publisher over ports ended.

use crate::compared::Compared;
use mold_publish::MessageRefusal;

/// Why the loop of a publisher over ports ended.
#[derive(Clone, Copy)]
pub enum FeedStop {
    /// The entry of this number is not the journal's message, or the input ended before it.
    Other {
        number: u64,
        compared: Compared,
    },
    /// The entry of this number is refused.
    Refused {
        number: u64,
        refusal: MessageRefusal,
    },
    /// The input ended.
    Ended,
}
