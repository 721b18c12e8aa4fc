//! What a step returned.

use crate::ask::Ask;
use mold_pacing::Gap;

/// What a step returned, and the numbers of the messages that it delivered.
#[derive(Clone, Copy, PartialEq, Eq)]
pub struct Outcome {
    /// The request, if the step was a poll that returned one.
    pub ask: Option<Ask>,
    /// The numbers of the messages that were given up, if there were any.
    pub lost: Option<Gap>,
    /// The numbers of the messages that were delivered. The range is empty if there were none.
    pub delivered: Gap,
}
