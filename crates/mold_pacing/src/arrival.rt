//! A datagram that a line brought.

ghost use Rattle.std.specs.Prelude.{◌≡◌};
ghost use Rattle.mold_pacing.specs.Delays.{mark_of};

use crate::mark::{LINES, Mark, TIMES};

/// A datagram that a line brought.
#[derive(Clone, Copy)]
pub struct Arrival {
    /// The number of its first message.
    pub first: u64,
    /// One more than the number of its last message.
    pub end: u64,
    /// The time at which it arrived, in nanoseconds. It is below 2^62.
    pub time: u64,
    /// The index of the line: 0, 1 or 2.
    pub line: u32,
}

impl Arrival {
    /// Returns the mark that is kept of the arrival.
    #[inline(always)]
    pub(crate) fn mark(self) -> Mark
        ensures { result ≡ mark_of self }
    {
        Mark {
            end: self.end,
            stamp: self.time % TIMES * LINES + u64::from(self.line) % LINES,
        }
    }
}
