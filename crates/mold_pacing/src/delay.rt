//! A delay between the lines, and the line that was late.

ghost use Rattle.std.specs.Prelude.{◌≡◌};
ghost use Rattle.mold_pacing.specs.Delays.{delay_of, delay_on, span_of};

use crate::mark::{LINES, TIMES};

// The greatest index of a line.
pub(crate) const LAST_LINE: u64 = 2;

/// A delay between the lines, in 8 bytes: how much later the second line brought a datagram, and which line that was.
#[derive(Clone, Copy)]
pub struct Delay {
    /// Four times the delay in nanoseconds, plus 1, plus the line's index. It is 0 if there is no delay.
    pub stamp: u64,
}

impl Delay {
    /// Returns the delay of this line. `span` is its length in nanoseconds.
    #[inline(always)]
    pub(crate) fn new(span: u64, line: u32) -> Delay
        ensures { result ≡ delay_of span line }
    {
        Delay {
            stamp: span % TIMES * LINES + 1 + u64::from(line).min(LAST_LINE),
        }
    }

    /// Returns the length in nanoseconds, or 0 if there is no delay.
    #[inline(always)]
    pub(crate) fn span(self) -> u64
        ensures { result ≡ span_of self }
    {
        self.stamp / LINES
    }

    /// Returns the length if the delay is of this line, and otherwise 0.
    pub(crate) fn span_on(self, line: u32) -> u64
        ensures { result ≡ delay_on line self }
    {
        if self.stamp % LINES == u64::from(line) + 1 {
            self.span()
        } else {
            0
        }
    }
}
