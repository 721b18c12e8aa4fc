//! What is kept of a datagram that a line brought.

ghost use Rattle.std.specs.Prelude.{◌≡◌, ◌<◌};
ghost use Rattle.mold_pacing.specs.Delays.{is_same, line_of, of_both, slot_of, time_of};

use crate::arrival::Arrival;

/// The count of marks that are kept. The mark of a number has its slot by the number modulo this count.
pub(crate) const SLOTS: u64 = 65_536;

// Each of this many consecutive numbers has its slot in another part of the table, in turn.
const PARTS: u16 = 8;

// The slots of a part.
const PART: u16 = 8_192;

/// One more than the greatest time that a mark keeps, in nanoseconds.
pub(crate) const TIMES: u64 = 1 << 62;

/// How many values the line of a mark has.
pub(crate) const LINES: u64 = 4;

/// The line in the mark of a datagram that both lines brought.
pub(crate) const BOTH: u64 = 3;

/// What is kept of an arrival, in 16 bytes. Its slot and `end` determine its first number, because a datagram has fewer
/// than 65,536 messages.
#[derive(Clone, Copy)]
pub struct Mark {
    /// One more than the number of its last message.
    pub end: u64,
    /// Four times the time, plus the line.
    pub stamp: u64,
}

/// Returns the index of the mark for a datagram with this first number.
// For the optimizer: the arithmetic on 16 bits is one rotation. The slots of numbers at a distance of 2, 4 or 8 are
// together, so that the marks of datagrams with many messages need little of the cache.
#[inline(always)]
pub(crate) fn slot_of(first: u64) -> usize
    ensures is { result ≡ slot_of first }
    ensures within { result < SLOTS }
{
    let place = (first % SLOTS) as u16;
    usize::from(place / PARTS + place % PARTS * PART)
}

impl Mark {
    /// Returns the time at which the datagram arrived first.
    #[inline(always)]
    pub(crate) fn time(self) -> u64
        ensures { result ≡ time_of self }
    {
        self.stamp / LINES
    }

    /// Returns the line that brought the datagram.
    #[inline(always)]
    pub(crate) fn line(self) -> u64
        ensures { result ≡ line_of self }
    {
        self.stamp % LINES
    }

    /// Returns whether the arrival is of the same datagram.
    #[inline(always)]
    pub(crate) fn is_same(self, arrival: Arrival) -> bool
        ensures { result ≡ is_same self arrival }
    {
        self.end == arrival.end
    }

    /// Returns the mark after both lines brought the datagram.
    #[inline(always)]
    pub(crate) fn of_both(self) -> Mark
        ensures { result ≡ of_both self }
    {
        Mark {
            stamp: self.time() * LINES + BOTH,
            ..self
        }
    }
}
