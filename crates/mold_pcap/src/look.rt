//! What the next part of a capture is.

use crate::fault::CaptureFault;
use crate::next::Next;
use crate::place::Place;

/// The next part of a capture, as its first bytes show it.
#[derive(Clone, Copy)]
pub enum Look {
    /// More bytes are needed: `need` bytes of the part, which is more than are available.
    Short { need: usize },
    /// The part has this fault.
    Refused { why: CaptureFault },
    /// The reader is spent.
    Ended,
    /// A part of `used` bytes without a frame.
    Passed { next: Next, used: usize },
    /// A block of another kind, with this total length. The length at its end is not checked yet, and the capture may
    /// end within it.
    Other { total: usize },
    /// A part of `used` bytes with a frame.
    Framed { place: Place, used: usize },
}
