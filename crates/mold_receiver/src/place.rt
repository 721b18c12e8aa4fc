//! The place of a stored message.

ghost use Rattle.std.specs.Prelude.{◌≡◌, None};
ghost use Rattle.mold_receiver.specs.Places.{place_of};

// No message block starts at this offset, so it marks an empty slot.
pub(crate) const NO_START: u32 = u32::MAX;

/// The segment of a stored message, and the offset where its block starts there. The block has the message's length.
/// A ring has many places, so a place has eight bytes.
#[derive(Clone, Copy)]
pub(crate) struct Place {
    pub segment: u32,
    pub start: u32,
}

impl Place {
    /// Returns what an empty slot has.
    pub(crate) fn none() -> Place
        ensures { place_of result ≡ None }
    {
        Place {
            segment: 0,
            start: NO_START,
        }
    }

    /// Returns the place, or `None` if it marks an empty slot.
    pub(crate) fn held(self) -> Option<Place>
        ensures { result ≡ place_of self }
    {
        if self.start < NO_START {
            Some(self)
        } else {
            None
        }
    }
}
