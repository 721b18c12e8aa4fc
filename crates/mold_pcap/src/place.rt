//! The place of a frame.

ghost use Rattle.std.specs.Prelude.{◌≡◌};
ghost use Rattle.mold_pcap.specs.declared.stamp.Stamp.TheVariants.{Absent};

use crate::stamp::Stamp;

/// A frame within a part.
#[derive(Clone, Copy)]
pub struct Place {
    /// The link type of the frame.
    pub link: u16,
    /// The offset of the frame in the part.
    pub start: usize,
    /// The number of its captured bytes.
    pub len: usize,
    /// Its time.
    pub stamp: Stamp,
}

impl Place {
    /// Returns the place of an empty frame without a time.
    pub fn empty() -> Place
        ensures { result ≡ record { link = 0; start = 0; len = 0; stamp = Absent } }
    {
        Place {
            link: 0,
            start: 0,
            len: 0,
            stamp: Stamp::Absent,
        }
    }
}
