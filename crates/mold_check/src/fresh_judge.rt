//! The trait of judges that need nothing but an allocator.

ghost use Rattle.std.specs.Prelude.{◌≡◌};

use crate::judge::Judge;
use std::alloc::Global;

/// A judge that needs nothing but an allocator. An `EachCheck` makes one for each session.
pub trait FreshJudge: Judge {
    /// Returns a judge of no datagram. This allocates nothing.
    fn new(alloc: Global) -> Self
        ensures { result ≡ Self.judging.begins };
}
