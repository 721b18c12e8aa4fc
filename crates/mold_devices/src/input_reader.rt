//! The trait of readers that split the bytes of a source into parts.

ghost use Rattle.std.specs.Prelude.{◌≡◌, ℕ, List, [], IfOk};

use std::alloc::{AllocError, Global};

/// A reader that splits the bytes of a source into parts, such as lines.
pub trait InputReader: Drop {
    // The bytes that were read from the source and belong to later parts.
    ghost unread: { Self → List ℕ };

    /// Makes a reader that has read nothing yet. It fails if the allocation of its buffers fails.
    fn new(alloc: Global) -> Result<Self, AllocError>
        ensures { IfOk result (λ reader. unread reader ≡ []) };
}
