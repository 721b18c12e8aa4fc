//! The trait of parts of lines: the bytes of a line that have been read, before it is known where the line ends.

ghost use Rattle.std.specs.Prelude.{◌≡◌, ◌++◌, ◌==◌, ℕ, List, [], length, OnOk};
ghost use Rattle.mold_input.specs.LongLines.{IsSameStart};

use std::alloc::AllocError;

/// The part of a line that has been read. It may keep other bytes than those that were read, if the line means the same
/// with them, whatever follows.
pub trait Part: Drop {
    // What a line can mean.
    ghost Meaning: { Type 0 };

    // What a line means.
    ghost meaning: { List ℕ → Meaning };

    // The bytes that the part keeps.
    ghost bytes: { Self → List ℕ };

    /// Removes all bytes.
    fn clear(&mut self)
        ensures { bytes self.new ≡ [] };

    /// Returns whether no byte has been read.
    fn is_empty(&self) -> bool
        ensures { result ≡ (length (bytes self.now) == 0) };

    /// Adds bytes of the line. It fails if an allocation fails, or if there are more bytes than can be counted.
    fn add(&mut self, more: &[u8]) -> Result<(), AllocError>
        ensures { OnOk result (IsSameStart meaning (bytes self.new) (bytes self.old ++ more.now)) };
}
