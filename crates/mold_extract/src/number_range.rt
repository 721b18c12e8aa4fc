//! A range of sequence numbers.

ghost use Rattle.std.specs.Prelude.{◌≡◌};
ghost use Rattle.mold_extract.specs.Carried.{below_of, first_of};

/// Which messages are written, as in `DumpOptions` of `mold_show`.
#[derive(Clone, Copy, Debug, PartialEq, Eq)]
pub struct NumberRange {
    /// The sequence number of the first message that is written. 0 counts as 1.
    pub from: u64,
    /// The maximum number of messages that are written.
    pub count: u64,
}

impl NumberRange {
    /// Returns the first number of the range.
    pub(crate) fn first(self) -> u64
        ensures { result ≡ first_of self }
    {
        self.from.max(1)
    }

    /// Returns the number that follows the last one of the range, at most 2^64 - 1.
    pub(crate) fn below(self) -> u64
        ensures { result ≡ below_of self }
    {
        self.first().saturating_add(self.count)
    }
}
