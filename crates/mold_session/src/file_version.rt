//! The versions of a journal's file.

ghost use Rattle.std.specs.Prelude.{◌≡◌};
ghost use Rattle.mold_session.specs.Loading.{has_records, stated_count, version_number};

/// The version of a file, and what the head of version 2 states besides.
#[derive(Clone, Copy)]
pub enum FileVersion {
    /// Version 1: message blocks up to the end of the file.
    One,
    /// Version 2: message blocks. The head states their number.
    Two { count: u64 },
    /// Version 3: records.
    Three,
}

impl FileVersion {
    /// Returns the number of the version, from 1 to 3.
    pub fn number(self) -> u8
        ensures { result ≡ version_number self }
    {
        match self {
            FileVersion::One => 1,
            FileVersion::Two { .. } => 2,
            FileVersion::Three => 3,
        }
    }

    /// Returns whether the messages are in records. Otherwise they are in blocks.
    pub fn has_records(self) -> bool
        ensures { result ≡ has_records self }
    {
        match self {
            FileVersion::One | FileVersion::Two { .. } => false,
            FileVersion::Three => true,
        }
    }

    // The number of messages that the head states, or `found` if it states none.
    pub(crate) fn stated_count(self, found: u64) -> u64
        ensures { result ≡ stated_count self found }
    {
        match self {
            FileVersion::One | FileVersion::Three => found,
            FileVersion::Two { count } => count,
        }
    }
}
