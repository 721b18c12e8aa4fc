//! How a file is laid out.

ghost use Rattle.std.specs.Prelude.{◌≡◌};
ghost use Rattle.mold_index.specs.Layouts.{layout_of};

use mold_session::FileVersion;

/// How a file is laid out: the messages follow each other after a head, and each takes a few bytes besides its own.
#[derive(Clone, Copy)]
pub struct Layout {
    /// The offset at which the first message begins: the length of the head in bytes.
    pub start: u16,
    /// The number of bytes that each message takes besides its own. They precede it, and include its length.
    pub overhead: u16,
}

impl Layout {
    /// Returns the layout of a journal's file of this version.
    pub fn of(version: FileVersion) -> Layout
        ensures { result ≡ layout_of version }
    {
        match version {
            FileVersion::One => Layout {
                start: 18,
                overhead: 2,
            },
            FileVersion::Two { .. } => Layout {
                start: 27,
                overhead: 2,
            },
            FileVersion::Three => Layout {
                start: 18,
                overhead: 4,
            },
        }
    }
}
