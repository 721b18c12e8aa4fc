//! The iterator over the messages of a list.

use crate::part::part;
use std::marker::Model;

/// An iterator over the messages of a list, in order. Each item is a slice of the list's bytes and is valid
/// as long as the list is borrowed.
#[derive(Drop)]
pub struct MessageIterator<'a> {
    // The number of bytes before each message that belong to none.
    spacing: usize,
    // The offset at which the previous message ends.
    start: usize,
    // The offsets at which the remaining messages end.
    ends: &'a [usize],
    // The bytes of all messages of the list.
    bytes: &'a [u8],
}

impl<'a> Model for MessageIterator<'a> {
    ghost use Rattle.std.specs.Prelude.{ℕ, List, length};
    ghost use Rattle.mold_messages.specs.Offsets.{pieces, IsRising};

    ghost Value = { List (List ℕ) };

    ghost view = { λ m. pieces m.spacing m.start m.ends.now m.bytes.now };

    ghost invariant = { λ m. IsRising m.spacing m.start m.ends.now (length m.bytes.now) };
}

impl<'a> MessageIterator<'a> {
    ghost use Rattle.std.specs.Prelude.{◌≡◌, length};
    ghost use Rattle.mold_messages.specs.Offsets.{pieces, IsRising};

    pub(crate) fn new(
        spacing: usize,
        start: usize,
        ends: &'a [usize],
        bytes: &'a [u8],
    ) -> MessageIterator<'a>
        requires { IsRising spacing start ends.now (length bytes.now) }
        ensures { result ≡ pieces spacing start ends.entry.now bytes.entry.now }
    {
        MessageIterator {
            spacing,
            start,
            ends,
            bytes,
        }
    }
}

impl<'a> Iterator for MessageIterator<'a> {
    ghost use Rattle.std.specs.Iterator.{YieldsFirstRef, item_count};

    type Item = &'a [u8];

    ghost next_gives = { YieldsFirstRef (λ s. s) };

    ghost remaining = { item_count (λ s. s) };

    fn next(&mut self) -> Option<&'a [u8]> {
        let (end, ends) = self.ends.split_first()?;
        let message = part(self.bytes, self.start + self.spacing, *end);
        self.start = *end;
        self.ends = ends;
        Some(message)
    }
}
