//! The iterator over carried messages with consecutive numbers.

use crate::kept::Kept;
use std::marker::Model;

/// An iterator over carried messages with consecutive numbers, in order. Each item is a slice that is valid as long as
/// the checker is borrowed.
#[derive(Drop)]
pub struct CarriedMessages<'a> {
    kept: &'a Kept,
    // The index of the next message in the list of kept messages.
    next: usize,
    // The number of remaining messages.
    left: usize,
}

impl<'a> Model for CarriedMessages<'a> {
    ghost use Rattle.std.specs.Prelude.{ℕ, List, ◌+◌, ◌<◌, ◌≤◌, ◌^◌, length, take, drop};

    ghost Value = { List (List ℕ) };

    ghost view = { λ m. take m.left (drop m.next m.kept.now) };

    ghost invariant = { λ m. (m.next + m.left ≤ length m.kept.now) × (m.next + m.left < 2 ^ 64) };
}

impl<'a> CarriedMessages<'a> {
    ghost use Rattle.std.specs.Prelude.{◌≡◌, ◌+◌, ◌<◌, ◌≤◌, ◌^◌, length, take, drop};

    pub(crate) fn new(kept: &'a Kept, next: usize, left: usize) -> CarriedMessages<'a>
        requires within { next + left ≤ length kept.now }
        requires few { next + left < 2 ^ 64 }
        ensures { result ≡ take left (drop next kept.entry.now) }
    {
        CarriedMessages { kept, next, left }
    }

    /// Returns the number of remaining messages, in constant time.
    pub fn len(&self) -> usize
        ensures { result ≡ length self.now }
    {
        self.left
    }
}

impl<'a> Iterator for CarriedMessages<'a> {
    ghost use Rattle.std.specs.Iterator.{YieldsFirstRef, item_count};

    type Item = &'a [u8];

    ghost next_gives = { YieldsFirstRef (λ s. s) };

    ghost remaining = { item_count (λ s. s) };

    fn next(&mut self) -> Option<&'a [u8]> {
        if self.left == 0 {
            return None;
        }
        let message = self.kept.get(self.next)?;
        self.next += 1;
        self.left -= 1;
        Some(message)
    }
}
