//! The iterator over the messages of a data packet.

ghost use Rattle.std.specs.Prelude.{◌≡◌, ◌==◌, [], length};

use crate::block::split_block;
use std::marker::Model;

/// An iterator over the messages of a data packet, in order. Each item is a slice of the datagram.
#[derive(Clone, Debug, Drop)]
pub struct Messages<'a> {
    left: u16,
    bytes: &'a [u8],
}

impl<'a> Model for Messages<'a> {
    ghost use Rattle.std.specs.Prelude.{ℕ, List};
    ghost use Rattle.mold_wire.specs.Block.{messages_at, AreBlocks};

    ghost Value = { List (List ℕ) };

    ghost view = { λ m. messages_at m.left m.bytes.now };

    ghost invariant = { λ m. AreBlocks m.left m.bytes.now };
}

impl<'a> Messages<'a> {
    ghost use Rattle.std.specs.List.{AllByRecursion};
    ghost use Rattle.mold_wire.specs.Block.{messages_at, AreBlocks, IsMessage, blocks};

    pub(crate) fn new(left: u16, bytes: &'a [u8]) -> Messages<'a>
        requires { AreBlocks left bytes.now }
        ensures { result ≡ messages_at left bytes.entry.now }
    {
        Messages { left, bytes }
    }

    /// Returns an iterator over no messages.
    pub fn none() -> Messages<'a>
        ensures { result ≡ [] }
    {
        Messages {
            left: 0,
            bytes: &[],
        }
    }

    /// Returns the number of the remaining messages.
    pub fn len(&self) -> u16
        ensures { result ≡ length self.now }
    {
        self.left
    }

    /// Returns whether no message remains.
    pub fn is_empty(&self) -> bool
        ensures { result ≡ (length self.now == 0) }
    {
        self.left == 0
    }

    /// Returns the blocks of the remaining messages as they are in the datagram. They are the datagram's last bytes.
    pub fn bytes(&self) -> &'a [u8]
        ensures blocks { result.now ≡ blocks self.now }
        ensures each { AllByRecursion IsMessage self.now }
    {
        self.bytes
    }
}

impl<'a> Iterator for Messages<'a> {
    ghost use Rattle.std.specs.Iterator.{YieldsFirstRef, item_count};

    type Item = &'a [u8];

    ghost next_gives = { YieldsFirstRef (λ s. s) };

    ghost remaining = { item_count (λ s. s) };

    fn next(&mut self) -> Option<&'a [u8]> {
        if self.left == 0 {
            return None;
        }
        let (message, rest) = split_block(self.bytes)?;
        self.left -= 1;
        self.bytes = rest;
        Some(message)
    }
}
