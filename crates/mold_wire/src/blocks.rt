//! The message blocks of a data packet.

ghost use Rattle.std.specs.Prelude.{◌≡◌, ◌<◌, drop, length, List, ℕ, slice_get};
ghost use Rattle.std.specs.Option.{option_copied};
ghost use Rattle.mold_wire.specs.declared.header.TheConstants.{END_OF_SESSION};

use crate::messages::Messages;
use std::marker::Model;

/// The messages of a data packet, 1 to `MAX_COUNT` of them. Nothing is copied: each message is a slice of the
/// datagram and is valid as long as the datagram. There is no `is_empty`, since a data packet always has a
/// message.
#[derive(Clone, Debug, Drop)]
pub struct Blocks<'a> {
    count: u16,
    bytes: &'a [u8],
}

impl<'a> Model for Blocks<'a> {
    ghost use Rattle.std.specs.Prelude.{ℕ, List, ◌<◌};
    ghost use Rattle.mold_wire.specs.Block.{messages_at, AreBlocks};
    ghost use Rattle.mold_wire.specs.declared.header.TheConstants.{END_OF_SESSION};

    ghost Value = { List (List ℕ) };

    ghost view = { λ b. messages_at b.count b.bytes.now };

    ghost invariant = { λ b. (0 < b.count) × (b.count < END_OF_SESSION) × AreBlocks b.count b.bytes.now };
}

impl<'a> Blocks<'a> {
    ghost use Rattle.std.specs.List.{AllByRecursion};
    ghost use Rattle.mold_wire.specs.Block.{messages_at, AreBlocks, IsMessage, blocks};

    pub(crate) fn new(count: u16, bytes: &'a [u8]) -> Blocks<'a>
        requires some { 0 < count }
        requires few { count < END_OF_SESSION }
        requires spelled { AreBlocks count bytes.now }
        ensures { result ≡ messages_at count bytes.entry.now }
    {
        Blocks { count, bytes }
    }

    /// Returns the number of messages, 1 to `MAX_COUNT`.
    pub fn len(&self) -> u16
        ensures length { result ≡ length self.now }
        ensures range { (0 < length self.now) × (length self.now < END_OF_SESSION) }
    {
        self.count
    }

    /// Returns the message blocks as they are in the datagram: each message follows its two length bytes.
    pub fn bytes(&self) -> &'a [u8]
        ensures blocks { result.now ≡ blocks self.now }
        ensures each { AllByRecursion IsMessage self.now }
    {
        self.bytes
    }

    /// Returns an iterator over the messages, in order.
    pub fn iter(&self) -> Messages<'a>
        ensures { result ≡ self.now }
    {
        Messages::new(self.count, self.bytes)
    }

    /// Returns an iterator over the messages from index `first` on, in order. Its cost grows with `first`.
    pub fn iter_from(&self, first: u16) -> Messages<'a>
        ensures { result ≡ drop first self.now }
    {
        let mut rest = self.iter();
        for _index in 0..first {
            let _message = rest.next();
        }
        rest
    }

    /// Returns the message at index `i`, counted from 0, or `None` if there are at most `i` messages. Its cost grows
    /// with `i`; use `iter` to visit all messages.
    pub fn get(&self, i: u16) -> Option<&'a [u8]>
        ensures { option_copied result ≡ slice_get self.now i }
    {
        self.iter().nth(usize::from(i))
    }
}

// Two values are equal if they have the same messages in the same order, wherever the bytes are. The blocks
// of given messages have exactly one encoding, so comparing the bytes is enough.
impl<'a> PartialEq for Blocks<'a> {
    ghost use Rattle.std.specs.Prelude.{◌==◌};
    ghost use Rattle.std.specs.Cmp.Lexicographic.{pointwise};
    ghost use Rattle.std.specs.Cmp.Rules.{comparing};
    ghost use Rattle.std.proofs.Common.{rules};

    ghost eq = { pointwise (pointwise ◌==◌) };

    ghost laws = { Prim.search (comparing, rules) };

    fn eq(&self, other: &Self) -> bool {
        self.len() == other.len() && self.bytes == other.bytes
    }
}

impl<'a> Eq for Blocks<'a> {
    ghost use Rattle.std.specs.Cmp.Rules.{comparing};
    ghost use Rattle.std.proofs.Common.{rules};

    ghost laws = { Prim.search (comparing, rules) };
}

impl<'a> IntoIterator for &Blocks<'a> {
    type Item = &'a [u8];

    type IntoIter = Messages<'a>;

    ghost into_iter_gives = { λ s r. r ≡ s.now };

    fn into_iter(self) -> Messages<'a> {
        self.iter()
    }
}
