//! A list of messages in a buffer whose bytes are copied in larger pieces.

ghost use Rattle.std.specs.Prelude.{◌≡◌, ◌+◌, ◌-◌, ◌<◌, ◌≤◌, ◌^◌, ◌++◌, ◌∷◌, [], length, take, drop, slice_get, IfOk};
ghost use Rattle.std.specs.Prelude.{replicate, OnOk, OnErr, ◌==◌};
ghost use Rattle.std.specs.Option.{option_copied};
ghost use Rattle.mold_messages.specs.Parts.{AreWithin, marked_by};

use crate::iterator::MessageIterator;
use crate::offsets::offset_of;
use crate::part::part;
use std::alloc::{AllocError, Global};
use std::marker::Model;
use std::mem;

/// The number of bytes before each message of a `PartList` that belong to no message.
pub const SPACING: usize = 2;

/// Messages of any lengths as parts of one buffer, in order, with `SPACING` other bytes before each of them. The bytes
/// of many messages are copied at once, and each message is then marked where it ends. A message takes its bytes and 10
/// more: the bytes before it, and 8 for the offset at which it ends. The list keeps its memory until it is dropped.
#[derive(Drop)]
pub struct PartList {
    // The offset at which each message ends in the bytes.
    ends: Vec<usize>,
    bytes: Vec<u8>,
}

impl Model for PartList {
    ghost use Rattle.std.specs.Prelude.{length};
    ghost use Rattle.mold_messages.specs.Parts.{AreWithin, Marked, marked_by};

    ghost Value = { Marked };

    ghost view = { λ l. marked_by l.ends.items l.bytes.items };

    ghost invariant = { λ l. AreWithin l.ends.items (length l.bytes.items) };
}

impl PartList {
    /// Makes an empty list. It does not allocate.
    pub fn new(alloc: Global) -> PartList
        ensures { result ≡ record { messages = []; end = 0; bytes = [] } }
    {
        PartList {
            ends: Vec::new(alloc),
            bytes: Vec::new(alloc),
        }
    }

    /// Returns the number of messages.
    pub fn len(&self) -> usize
        ensures { result ≡ length self.now.messages }
    {
        self.ends.len()
    }

    /// Returns whether the list has no message.
    pub fn is_empty(&self) -> bool
        ensures { result ≡ (length self.now.messages == 0) }
    {
        self.ends.is_empty()
    }

    /// Returns the message at index `i`, counted from 0, or `None` if there are at most `i` messages. It
    /// takes constant time.
    pub fn get(&self, i: usize) -> Option<&[u8]>
        ensures { option_copied result ≡ slice_get self.now.messages i }
    {
        if i >= self.ends.len() {
            return None;
        }
        let start = offset_of(&self.ends, i) + SPACING;
        let end = offset_of(&self.ends, i + 1);
        Some(part(&self.bytes, start, end))
    }

    /// Returns an iterator over the messages, in order.
    pub fn iter(&self) -> MessageIterator<'_>
        ensures { result ≡ self.now.messages }
    {
        let end = offset_of(&self.ends, self.ends.len());
        MessageIterator::new(SPACING, 0, &self.ends, &self.bytes[..end])
    }

    /// Appends bytes to the buffer and returns the offset at which they start; `mark` makes messages of them. It
    /// fails if an allocation fails, and then nothing changes.
    // Inlined, like `mark`: both are called for each packet that a receiver delivers. Without inlining, they
    // return their results through memory.
    #[inline(always)]
    pub fn append(&mut self, bytes: &[u8]) -> Result<usize, AllocError>
        ensures begin { IfOk result (λ begin. begin ≡ length self.old.bytes) }
        ensures behind { self.old.end ≤ length self.old.bytes }
        ensures fits { OnOk result (length self.new.bytes < 2 ^ 64) }
        ensures added { OnOk result (self.new ≡ record self.old { bytes = self.old.bytes ++ bytes.now }) }
        ensures same { OnErr result (self.new ≡ self.old) }
    {
        let begin = self.bytes.len();
        self.bytes.extend_from_slice(bytes)?;
        Ok(begin)
    }

    /// Appends a message that ends at offset `end`. It starts `SPACING` bytes after the end of the last message. The
    /// call fails if an allocation fails. Then no message is appended, and the bytes after the last one are discarded.
    // Inlined for the same reason as `append`.
    #[inline(always)]
    pub fn mark(&mut self, end: usize) -> Result<(), AllocError>
        requires apart { self.old.end + SPACING ≤ end }
        requires within { end ≤ length self.old.bytes }
        ensures added { OnOk result (self.new ≡ record {
          messages = self.old.messages ++ take (end - (self.old.end + SPACING))
              (drop (self.old.end + SPACING) self.old.bytes) ∷ [];
          end = end;
          bytes = self.old.bytes;
        }) }
        ensures cut { OnErr result (self.new ≡ record self.old { bytes = take self.old.end self.old.bytes }) }
    {
        if let Err(error) = self.ends.reserve(1) {
            self.cut();
            return Err(error);
        }
        self.ends.push_reserved(end);
        Ok(())
    }

    // Discards the bytes after the last message.
    fn cut(&mut self)
        ensures { self.new ≡ record self.old { bytes = take self.old.end self.old.bytes } }
    {
        let end = offset_of(&self.ends, self.ends.len());
        self.bytes.truncate(end);
    }

    /// Appends a message, with zeros before it. No bytes may follow the last message. The call fails if an allocation
    /// fails, and then nothing changes.
    pub fn push(&mut self, message: &[u8]) -> Result<(), AllocError>
        requires { self.old.end ≡ length self.old.bytes }
        ensures added { OnOk result (self.new ≡ record {
          messages = self.old.messages ++ message.now ∷ [];
          end = length self.old.bytes + SPACING + length message.now;
          bytes = self.old.bytes ++ replicate SPACING 0 ++ message.now;
        }) }
        ensures same { OnErr result (self.new ≡ self.old) }
    {
        self.append(&[0; SPACING])?;
        if let Err(error) = self.append(message) {
            self.cut();
            return Err(error);
        }
        let end = self.bytes.len();
        self.mark(end)
    }

    /// Keeps the first `keep` messages, or all if there are fewer, and discards the bytes after the last of them. The
    /// allocated room is kept.
    pub fn truncate(&mut self, keep: usize)
        ensures messages { self.new.messages ≡ take keep self.old.messages }
        ensures bytes { self.new.bytes ≡ take self.new.end self.old.bytes }
        ensures whole { self.new.end ≡ length self.new.bytes }
    {
        self.ends.truncate(keep);
        self.cut();
    }

    /// Returns whether there is room for this many more messages, which have this many bytes together with those before
    /// them.
    pub fn has_room(&self, messages: usize, bytes: usize) -> bool {
        self.ends.capacity().saturating_sub(self.ends.len()) >= messages
            && self.bytes.capacity().saturating_sub(self.bytes.len()) >= bytes
    }

    /// Makes room for this many more messages, which have this many bytes together with those before them. It fails if
    /// an allocation fails. The messages and bytes are unchanged.
    pub fn reserve(&mut self, messages: usize, bytes: usize) -> Result<(), AllocError>
        ensures { self.new ≡ self.old }
    {
        self.ends.reserve(messages)?;
        self.bytes.reserve(bytes)
    }

    /// Removes all messages and bytes and keeps the allocated room.
    pub fn clear(&mut self)
        ensures { self.new ≡ record { messages = []; end = 0; bytes = [] } }
    {
        self.ends.clear();
        self.bytes.clear();
    }

    /// Exchanges the list's messages for those that end at the offsets `ends` of `bytes`. It takes constant time: the
    /// memory of both is exchanged, and nothing is copied.
    pub fn exchange(&mut self, ends: &mut Vec<usize>, bytes: &mut Vec<u8>)
        requires { AreWithin ends.old.items (length bytes.old.items) }
        ensures list { self.new ≡ marked_by ends.old.items bytes.old.items }
        ensures old { marked_by ends.new.items bytes.new.items ≡ self.old }
    {
        mem::swap(&mut self.ends, ends);
        mem::swap(&mut self.bytes, bytes);
    }
}

impl<'a> IntoIterator for &'a PartList {
    type Item = &'a [u8];

    type IntoIter = MessageIterator<'a>;

    ghost into_iter_gives = { λ s r. r ≡ s.now.messages };

    fn into_iter(self) -> MessageIterator<'a> {
        self.iter()
    }
}
