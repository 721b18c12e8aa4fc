//! A list of messages that are joined in one buffer.

ghost use Rattle.std.specs.Prelude.{◌≡◌, ◌-◌, ◌<◌, ◌≤◌, ◌++◌, ◌∷◌, ◌^◌, [], length, take, drop, slice_get, IsOk, OnOk};
ghost use Rattle.std.specs.Prelude.{OnErr, ◌==◌};
ghost use Rattle.std.specs.Option.{option_copied};
ghost use Rattle.mold_messages.specs.Listed.{byte_count, extended, HasRoom, KeepsRoom};

use crate::iterator::MessageIterator;
use crate::offsets::offset_of;
use crate::part::part;
use std::alloc::{AllocError, Global};
use std::marker::Model;

/// Messages of any lengths, joined in one buffer. A message takes its bytes and 8 more for the offset at
/// which it ends. Only `push`, `extend_last` and `reserve` allocate. They mostly allocate more than is
/// requested, and the list keeps its memory until it is dropped.
#[derive(Drop)]
pub struct MessageList {
    // The offset at which each message ends in the bytes.
    ends: Vec<usize>,
    // The bytes of the messages, joined.
    bytes: Vec<u8>,
}

impl Model for MessageList {
    ghost use Rattle.std.specs.Prelude.{length, vec_capacity};
    ghost use Rattle.mold_messages.specs.Listed.{Listed};
    ghost use Rattle.mold_messages.specs.Offsets.{pieces, IsRising};

    ghost Value = { Listed };

    ghost view = { λ l. record {
      messages = pieces 0 0 l.ends.items l.bytes.items;
      message_room = vec_capacity l.ends;
      byte_room = vec_capacity l.bytes;
    } };

    ghost invariant = { λ l. IsRising 0 0 l.ends.items (length l.bytes.items) };
}

impl MessageList {
    /// Makes an empty list. It does not allocate.
    pub fn new(alloc: Global) -> MessageList
        ensures { result ≡ record { messages = []; message_room = 0; byte_room = 0 } }
    {
        MessageList {
            ends: Vec::new(alloc),
            bytes: Vec::new(alloc),
        }
    }

    /// Returns the number of messages.
    pub fn len(&self) -> usize
        ensures { result ≡ length self.now.messages }
    {
        self.ends.len()
    }

    /// Returns whether the list has no message.
    pub fn is_empty(&self) -> bool
        ensures { result ≡ (length self.now.messages == 0) }
    {
        self.ends.is_empty()
    }

    /// Returns the message at index `i`, counted from 0, or `None` if there are at most `i` messages. It
    /// takes constant time.
    pub fn get(&self, i: usize) -> Option<&[u8]>
        ensures { option_copied result ≡ slice_get self.now.messages i }
    {
        if i >= self.ends.len() {
            return None;
        }
        let start = offset_of(&self.ends, i);
        let end = offset_of(&self.ends, i + 1);
        Some(part(&self.bytes, start, end))
    }

    /// Returns the length in bytes of all messages together from index `from` up to, but not including, index `to`. It
    /// takes constant time.
    pub fn joined_length(&self, from: usize, to: usize) -> usize
        requires ordered { from ≤ to }
        requires within { to ≤ length self.now.messages }
        ensures { result ≡ byte_count (take (to - from) (drop from self.now.messages)) }
    {
        offset_of(&self.ends, to) - offset_of(&self.ends, from)
    }

    /// Returns the length in bytes of all messages together, in constant time. The length is below 2^63 and there are
    /// fewer than 2^60 messages, since all of them are in memory.
    pub fn total_length(&self) -> usize
        ensures value { result ≡ byte_count self.now.messages }
        ensures bound { result < 2 ^ 63 }
        ensures few { length self.now.messages < 2 ^ 60 }
    {
        // A slice's size in bytes bounds its length, so taking the slice of `ends` proves that there are few
        // messages.
        let _ends = self.ends.as_slice();
        self.bytes.as_slice().len()
    }

    /// Returns an iterator over the messages, in order.
    pub fn iter(&self) -> MessageIterator<'_>
        ensures { result ≡ self.now.messages }
    {
        MessageIterator::new(0, 0, &self.ends, &self.bytes)
    }

    /// Returns an iterator over the messages from index `i` on, in order, without visiting the earlier ones. It is
    /// empty if there are at most `i` messages.
    pub fn iter_from(&self, i: usize) -> MessageIterator<'_>
        ensures { result ≡ drop i self.now.messages }
    {
        let first = self.ends.len().min(i);
        let start = offset_of(&self.ends, first);
        MessageIterator::new(0, start, &self.ends[first..], &self.bytes)
    }

    /// Makes room for `messages` more messages with `bytes` bytes in total. It fails if an allocation fails,
    /// and never if the room is there already.
    pub fn reserve(&mut self, messages: usize, bytes: usize) -> Result<(), AllocError>
        ensures room { OnOk result (HasRoom self.new messages bytes) }
        ensures same { self.new.messages ≡ self.old.messages }
        ensures kept { KeepsRoom self.old self.new }
        ensures succeeds { HasRoom self.old messages bytes → IsOk result }
    {
        self.ends.reserve(messages)?;
        self.bytes.reserve(bytes)
    }

    /// Appends a message. It fails only if there is no room for the message and an allocation fails, and then the
    /// messages are unchanged.
    pub fn push(&mut self, message: &[u8]) -> Result<(), AllocError>
        ensures added { OnOk result (self.new.messages ≡ self.old.messages ++ message.now ∷ []) }
        ensures same { OnErr result (self.new.messages ≡ self.old.messages) }
        ensures kept { KeepsRoom self.old self.new }
        ensures succeeds { HasRoom self.old 1 (length message.now) → IsOk result }
    {
        self.ends.reserve(1)?;
        self.bytes.extend_from_slice(message)?;
        let end = self.bytes.len();
        self.ends.push_reserved(end);
        Ok(())
    }

    /// Appends bytes to the last message, so a message can be added in parts. It fails only if there is no room for the
    /// bytes and an allocation fails, and then the messages are unchanged.
    pub fn extend_last(&mut self, bytes: &[u8]) -> Result<(), AllocError>
        requires { 0 < length self.old.messages }
        ensures added { OnOk result (self.new.messages ≡ extended self.old.messages bytes.now) }
        ensures same { OnErr result (self.new.messages ≡ self.old.messages) }
        ensures kept { KeepsRoom self.old self.new }
        ensures succeeds { HasRoom self.old 0 (length bytes.now) → IsOk result }
    {
        self.bytes.extend_from_slice(bytes)?;
        let last = self.ends.len() - 1;
        self.ends[last] = self.bytes.len();
        Ok(())
    }

    /// Keeps the first `keep` messages, or all if there are fewer, and discards the others. The allocated room is kept.
    pub fn truncate(&mut self, keep: usize)
        ensures { self.new ≡ record self.old { messages = take keep self.old.messages } }
    {
        if keep < self.ends.len() {
            let end = offset_of(&self.ends, keep);
            self.ends.truncate(keep);
            self.bytes.truncate(end);
        }
    }

    /// Removes all messages and keeps the allocated room.
    pub fn clear(&mut self)
        ensures { self.new ≡ record self.old { messages = [] } }
    {
        self.truncate(0);
    }
}

impl<'a> IntoIterator for &'a MessageList {
    type Item = &'a [u8];

    type IntoIter = MessageIterator<'a>;

    ghost into_iter_gives = { λ s r. r ≡ s.now.messages };

    fn into_iter(self) -> MessageIterator<'a> {
        self.iter()
    }
}
