//! The batch of messages that a receiver delivers.

// For the optimizer: `#[inline(always)]` marks the functions that run for each datagram. Without it, the compiler
// emits calls that return structs through memory. They take a third of the time of a datagram with one message.

ghost use Rattle.std.specs.Prelude.{◌≡◌, ◌==◌, ◌+◌, ◌↔◌, ◌<◌, ◌≤◌, ◌^◌, ◌++◌, ◌∷◌, [], length, take, drop, slice_get};
ghost use Rattle.std.specs.Prelude.{IsTrue, OnOk, OnErr, false};
ghost use Rattle.std.specs.Option.{option_copied};
ghost use Rattle.mold_receiver.specs.Batch.{Handed, handed_from, first_of, after_of, Follows, followed_by};
ghost use Rattle.mold_receiver.specs.Handing.{Grew, HasMore};
ghost use Rattle.mold_receiver.specs.Places.{end_from, ends_from, messages_from};
ghost use Rattle.mold_receiver.specs.Run.{IsWhole, messages_in};
ghost use Rattle.mold_wire.specs.Block.{blocks as packed};

use crate::room::Room;
use crate::run::Run;
use crate::segment::length_at;
use mold_messages::{MessageIterator, PartList};
use mold_wire::{Blocks, LENGTH_BYTES};
use std::alloc::{AllocError, Global};
use std::fmt::{Debug, Formatter};
use std::marker::Model;
use std::{fmt, mem};

// A run that was refused for memory: the number that it begins with, or 0, and the room that it needs.
#[derive(Clone, Copy)]
struct Refused {
    next: u64,
    room: Room,
}

/// A list of delivered messages with consecutive sequence numbers. The messages are in one buffer. Most are copied there
/// one after the other. An empty batch may instead take over the memory of a segment, and gives back the one before it.
/// The buffer grows ahead of need, and the memory is freed only when the batch is dropped.
#[derive(Drop)]
pub struct Batch {
    // The number of the first message, if there is one.
    first: u64,
    // The messages, each after two bytes: its length field, or zeros. Bytes may follow the last message only while the
    // list has a segment's memory.
    list: PartList,
    // Whether the list has a segment's memory.
    has_segment: bool,
    // The list's own memory while the list has a segment's memory. Otherwise the segment memory that the list had last.
    aside: Vec<u8>,
    // Memory for the offsets at which the messages of a segment end, before the list gets them.
    ends: Vec<usize>,
    // The run that was last refused for memory.
    refused: Refused,
}

impl Debug for Batch {
    fn fmt<W: fmt::Write>(&self, f: &mut Formatter<W>) -> fmt::Result {
        f.debug_struct("Batch").finish_non_exhaustive()
    }
}

impl Model for Batch {
    ghost use Rattle.std.specs.Prelude.{◌≡◌, ◌+◌, ◌<◌, ◌^◌, length, false};
    ghost use Rattle.mold_receiver.specs.Batch.{Handed, handed_from};

    ghost Value = { Handed };

    ghost view = { λ b. handed_from b.first b.list.messages };

    ghost invariant = { λ b. (b.first + length b.list.messages < 2 ^ 64)
        × (b.has_segment ≡ false → b.list.end ≡ length b.list.bytes) };
}

impl Batch {
    /// Returns an empty batch. It allocates nothing yet.
    pub fn new(alloc: Global) -> Batch
        ensures { result ≡ record { first = 0; messages = [] } }
    {
        Batch {
            first: 0,
            list: PartList::new(alloc),
            has_segment: false,
            aside: Vec::new(alloc),
            ends: Vec::new(alloc),
            refused: Refused {
                next: 0,
                room: Room {
                    messages: 0,
                    bytes: 0,
                },
            },
        }
    }

    /// Returns the number of the first message, or `None` if the batch is empty.
    pub fn first(&self) -> Option<u64>
        ensures { result ≡ first_of self.now }
    {
        if self.list.is_empty() {
            None
        } else {
            Some(self.first)
        }
    }

    /// Returns one more than the number of the last message, or `None` if the batch is empty.
    pub fn after(&self) -> Option<u64>
        ensures { result ≡ after_of self.now }
    {
        if self.list.is_empty() {
            None
        } else {
            Some(self.first + self.len() as u64)
        }
    }

    /// Returns the number of messages.
    pub fn len(&self) -> usize
        ensures length { result ≡ length self.now.messages }
        ensures numbered { self.now ≡ handed_from self.now.first self.now.messages }
    {
        self.list.len()
    }

    /// Returns whether the batch has no messages.
    pub fn is_empty(&self) -> bool
        ensures { result ≡ (length self.now.messages == 0) }
    {
        self.list.is_empty()
    }

    /// Returns the message with index `i`, counted from 0, or `None` if there are at most `i` messages.
    pub fn get(&self, i: usize) -> Option<&[u8]>
        ensures { option_copied result ≡ slice_get self.now.messages i }
    {
        self.list.get(i)
    }

    /// Returns an iterator over the messages in order.
    pub fn iter(&self) -> MessageIterator<'_>
        ensures { result ≡ self.now.messages }
    {
        self.list.iter()
    }

    /// Keeps the first `keep` messages and removes the others. If there are no more than `keep`, it does nothing. The
    /// buffer keeps its capacity.
    pub fn truncate(&mut self, keep: usize)
        ensures { self.new ≡ handed_from self.old.first (take keep self.old.messages) }
    {
        self.list.truncate(keep);
    }

    /// Removes all messages. The buffer keeps its capacity.
    pub fn clear(&mut self)
        ensures { self.new ≡ record { first = 0; messages = [] } }
    {
        if self.has_segment {
            self.restore();
        } else {
            self.list.clear();
        }
    }

    // Removes all messages, and gives the list its own memory back.
    #[inline(never)]
    fn restore(&mut self)
        ensures { self.new ≡ record { first = 0; messages = [] } }
    {
        self.ends.clear();
        self.aside.clear();
        self.list.exchange(&mut self.ends, &mut self.aside);
        self.has_segment = false;
    }

    /// Returns whether the message with the number `next` may follow. This is so if the batch is empty or its last
    /// message has the number just before.
    pub fn follows(&self, next: u64) -> bool
        ensures { IsTrue result ↔ Follows self.now next }
    {
        match self.after() {
            None => true,
            Some(after) => after == next,
        }
    }

    /// Returns an error if the run from `next` on was the last one that was refused for memory, and an allocation for
    /// it still fails.
    #[inline(always)]
    pub(crate) fn recall(&mut self, next: u64) -> Result<(), AllocError>
        ensures { self.new ≡ self.old }
    {
        if self.refused.next == next {
            self.make_room(self.refused.room)?;
        }
        Ok(())
    }

    /// Returns whether there is this room for more messages.
    pub(crate) fn has_room(&self, room: Room) -> bool {
        self.list.has_room(room.messages, room.bytes)
    }

    // Makes this room for more messages. Returns an error if an allocation fails.
    fn make_room(&mut self, room: Room) -> Result<(), AllocError>
        ensures { self.new ≡ self.old }
    {
        self.list.reserve(room.messages, room.bytes)
    }

    /// Makes the room that the run from `next` on needs. Returns an error if an allocation fails. Then `recall` does so
    /// too, at once, until there is that room.
    pub(crate) fn make_room_for(&mut self, next: u64, room: Room) -> Result<(), AllocError>
        ensures { self.new ≡ self.old }
    {
        self.refused = Refused { next, room };
        self.make_room(room)
    }

    /// Appends the message with the number `next`. Returns an error if an allocation fails.
    pub(crate) fn push(&mut self, next: u64, message: &[u8]) -> Result<(), AllocError>
        requires follows { Follows self.old next }
        requires counted { next + 1 < 2 ^ 64 }
        ensures added { OnOk result (self.new ≡ followed_by self.old next (message.now ∷ [])) }
        ensures same { OnErr result (self.new ≡ self.old) }
    {
        cut(&mut self.list, self.has_segment);
        if self.list.is_empty() {
            self.first = next;
        }
        self.list.push(message)
    }

    /// Appends the messages of a packet. The first of them has the number `next`. All their bytes are copied at once.
    /// If an allocation fails, it returns an error, and the batch may end with some of the messages.
    #[inline(always)]
    pub(crate) fn push_blocks(&mut self, next: u64, blocks: &Blocks<'_>) -> Result<(), AllocError>
        requires follows { Follows self.old next }
        requires counted { next + length blocks.now < 2 ^ 64 }
        ensures added { OnOk result (self.new ≡ followed_by self.old next blocks.now) }
        ensures grew { OnErr result (Grew self.old self.new next) }
    {
        cut(&mut self.list, self.has_segment);
        let begin = self.list.append(blocks.bytes())?;
        if self.list.is_empty() {
            self.first = next;
        }
        mark_blocks(&mut self.list, begin, blocks)
    }

    /// Appends the messages of a run. The first of them has the number `next`. All their bytes are copied at once. If
    /// an allocation fails, it returns an error, and the batch may end with some of the messages.
    pub(crate) fn push_run(&mut self, next: u64, run: Run<'_>) -> Result<(), AllocError>
        requires follows { Follows self.old next }
        requires counted { next + length (messages_in run) < 2 ^ 64 }
        requires whole { IsWhole run }
        ensures added { OnOk result (self.new ≡ followed_by self.old next (messages_in run.entry)) }
        ensures grew { OnErr result (Grew self.old self.new next) }
    {
        cut(&mut self.list, self.has_segment);
        let begin = self.list.append(run.bytes)?;
        if self.list.is_empty() {
            self.first = next;
        }
        mark_run(&mut self.list, begin, run)
    }

    /// Exchanges the memory in which the batch lists offsets. So the caller can list the offsets for `take_over`.
    pub(crate) fn exchange_ends(&mut self, ends: &mut Vec<usize>)
        ensures { self.new ≡ self.old }
    {
        mem::swap(&mut self.ends, ends);
    }

    /// Takes over the memory of a segment, without a copy, and delivers its messages. They end at the offsets `ends`,
    /// and the first of them has the number `next`. The batch is empty. Returns memory that the batch no longer needs.
    pub(crate) fn take_over(&mut self, next: u64, memory: Vec<u8>, ends: Vec<usize>) -> Vec<u8>
        requires empty { self.old ≡ record { first = 0; messages = [] } }
        requires counted { next + length ends.items < 2 ^ 64 }
        requires ends { ends.items ≡ ends_from memory.items 0 (length ends.items) }
        requires within { end_from memory.items 0 (length ends.items) ≤ length memory.items }
        ensures { self.new ≡ followed_by self.old next (messages_from memory.items 0 (length ends.items)) }
    {
        self.clear();
        let mut memory = memory;
        self.ends = ends;
        self.list.exchange(&mut self.ends, &mut memory);
        self.first = next;
        self.has_segment = true;
        mem::replace(&mut self.aside, memory)
    }
}

impl<'a> IntoIterator for &'a Batch {
    type Item = &'a [u8];

    type IntoIter = MessageIterator<'a>;

    ghost into_iter_gives = { λ s r. r ≡ s.now.messages };

    /// Returns an iterator over the messages, in order.
    fn into_iter(self) -> MessageIterator<'a> {
        self.iter()
    }
}

// Discards the bytes after the last message, if the list has a segment's memory.
#[inline(always)]
fn cut(list: &mut PartList, has_segment: bool)
    requires { has_segment ≡ false → list.old.end ≡ length list.old.bytes }
    ensures messages { list.new.messages ≡ list.old.messages }
    ensures whole { list.new.end ≡ length list.new.bytes }
{
    if has_segment {
        let count = list.len();
        list.truncate(count);
    }
}

// Appends to the list the messages whose blocks are its last bytes, from the offset `begin` on.
#[inline(always)]
fn mark_blocks(list: &mut PartList, begin: usize, blocks: &Blocks<'_>) -> Result<(), AllocError>
    requires begins { list.old.end ≡ begin }
    requires within { begin ≤ length list.old.bytes }
    requires fits { length list.old.bytes < 2 ^ 64 }
    requires there { drop begin list.old.bytes ≡ packed blocks.now }
    ensures added { OnOk result (list.new.messages ≡ list.old.messages ++ blocks.now) }
    ensures grew { OnErr result (HasMore list.old.messages list.new.messages blocks.now) }
    ensures whole { list.new.end ≡ length list.new.bytes }
{
    let mut at = begin;
    for message in blocks.iter() {
        at += LENGTH_BYTES + message.len();
        list.mark(at)?;
    }
    Ok(())
}

// Appends to the list the messages of a run whose bytes are its last, from the offset `begin` on.
fn mark_run(list: &mut PartList, begin: usize, run: Run<'_>) -> Result<(), AllocError>
    requires begins { list.old.end ≡ begin }
    requires within { begin ≤ length list.old.bytes }
    requires fits { length list.old.bytes < 2 ^ 64 }
    requires there { drop begin list.old.bytes ≡ run.bytes.now }
    requires whole { IsWhole run }
    ensures added { OnOk result (list.new.messages ≡ list.old.messages ++ messages_in run.entry) }
    ensures grew { OnErr result (HasMore list.old.messages list.new.messages (messages_in run.entry)) }
    ensures whole { list.new.end ≡ length list.new.bytes }
{
    let mut at = 0;
    let mut left = run.count;
    while left > 0 {
        at += LENGTH_BYTES + length_at(run.bytes, at);
        list.mark(begin + at)?;
        left -= 1;
    }
    Ok(())
}
