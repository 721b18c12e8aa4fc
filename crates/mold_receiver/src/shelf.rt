//! The store: a ring of slots, and the segments that have the stored messages.

ghost use Rattle.std.specs.Prelude.{◌≡◌, ◌↔◌, ◌^◌, ◌+◌, ◌*◌, ◌<◌, ◌≤◌, ◌++◌, ◌∷◌, [], length, drop, replicate, ℕ};
ghost use Rattle.std.specs.Prelude.{◌-◌, min, slice_set, is_some, if◌then◌else◌, IfOk, IfNone, IfSome, IsTrue, None};
ghost use Rattle.std.specs.Prelude.{OnErr, OnOk, Some};
ghost use Rattle.std.specs.List.{AllByRecursion};
ghost use Rattle.std.specs.Option.{option_copied};
ghost use Rattle.mold_wire.specs.Block.{IsMessage, blocks as packed};
ghost use Rattle.mold_receiver.specs.Handing.{AreNumbered, HasDelivered, run_in};
ghost use Rattle.mold_receiver.specs.Keeping.{AreFree, filled, is_fresh};
ghost use Rattle.mold_receiver.specs.Places.{IsBlockAt, place_at};
ghost use Rattle.mold_receiver.specs.Segments.{AreLeft, HasAppended, IsAppended, bytes_at};
ghost use Rattle.mold_receiver.specs.Run.{IsRunAt};
ghost use Rattle.mold_receiver.specs.Shelf.{IsExtent, IsKept, message_on, slots_on};
ghost use Rattle.mold_receiver.specs.Tight.{HasMarked, IsBeside, IsTight};
ghost use Rattle.mold_receiver.specs.Slots.{slot_at, slots_bytes, count_held, AreEmpty, IsFirstEmpty, IsNextHeld};
ghost use Rattle.mold_receiver.specs.declared.place.TheConstants.{NO_START};
ghost use Rattle.mold_receiver.specs.declared.segment.TheConstants.{SEGMENT_BYTES};
ghost use Rattle.mold_receiver.specs.declared.segments.TheConstants.{MAX_SPARE};
ghost use Rattle.mold_wire.specs.declared.limits.TheConstants.{MAX_WIDE_WINDOW};

use crate::batch::Batch;
use crate::occupied::Occupied;
use crate::place::Place;
use crate::release::release;
use crate::ring::Ring;
use crate::room::Room;
use crate::run::Run;
use crate::segment::{block_end, message_at};
use crate::segments::Segments;
use mold_wire::Blocks;
use std::alloc::{AllocError, Global};

/// A ring with one slot for each number of a receiver's window. A slot is empty or has the place of a message. The
/// messages are in segments, as they were in their packets. The ring is allocated once. A segment has messages between
/// which no slot is empty. So all its messages leave in one release, and it is given back.
#[derive(Drop)]
pub(crate) struct Shelf {
    ring: Ring,
    // The slots that have a message.
    occupied: Occupied,
    segments: Segments,
    // The number of slots that have a message.
    held: u32,
}

impl Shelf {
    /// Returns `window` empty slots and no segments.
    pub(crate) fn new(alloc: Global, window: u32) -> Result<Shelf, AllocError>
        requires some { 0 < window }
        requires few { window ≤ MAX_WIDE_WINDOW }
        ensures kept { IfOk result (λ shelf. IsKept shelf) }
        ensures tight { IfOk result (λ shelf. IsTight shelf) }
        ensures empty { IfOk result (λ shelf. slots_on shelf ≡ replicate window None) }
    {
        Ok(Shelf {
            ring: Ring::new(alloc, window)?,
            occupied: Occupied::new(alloc, window)?,
            segments: Segments::new(alloc)?,
            held: 0,
        })
    }

    /// Returns the number of slots.
    pub(crate) fn len(&self) -> usize
        requires { IsKept self.now }
        ensures length { result ≡ length (slots_on self.now) }
        ensures range { (0 < length (slots_on self.now)) × (length (slots_on self.now) ≤ MAX_WIDE_WINDOW) }
    {
        self.ring.len()
    }

    /// Returns the number of slots that have a message.
    pub(crate) fn held(&self) -> u32
        requires { IsKept self.now }
        ensures count { result ≡ count_held (slots_on self.now) }
        ensures some { 0 < length (slots_on self.now) }
    {
        self.held
    }

    /// Returns the number of segments, together with the spare ones.
    #[tactic(auto, using(crate::proofs::HeldLemmas::segments_few))]
    pub(crate) fn segments(&self) -> usize
        requires kept { IsKept self.now }
        requires tight { IsTight self.now }
        ensures { result ≤ count_held (slots_on self.now) + MAX_SPARE }
    {
        self.segments.count()
    }

    /// Returns the memory of all segments in bytes, together with the spare memory.
    pub(crate) fn memory(&self) -> usize
        requires kept { IsKept self.now }
        requires tight { IsTight self.now }
        ensures most { result ≤ MAX_SPARE * SEGMENT_BYTES + 2 * slots_bytes (slots_on self.now) }
        ensures least { min (slots_bytes (slots_on self.now)) (2 ^ 64 - 1) ≤ result }
    {
        self.segments.memory()
    }

    /// Returns the bytes of all stored messages and of the length fields of their blocks.
    #[inline(always)]
    pub(crate) fn bytes(&self) -> usize
        requires kept { IsKept self.now }
        requires tight { IsTight self.now }
        ensures { result ≡ slots_bytes (slots_on self.now) }
    {
        self.segments.used()
    }

    /// Returns the message in a slot, or `None` if the slot is empty or doesn't exist.
    pub(crate) fn get(&self, slot: usize) -> Option<&[u8]>
        requires { IsKept self.now }
        ensures { option_copied result ≡ slot_at (slots_on self.now) slot }
    {
        match self.ring.get(slot) {
            Some(place) => Some(message_at(
                self.segments.bytes(place.segment),
                place.start as usize,
            )),
            None => None,
        }
    }

    // Returns how many blocks follow each other from the place of the slot on, as long as the slots after it have
    // their places. Returns the offset after the last of them too. `bytes` are those of the place's segment.
    fn extent(&self, slot: usize, first: Place, bytes: &[u8]) -> (usize, usize)
        requires kept { IsKept self.now }
        requires there { place_at self.now.ring slot ≡ Some first }
        requires bytes { bytes.now ≡ bytes_at self.now.segments first.segment }
        ensures { IsExtent self.now slot first result.0 result.1 }
    {
        let mut end = block_end(bytes, first.start as usize);
        let mut count = 1;
        while self.ring.is_at(slot + count, first.segment, end) {
            end = block_end(bytes, end);
            count += 1;
        }
        (count, end)
    }

    /// Returns the messages from a slot on that follow each other in one segment, or `None` if the slot is empty or
    /// doesn't exist.
    pub(crate) fn run(&self, slot: usize) -> Option<Run<'_>>
        requires { IsKept self.now }
        ensures some { IfSome result (λ run. IsRunAt (slots_on self.now) slot run) }
        ensures none { IfNone result (slot_at (slots_on self.now) slot ≡ None) }
    {
        match self.ring.get(slot) {
            Some(first) => {
                let bytes = self.segments.bytes(first.segment);
                let (count, end) = self.extent(slot, first, bytes);
                let start = first.start as usize;
                let (_, from) = bytes.split_at(start);
                let (bytes, _) = from.split_at(end - start);
                Some(Run { bytes, count })
            }
            None => None,
        }
    }

    /// Returns the room that all stored messages need in a batch.
    pub(crate) fn room(&self) -> Room
        requires { IsKept self.now }
    {
        Room {
            messages: self.held as usize,
            bytes: self.segments.used(),
        }
    }

    /// Returns the room that the messages from a slot on need in a batch, up to the first empty slot.
    pub(crate) fn room_of_run(&self, slot: usize) -> Room
        requires { IsKept self.now }
    {
        let mut room = Room {
            messages: 0,
            bytes: 0,
        };
        let mut slot = slot;
        while let Some(run) = self.run(slot) {
            room = room.and(Room {
                messages: run.count,
                bytes: run.bytes.len(),
            });
            slot += run.count;
        }
        room
    }

    /// Returns whether the slot exists and has a message.
    pub(crate) fn has(&self, slot: usize) -> bool
        ensures { result ≡ is_some (slot_at (slots_on self.now) slot) }
    {
        self.ring.get(slot).is_some()
    }

    /// Returns whether the slot exists and is empty.
    pub(crate) fn is_free(&self, slot: u64) -> bool
        ensures { result ≡ is_fresh (slots_on self.now) slot }
    {
        slot < self.ring.len() as u64 && !self.has(slot as usize)
    }

    // Returns the segment of the message before `count` slots, or of the one after them.
    fn beside(&self, slot: usize, count: usize) -> Option<u32>
        requires { slot + count < 2 ^ 64 }
        ensures { IfSome result (λ key. IsBeside self.now.ring slot (slot + count) key) }
    {
        if slot > 0 {
            if let Some(place) = self.ring.get(slot - 1) {
                return Some(place.segment);
            }
        }
        match self.ring.get(slot + count) {
            Some(place) => Some(place.segment),
            None => None,
        }
    }

    /// Puts a message into an empty slot. The message's block starts at the place.
    pub(crate) fn mark(&mut self, slot: usize, place: Place)
        requires kept { IsKept self.old }
        requires free { IsTrue (is_fresh (slots_on self.old) slot) }
        requires there { IsBlockAt (bytes_at self.old.segments place.segment) place.start }
        requires some { place.start < NO_START }
        ensures kept { IsKept self.new }
        ensures bytes { (key : ℕ) → bytes_at self.new.segments key ≡ bytes_at self.old.segments key }
        ensures ring { self.new.ring ≡ slice_set self.old.ring slot (Some place) }
        ensures marked { slots_on self.new ≡
            slice_set (slots_on self.old) slot (Some (message_on self.old.segments place)) }
    {
        self.held += 1;
        self.occupied.set(slot);
        self.segments.hold(place.segment, 1);
        self.ring.write(slot, place);
    }

    /// Makes a segment of these bytes, and returns the place where they begin. If an allocation fails, it returns an
    /// error and the slots are unchanged.
    pub(crate) fn add_segment(&mut self, alloc: Global, bytes: &[u8]) -> Result<Place, AllocError>
        requires kept { IsKept self.old }
        requires some { 0 < length bytes.now }
        ensures kept { IsKept self.new }
        ensures same { slots_on self.new ≡ slots_on self.old }
        ensures ring { self.new.ring ≡ self.old.ring }
        ensures added { IfOk result
            (λ place. HasAppended self.old.segments self.new.segments place bytes.now) }
        ensures new { IfOk result (λ place. bytes_at self.old.segments place.segment ≡ []) }
        ensures left { OnErr result (AreLeft self.old.segments self.new.segments) }
    {
        self.segments.append(alloc, None, bytes)
    }

    // Puts the messages of a packet into the slots from `slot` on, which are empty. Their blocks start at the place
    // `begin`.
    fn mark_all(&mut self, slot: usize, begin: Place, blocks: &Blocks<'_>)
        requires kept { IsKept self.old }
        requires free { AreFree (slots_on self.old) slot (length blocks.now) }
        requires each { AllByRecursion IsMessage blocks.now }
        requires there { IsAppended self.old.segments begin (packed blocks.now) }
        ensures kept { IsKept self.new }
        ensures marked { HasMarked self.old self.new slot (slot + length blocks.now) begin.segment
            (length (packed blocks.now)) }
        ensures filled { slots_on self.new ≡ filled (slots_on self.old) slot blocks.now }
    {
        let count = blocks.len();
        self.ring.write_blocks(slot, begin, blocks);
        self.occupied.set_range(slot, usize::from(count));
        self.segments.hold(begin.segment, u32::from(count));
        self.held += u32::from(count);
    }

    /// Puts the messages of a packet into the slots from `slot` on, which are empty. If an allocation fails, it returns
    /// an error and the slots are unchanged.
    pub(crate) fn keep_all(
        &mut self,
        alloc: Global,
        slot: usize,
        blocks: &Blocks<'_>,
    ) -> Result<(), AllocError>
        requires kept { IsKept self.old }
        requires tight { IsTight self.old }
        requires free { AreFree (slots_on self.old) slot (length blocks.now) }
        ensures kept { IsKept self.new }
        ensures tight { IsTight self.new }
        ensures filled { OnOk result (slots_on self.new ≡ filled (slots_on self.old) slot blocks.now) }
        ensures same { OnErr result (slots_on self.new ≡ slots_on self.old) }
    {
        let beside = self.beside(slot, usize::from(blocks.len()));
        let begin = self.segments.append(alloc, beside, blocks.bytes())?;
        self.mark_all(slot, begin, blocks);
        Ok(())
    }

    /// Drops the first `count` slots and appends as many empty ones. The slot after the dropped ones must be empty. If
    /// no slot has a message, nothing needs to change.
    // This runs for each datagram. `receiver.rt` says why it is `inline(always)`.
    #[inline(always)]
    pub(crate) fn skip(&mut self, count: usize)
        requires kept { IsKept self.old }
        requires tight { IsTight self.old }
        requires within { count ≤ length (slots_on self.old) }
        requires ends { slot_at (slots_on self.old) count ≡ None }
        ensures kept { IsKept self.new }
        ensures tight { IsTight self.new }
        ensures moved { slots_on self.new ≡ drop count (slots_on self.old) ++ replicate count None }
    {
        if self.held > 0 {
            self.drop_first(count);
        }
    }

    // Drops the first `count` slots with their messages, and appends as many empty ones.
    fn drop_first(&mut self, count: usize)
        requires kept { IsKept self.old }
        requires tight { IsTight self.old }
        requires within { count ≤ length (slots_on self.old) }
        requires ends { slot_at (slots_on self.old) count ≡ None }
        ensures kept { IsKept self.new }
        ensures tight { IsTight self.new }
        ensures moved { slots_on self.new ≡ drop count (slots_on self.old) ++ replicate count None }
    {
        self.held -= release(&mut self.segments, &mut self.ring, count);
        self.occupied.skip(count);
    }

    /// Delivers the messages from a slot on without a copy, up to the first empty slot, and drops the slots before it.
    /// This is only done if they are all messages of one segment, in its order. Returns that empty slot, or `None` if
    /// nothing changed. The batch is empty, and the first slot has the number `next`. If an allocation fails, it
    /// returns an error and nothing changes.
    pub(crate) fn deliver_whole(
        &mut self,
        alloc: Global,
        slot: usize,
        next: u64,
        batch: &mut Batch,
    ) -> Result<Option<usize>, AllocError>
        requires kept { IsKept self.old }
        requires tight { IsTight self.old }
        requires empty { batch.old ≡ record { first = 0; messages = [] } }
        requires numbered { AreNumbered (slots_on self.old) next }
        ensures kept { IsKept self.new }
        ensures tight { IsTight self.new }
        ensures delivered { IfOk result (λ done. IfSome done
            (λ end. HasDelivered (slots_on self.old) (slots_on self.new) batch.old batch.new next slot end)) }
        ensures none { IfOk result (λ done. IfNone done (slots_on self.new ≡ slots_on self.old)) }
        ensures left { IfOk result (λ done. IfNone done (batch.new ≡ batch.old)) }
        ensures needed { OnErr result (0 < length (run_in (slots_on self.old) slot)) }
        ensures same { OnErr result (slots_on self.new ≡ slots_on self.old) }
        ensures batch { OnErr result (batch.new ≡ batch.old) }
    {
        let Some(first) = self.ring.get(slot) else {
            return Ok(None);
        };
        let (count, bytes) = self.segments.stored(first.segment);
        let end = slot + count as usize;
        if first.start > 0 || self.ring.has(end) {
            return Ok(None);
        }
        let mut ends = Vec::new(alloc);
        batch.exchange_ends(&mut ends);
        let whole = self
            .ring
            .list_ends(slot, first.segment, count, bytes, &mut ends)?;
        if !whole {
            batch.exchange_ends(&mut ends);
            return Ok(None);
        }
        let earlier = release(&mut self.segments, &mut self.ring, slot);
        self.ring.drop_first(count as usize);
        self.held -= earlier + count;
        let number = next + slot as u64;
        self.segments.deliver(first.segment, number, ends, batch);
        self.occupied.skip(end);
        Ok(Some(end))
    }

    // Returns whether no slot from `from` up to, but not including, `to` has a message. It searches the flags.
    #[inline(never)]
    fn are_unset(&self, from: usize, to: usize) -> bool
        requires { IsKept self.now }
        ensures { IsTrue result ↔ AreEmpty (slots_on self.now) from to }
    {
        self.occupied.is_clear(from, to)
    }

    /// Returns whether no slot from `from` up to, but not including, `to` has a message.
    // For speed: one slot's place tells whether it is empty, so the flags are searched for several slots alone, by a
    // function that is not inlined.
    #[inline(always)]
    pub(crate) fn is_clear(&self, from: usize, to: usize) -> bool
        requires { IsKept self.now }
        ensures { IsTrue result ↔ AreEmpty (slots_on self.now) from to }
    {
        if to.saturating_sub(from) == 1 {
            return !self.has(from);
        }
        self.are_unset(from, to)
    }

    /// Returns whether `count` slots from `first` on exist and are empty.
    pub(crate) fn are_free(&self, first: u64, count: u64) -> bool
        requires kept { IsKept self.now }
        requires numbered { first + count < 2 ^ 64 }
        ensures { IsTrue result ↔ AreFree (slots_on self.now) first count }
    {
        let end = first + count;
        end <= self.ring.len() as u64 && self.is_clear(first as usize, end as usize)
    }

    /// Returns the first empty slot from slot `from` on. Slots that don't exist are empty.
    pub(crate) fn first_empty(&self, from: usize) -> usize
        requires { IsKept self.now }
        ensures { IsFirstEmpty (slots_on self.now) from result }
    {
        if from >= self.occupied.len() {
            return from;
        }
        self.occupied.first_from(from, false)
    }

    /// Returns the first slot that has a message from slot `from` on and below slot `to`, or `to` if there is none.
    pub(crate) fn next_held(&self, from: usize, to: usize) -> usize
        requires kept { IsKept self.now }
        requires order { from ≤ to }
        ensures { IsNextHeld (slots_on self.now) from to result }
    {
        if from >= self.occupied.len() {
            return to;
        }
        let slot = self.occupied.first_from(from, true);
        if slot < self.occupied.len() {
            slot.min(to)
        } else {
            to
        }
    }
}
