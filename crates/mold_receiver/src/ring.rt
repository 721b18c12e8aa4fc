//! The ring of places. A slot is empty or has the place of its message.

ghost use Rattle.std.specs.Prelude.{◌≡◌, ◌+◌, ◌<◌, ◌≤◌, ◌^◌, ◌++◌, ◌∷◌, [], length, drop, replicate};
ghost use Rattle.std.specs.Prelude.{slice_set, ◌↔◌, is_some, IfOk, IsTrue, None, Some};
ghost use Rattle.mold_receiver.specs.Places.{place_at};
ghost use Rattle.mold_receiver.specs.Ring.{AreBlocksIn, IsListed, index_of, placed};
ghost use Rattle.mold_wire.specs.Block.{blocks as packed};
ghost use Rattle.mold_receiver.specs.declared.place.TheConstants.{NO_START};

use crate::place::Place;
use crate::segment::block_end;
use mold_wire::{Blocks, LENGTH_BYTES};
use std::alloc::{AllocError, Global};
use std::marker::Model;

/// Returns the index of a slot in a ring of `count` items. The first slot has the index `head`, and the slots go on at
/// index 0 after the last item.
pub(crate) fn ring_index(head: usize, count: usize, slot: usize) -> usize
    requires { head + slot < 2 ^ 64 }
    ensures { result ≡ index_of head count slot }
{
    let index = head + slot;
    if index < count { index } else { index - count }
}

// Returns the index of the slot after the first one, in a ring of `count` items whose first slot has the index `head`.
// For speed: a release waits for one such index before it computes the next one.
fn second_index(head: usize, count: usize) -> usize
    requires { head < count }
    ensures { result ≡ index_of head count 1 }
{
    let index = head + 1;
    if index == count { 0 } else { index }
}

/// A ring of slots. It is allocated once, and takes 8 bytes a slot. Its slots move without a copy.
#[derive(Drop)]
pub(crate) struct Ring {
    places: Vec<Place>,
    // The index of the first slot.
    head: usize,
}

impl Model for Ring {
    ghost use Rattle.std.specs.Prelude.{List, Option, ◌<◌, ◌^◌, length};
    ghost use Rattle.mold_receiver.specs.declared.place.Place.{Place};
    ghost use Rattle.mold_receiver.specs.Ring.{ring_of};

    ghost Value = { List (Option Place) };

    ghost view = { λ r. ring_of r.places.items r.head };

    ghost invariant = { λ r. (r.head < length r.places.items) × (length r.places.items < 2 ^ 32) };
}

impl Ring {
    /// Returns `window` empty slots.
    pub(crate) fn new(alloc: Global, window: u32) -> Result<Ring, AllocError>
        requires { 0 < window }
        ensures { IfOk result (λ ring. ring ≡ replicate window None) }
    {
        let places = vec![in alloc; Place::none(); window as usize]?;
        Ok(Ring { places, head: 0 })
    }

    /// Returns the number of slots.
    pub(crate) fn len(&self) -> usize
        ensures { result ≡ length self.now }
    {
        self.places.len()
    }

    /// Returns the place in a slot, or `None` if the slot is empty or doesn't exist.
    pub(crate) fn get(&self, slot: usize) -> Option<Place>
        ensures { result ≡ place_at self.now slot }
    {
        let count = self.places.len();
        if slot >= count {
            return None;
        }
        self.places[ring_index(self.head, count, slot)].held()
    }

    /// Returns whether the slot exists and has a place.
    pub(crate) fn has(&self, slot: usize) -> bool
        ensures { result ≡ is_some (place_at self.now slot) }
    {
        self.get(slot).is_some()
    }

    /// Returns whether the slot exists and has this place.
    pub(crate) fn is_at(&self, slot: usize, segment: u32, start: usize) -> bool
        ensures same { IsTrue result ↔
            (place_at self.now slot ≡ Some (record { segment = segment; start = start })) }
        ensures small { IsTrue result → start < 2 ^ 32 }
    {
        match self.get(slot) {
            Some(place) => place.segment == segment && place.start as usize == start,
            None => false,
        }
    }

    /// Lists the offsets at which the messages of a segment end. `bytes` are those of the segment. Returns whether the
    /// `count` slots from `slot` on have exactly these messages, in the order of the segment. Otherwise the list may be
    /// incomplete. If an allocation fails, it returns an error.
    pub(crate) fn list_ends(
        &self,
        slot: usize,
        segment: u32,
        count: u32,
        bytes: &[u8],
        ends: &mut Vec<usize>,
    ) -> Result<bool, AllocError>
        requires blocks { AreBlocksIn bytes.now segment self.now }
        requires few { slot < 2 ^ 32 }
        ensures { IfOk result (λ whole. IsTrue whole → IsListed self.now slot segment count bytes.now ends.new.items) }
    {
        ends.clear();
        ends.reserve(count as usize)?;
        let mut end = 0;
        for i in 0..count as usize {
            if !self.is_at(slot + i, segment, end) {
                return Ok(false);
            }
            end = block_end(bytes, end);
            ends.push_reserved(end);
        }
        Ok(end == bytes.len())
    }

    /// Writes a place into a slot.
    pub(crate) fn write(&mut self, slot: usize, place: Place)
        requires there { slot < length self.old }
        requires some { place.start < NO_START }
        ensures { self.new ≡ slice_set self.old slot (Some place) }
    {
        let index = ring_index(self.head, self.places.len(), slot);
        self.places[index] = place;
    }

    /// Writes the places of a packet's blocks into the slots from `slot` on. The first block starts at the place
    /// `begin`.
    pub(crate) fn write_blocks(&mut self, slot: usize, begin: Place, blocks: &Blocks<'_>)
        requires within { slot + length blocks.now ≤ length self.old }
        requires few { length self.old < 2 ^ 32 }
        requires fits { begin.start + length (packed blocks.now) ≤ NO_START }
        ensures { self.new ≡ placed self.old slot begin.segment begin.start blocks.now }
    {
        let mut at = begin.start as usize;
        let mut slot = slot;
        for message in blocks.iter() {
            let place = Place {
                segment: begin.segment,
                start: at as u32,
            };
            self.write(slot, place);
            at += LENGTH_BYTES + message.len();
            slot += 1;
        }
    }

    /// Drops the first slot and appends an empty one. Returns the place that the first slot had, or `None` if it was
    /// empty.
    pub(crate) fn pop(&mut self) -> Option<Place>
        ensures place { result ≡ place_at self.old 0 }
        ensures moved { self.new ≡ drop 1 self.old ++ None ∷ [] }
    {
        let next = second_index(self.head, self.places.len());
        let place = self.places[self.head];
        self.places[self.head] = Place::none();
        self.head = next;
        place.held()
    }

    /// Drops the first `count` slots and appends as many empty ones.
    pub(crate) fn drop_first(&mut self, count: usize)
        requires { count ≤ length self.old }
        ensures { self.new ≡ drop count self.old ++ replicate count None }
    {
        for _slot in 0..count {
            self.pop();
        }
    }
}
