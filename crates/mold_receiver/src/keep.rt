//! Storage: the messages of a packet above a gap.

ghost use Rattle.std.specs.Prelude.{◌≡◌, ◌↔◌, ◌+◌, ◌<◌, ◌^◌, length, IfOk, OnOk, OnErr, IsTrue};
ghost use Rattle.std.specs.List.{AllByRecursion};
ghost use Rattle.mold_receiver.specs.Keeping.{count_absent, filled, fresh, fresh_messages};
ghost use Rattle.mold_receiver.specs.Segments.{IsAppended};
ghost use Rattle.mold_receiver.specs.Shelf.{IsKept, slots_on};
ghost use Rattle.mold_receiver.specs.Tight.{HasMarked, IsTight};
ghost use Rattle.mold_wire.specs.Block.{IsMessage, blocks as packed};
ghost use Rattle.mold_wire.specs.declared.header.TheConstants.{END_OF_SESSION};

use crate::place::Place;
use crate::shelf::Shelf;
use mold_wire::{Blocks, LENGTH_BYTES};
use std::alloc::{AllocError, Global};

// Returns whether there is an empty slot for one of the packet's messages. `first` is the slot of its first message.
fn has_fresh(shelf: &Shelf, first: u64, blocks: &Blocks<'_>) -> bool
    requires { first + length blocks.now < 2 ^ 64 }
    ensures { IsTrue result ↔ (0 < length (fresh (slots_on shelf.now) first blocks.now)) }
{
    let mut slot = first;
    for _message in blocks.iter() {
        if shelf.is_free(slot) {
            return true;
        }
        slot += 1;
    }
    false
}

/// Returns how many of the packet's messages have an empty slot, or none. `first` is the slot of the first message.
pub(crate) fn count_absent(shelf: &Shelf, first: u64, blocks: &Blocks<'_>) -> u32
    requires numbered { first + length blocks.now < 2 ^ 64 }
    requires few { length blocks.now < END_OF_SESSION }
    ensures { result ≡ count_absent (slots_on shelf.now) first blocks.now }
{
    let mut count = 0;
    let mut slot = first;
    for _message in blocks.iter() {
        if !shelf.has(slot as usize) {
            count += 1;
        }
        slot += 1;
    }
    count
}

// Returns the blocks of the packet's messages for which there is an empty slot.
fn fresh_blocks(
    alloc: Global,
    shelf: &Shelf,
    first: u64,
    blocks: &Blocks<'_>,
) -> Result<Vec<u8>, AllocError>
    requires { first + length blocks.now < 2 ^ 64 }
    ensures each { AllByRecursion IsMessage blocks.now }
    ensures blocks { IfOk result
        (λ bytes. bytes.items ≡ packed (fresh_messages (slots_on shelf.now) first blocks.now)) }
{
    let mut bytes = Vec::new(alloc);
    let mut rest = blocks.bytes();
    let mut slot = first;
    for message in blocks.iter() {
        let (block, behind) = rest.split_at(LENGTH_BYTES + message.len());
        if shelf.is_free(slot) {
            bytes.extend_from_slice(block)?;
        }
        rest = behind;
        slot += 1;
    }
    Ok(bytes)
}

// Puts messages into their slots, if these are empty. The blocks of those that it puts follow each other from the place
// `begin` on. Returns how many it put.
fn mark_fresh(shelf: &mut Shelf, first: u64, begin: Place, blocks: &Blocks<'_>) -> u32
    requires kept { IsKept shelf.old }
    requires numbered { first + length blocks.now < 2 ^ 64 }
    requires few { length blocks.now < END_OF_SESSION }
    requires each { AllByRecursion IsMessage blocks.now }
    requires there { IsAppended shelf.old.segments begin
        (packed (fresh_messages (slots_on shelf.old) first blocks.now)) }
    ensures kept { IsKept shelf.new }
    ensures filled { slots_on shelf.new ≡ filled (slots_on shelf.old) first blocks.now }
    ensures count { result ≡ length (fresh (slots_on shelf.old) first blocks.now) }
    ensures marked { HasMarked shelf.old shelf.new first (first + length blocks.now) begin.segment
        (length (packed (fresh_messages (slots_on shelf.old) first blocks.now))) }
{
    let mut at = begin.start as usize;
    let mut slot = first;
    let mut count = 0;
    for message in blocks.iter() {
        if shelf.is_free(slot) {
            let place = Place {
                segment: begin.segment,
                start: at as u32,
            };
            shelf.mark(slot as usize, place);
            count += 1;
            at += LENGTH_BYTES + message.len();
        }
        slot += 1;
    }
    count
}

// Puts each of the packet's messages into its slot, if the slot exists and is empty. There is such a slot. Returns how
// many it put. Their blocks make a new segment.
fn keep_some(
    alloc: Global,
    shelf: &mut Shelf,
    first: u64,
    blocks: &Blocks<'_>,
) -> Result<u32, AllocError>
    requires kept { IsKept shelf.old }
    requires tight { IsTight shelf.old }
    requires numbered { first + length blocks.now < 2 ^ 64 }
    requires few { length blocks.now < END_OF_SESSION }
    requires some { 0 < length (fresh (slots_on shelf.old) first blocks.now) }
    ensures kept { IsKept shelf.new }
    ensures tight { IsTight shelf.new }
    ensures filled { OnOk result (slots_on shelf.new ≡ filled (slots_on shelf.old) first blocks.now) }
    ensures count { IfOk result (λ count. count ≡ length (fresh (slots_on shelf.old) first blocks.now)) }
    ensures same { OnErr result (slots_on shelf.new ≡ slots_on shelf.old) }
{
    let bytes = fresh_blocks(alloc, shelf, first, blocks)?;
    let begin = shelf.add_segment(alloc, &bytes)?;
    Ok(mark_fresh(shelf, first, begin, blocks))
}

/// Puts each of the packet's messages into its slot, if the slot is in the window and empty. Returns how many it put.
/// `first` is the slot of the packet's first message. If an allocation fails, it returns an error and the slots are
/// unchanged.
pub(crate) fn keep_fresh(
    alloc: Global,
    shelf: &mut Shelf,
    first: u64,
    blocks: &Blocks<'_>,
) -> Result<u32, AllocError>
    requires kept { IsKept shelf.old }
    requires tight { IsTight shelf.old }
    requires numbered { first + length blocks.now < 2 ^ 64 }
    requires few { length blocks.now < END_OF_SESSION }
    ensures kept { IsKept shelf.new }
    ensures tight { IsTight shelf.new }
    ensures filled { OnOk result (slots_on shelf.new ≡ filled (slots_on shelf.old) first blocks.now) }
    ensures count { IfOk result (λ count. count ≡ length (fresh (slots_on shelf.old) first blocks.now)) }
    ensures needed { OnErr result (0 < length (fresh (slots_on shelf.old) first blocks.now)) }
    ensures same { OnErr result (slots_on shelf.new ≡ slots_on shelf.old) }
{
    let count = blocks.len();
    if shelf.are_free(first, u64::from(count)) {
        shelf.keep_all(alloc, first as usize, blocks)?;
        return Ok(u32::from(count));
    }
    if !has_fresh(shelf, first, blocks) {
        return Ok(0);
    }
    keep_some(alloc, shelf, first, blocks)
}
