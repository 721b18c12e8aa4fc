//! Delivery: a packet that has the next message, and the stored messages that follow it.

// For the optimizer: `#[inline(always)]` marks the functions that run for each datagram. Without it, the compiler
// emits calls that return structs through memory. They take a third of the time of a datagram with one message.

ghost use Rattle.std.specs.Prelude.{◌≡◌, ◌+◌, ◌-◌, ◌<◌, ◌≤◌, ◌^◌, ◌++◌, ◌∷◌, [], max, nat_lt, if◌then◌else◌, length};
ghost use Rattle.std.specs.Prelude.{drop, OnOk, OnErr, IfOk};
ghost use Rattle.mold_receiver.specs.Batch.{Follows, followed_by};
ghost use Rattle.mold_receiver.specs.Handing.{AreNumbered, Grew, HasDelivered, HasHandedOn, HasNext, run_in, run_of};

use crate::batch::Batch;
use crate::room::Room;
use crate::slots::Slots;
use mold_wire::Blocks;
use std::alloc::{AllocError, Global};

// Appends a message of the packet, unless its number is below `next`.
fn push_from(batch: &mut Batch, next: u64, number: u64, message: &[u8]) -> Result<(), AllocError>
    requires follows { Follows batch.old (max number next) }
    requires counted { number + 1 < 2 ^ 64 }
    ensures handed { OnOk result
        (batch.new ≡ (if nat_lt number next then batch.old else followed_by batch.old number (message.now ∷ []))) }
    ensures same { OnErr result (batch.new ≡ batch.old) }
{
    if number < next {
        return Ok(());
    }
    batch.push(number, message)
}

// Appends the packet's messages from `next` on.
#[inline(always)]
fn push_messages(
    batch: &mut Batch,
    next: u64,
    first: u64,
    blocks: &Blocks<'_>,
) -> Result<(), AllocError>
    requires follows { Follows batch.old next }
    requires begun { first ≤ next }
    requires counted { first + length blocks.now < 2 ^ 64 }
    ensures handed { OnOk result (batch.new ≡ followed_by batch.old next (drop (next - first) blocks.now)) }
    ensures grew { OnErr result (Grew batch.old batch.new next) }
{
    if first == next {
        return batch.push_blocks(next, blocks);
    }
    let mut number = first;
    for message in blocks.iter() {
        push_from(batch, next, number, message)?;
        number += 1;
    }
    Ok(())
}

// Appends the messages from the slot `start` on, up to the first empty slot, and returns that slot. The first slot
// has the number `next`.
fn push_held(batch: &mut Batch, next: u64, slots: &Slots, start: usize) -> Result<usize, AllocError>
    requires follows { Follows batch.old (next + start) }
    requires counted { next + start < 2 ^ 64 }
    requires numbered { AreNumbered slots.now next }
    ensures handed { OnOk result (batch.new ≡ followed_by batch.old (next + start) (run_in slots.now start)) }
    ensures stopped { IfOk result (λ end. end ≡ start + length (run_in slots.now start)) }
    ensures fits { IfOk result (λ end. next + end < 2 ^ 64) }
    ensures grew { OnErr result (Grew batch.old batch.new (next + start)) }
{
    let mut end = start;
    while let Some(run) = slots.run(end) {
        batch.push_run(next + end as u64, run)?;
        end += run.count;
    }
    Ok(end)
}

// Does the same as `push_held`, but looks at no slot if all are empty.
#[inline(always)]
fn push_stored(
    batch: &mut Batch,
    next: u64,
    slots: &Slots,
    start: usize,
) -> Result<usize, AllocError>
    requires follows { Follows batch.old (next + start) }
    requires counted { next + start < 2 ^ 64 }
    requires numbered { AreNumbered slots.now next }
    ensures handed { OnOk result (batch.new ≡ followed_by batch.old (next + start) (run_in slots.now start)) }
    ensures stopped { IfOk result (λ end. end ≡ start + length (run_in slots.now start)) }
    ensures fits { IfOk result (λ end. next + end < 2 ^ 64) }
    ensures grew { OnErr result (Grew batch.old batch.new (next + start)) }
{
    if slots.held() == 0 {
        return Ok(start);
    }
    push_held(batch, next, slots, start)
}

// Appends the packet's messages from `next` on and the stored messages that follow them. Returns the new `next`.
#[inline(always)]
fn push_run(
    batch: &mut Batch,
    next: u64,
    first: u64,
    top: u64,
    blocks: &Blocks<'_>,
    slots: &Slots,
) -> Result<u64, AllocError>
    requires packet { HasNext batch.old next first top blocks.now }
    requires numbered { AreNumbered slots.now next }
    ensures handed { IfOk result
        (λ after. HasHandedOn batch.old batch.new next (run_of slots.now next first top blocks.now) after) }
    ensures grew { OnErr result (Grew batch.old batch.new next) }
{
    push_messages(batch, next, first, blocks)?;
    let end = push_stored(batch, next, slots, (top - next) as usize)?;
    Ok(next + end as u64)
}

// Makes room for a packet's messages and the stored ones from the slot `start` on, up to the first empty slot. Returns
// an error if an allocation fails. If the room for all stored messages is small, that room is made. Otherwise the
// messages up to the first empty slot are counted, unless there is room for all stored messages.
fn make_room(
    batch: &mut Batch,
    next: u64,
    packet: Room,
    slots: &Slots,
    start: usize,
) -> Result<(), AllocError>
    ensures { batch.new ≡ batch.old }
{
    batch.recall(next)?;
    let all = packet.and(slots.room());
    if batch.has_room(all) {
        return Ok(());
    }
    if all.is_small() {
        return batch.make_room_for(next, all);
    }
    batch.make_room_for(next, packet.and(slots.room_of_run(start)))
}

/// Delivers the packet's messages from `next` on and the stored messages that follow them. Returns the new `next`. If
/// an allocation fails, it returns an error and the batch is unchanged. Stored messages are copied only after the
/// memory for all of them was allocated.
#[inline(always)]
pub(crate) fn hand_on(
    batch: &mut Batch,
    next: u64,
    first: u64,
    top: u64,
    blocks: &Blocks<'_>,
    slots: &Slots,
) -> Result<u64, AllocError>
    requires packet { HasNext batch.old next first top blocks.now }
    requires numbered { AreNumbered slots.now next }
    ensures handed { IfOk result
        (λ after. HasHandedOn batch.old batch.new next (run_of slots.now next first top blocks.now) after) }
    ensures same { OnErr result (batch.new ≡ batch.old) }
{
    if slots.held() > 0 {
        let packet = Room {
            messages: usize::from(blocks.len()),
            bytes: blocks.bytes().len(),
        };
        make_room(batch, next, packet, slots, (top - next) as usize)?;
    }
    let before = batch.len();
    let handed = push_run(batch, next, first, top, blocks, slots);
    if handed.is_err() {
        batch.truncate(before);
    }
    handed
}

/// Delivers the stored messages from the slot `start` on, up to the first empty slot, and returns that slot. The first
/// slot has the number `next`. If an allocation fails, it returns an error and the batch is unchanged. Messages are
/// copied only after the memory for all of them was allocated.
pub(crate) fn hand_stored(
    batch: &mut Batch,
    next: u64,
    slots: &Slots,
    start: usize,
) -> Result<usize, AllocError>
    requires follows { Follows batch.old (next + start) }
    requires counted { next + start < 2 ^ 64 }
    requires numbered { AreNumbered slots.now next }
    ensures handed { OnOk result (batch.new ≡ followed_by batch.old (next + start) (run_in slots.now start)) }
    ensures stopped { IfOk result (λ end. end ≡ start + length (run_in slots.now start)) }
    ensures fits { IfOk result (λ end. next + end < 2 ^ 64) }
    ensures needed { OnErr result (0 < length (run_in slots.now start)) }
    ensures same { OnErr result (batch.new ≡ batch.old) }
{
    let Some(_first) = slots.get(start) else {
        return Ok(start);
    };
    let none = Room {
        messages: 0,
        bytes: 0,
    };
    make_room(batch, next + start as u64, none, slots, start)?;
    let before = batch.len();
    let end = push_stored(batch, next, slots, start);
    if end.is_err() {
        batch.truncate(before);
    }
    end
}

/// Does the same as `hand_stored`, but looks at no slot if all are empty.
#[inline(always)]
pub(crate) fn hand_following(
    batch: &mut Batch,
    next: u64,
    slots: &Slots,
    start: usize,
) -> Result<usize, AllocError>
    requires follows { Follows batch.old (next + start) }
    requires counted { next + start < 2 ^ 64 }
    requires numbered { AreNumbered slots.now next }
    ensures handed { OnOk result (batch.new ≡ followed_by batch.old (next + start) (run_in slots.now start)) }
    ensures stopped { IfOk result (λ end. end ≡ start + length (run_in slots.now start)) }
    ensures fits { IfOk result (λ end. next + end < 2 ^ 64) }
    ensures needed { OnErr result (0 < length (run_in slots.now start)) }
    ensures same { OnErr result (batch.new ≡ batch.old) }
{
    if slots.held() == 0 {
        return Ok(start);
    }
    hand_stored(batch, next, slots, start)
}

// Delivers copies of the stored messages from the slot `start` on, up to the first empty slot, and drops the slots
// before it. Returns that slot. If an allocation fails, it returns an error, and nothing changes.
fn deliver_copied(
    batch: &mut Batch,
    next: u64,
    slots: &mut Slots,
    start: usize,
) -> Result<usize, AllocError>
    requires follows { Follows batch.old (next + start) }
    requires counted { next + start < 2 ^ 64 }
    requires numbered { AreNumbered slots.old next }
    ensures delivered { IfOk result
        (λ end. HasDelivered slots.old slots.new batch.old batch.new next start end) }
    ensures needed { OnErr result (0 < length (run_in slots.old start)) }
    ensures same { OnErr result (batch.new ≡ batch.old) }
    ensures slots { OnErr result (slots.new ≡ slots.old) }
{
    let end = hand_following(batch, next, slots, start)?;
    let count = end.min(slots.len());
    slots.skip(count);
    Ok(end)
}

/// Delivers the stored messages from the slot `start` on, up to the first empty slot, and drops the slots before it.
/// Returns that slot. The batch is empty, and the first slot has the number `next`. Messages are only copied if they
/// are not all messages of one segment, in its order. If an allocation fails, it returns an error, and nothing changes.
#[inline(always)]
pub(crate) fn deliver_following(
    alloc: Global,
    batch: &mut Batch,
    next: u64,
    slots: &mut Slots,
    start: usize,
) -> Result<usize, AllocError>
    requires empty { batch.old ≡ record { first = 0; messages = [] } }
    requires counted { next + start < 2 ^ 64 }
    requires numbered { AreNumbered slots.old next }
    ensures delivered { IfOk result
        (λ end. HasDelivered slots.old slots.new batch.old batch.new next start end) }
    ensures needed { OnErr result (0 < length (run_in slots.old start)) }
    ensures same { OnErr result (batch.new ≡ batch.old) }
    ensures slots { OnErr result (slots.new ≡ slots.old) }
{
    if slots.held() == 0 {
        return Ok(start);
    }
    match slots.deliver_whole(alloc, start, next, batch) {
        Ok(Some(end)) => Ok(end),
        Ok(None) => deliver_copied(batch, next, slots, start),
        Err(error) => Err(error),
    }
}
