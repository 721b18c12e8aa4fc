//! The slots of the store, as the receiver uses them.

ghost use Rattle.std.specs.Prelude.{◌≡◌, ◌↔◌, IsTrue, ◌+◌, ◌*◌, ◌^◌, ◌<◌, ◌≤◌, ◌++◌, [], length, drop, replicate, IfOk};
ghost use Rattle.std.specs.Prelude.{◌-◌, min, IfNone, IfSome, OnOk, OnErr, None};
ghost use Rattle.std.specs.Option.{option_copied};
ghost use Rattle.mold_receiver.specs.Handing.{AreNumbered, HasDelivered, run_in};
ghost use Rattle.mold_receiver.specs.Keeping.{count_absent, filled, fresh};
ghost use Rattle.mold_receiver.specs.Run.{IsRunAt};
ghost use Rattle.mold_receiver.specs.Slots.{slot_at, slots_bytes, count_held, AreEmpty, IsFirstEmpty, IsNextHeld};
ghost use Rattle.mold_receiver.specs.declared.segment.TheConstants.{SEGMENT_BYTES};
ghost use Rattle.mold_receiver.specs.declared.segments.TheConstants.{MAX_SPARE};
ghost use Rattle.mold_wire.specs.declared.limits.TheConstants.{MAX_WIDE_WINDOW};
ghost use Rattle.mold_wire.specs.declared.header.TheConstants.{END_OF_SESSION};

use crate::batch::Batch;
use crate::keep::{count_absent, keep_fresh};
use crate::room::Room;
use crate::run::Run;
use crate::shelf::Shelf;
use mold_wire::Blocks;
use std::alloc::{AllocError, Global};
use std::marker::Model;

/// A ring with one slot for each number of a receiver's window. A slot is empty or has a message. Slot i is for the
/// number `next + i`, so the slots move when `next` moves. The slots are allocated once; later only messages need
/// memory.
// For the prover: `Slots` only forwards to `Shelf`, but they are two types. The invariant of a type must hold before
// and after each call that takes it. `Shelf` has no invariant, and its contracts state `IsKept` where it holds. So
// its methods can call one another while `IsKept` doesn't hold for a moment.
#[derive(Drop)]
pub(crate) struct Slots {
    shelf: Shelf,
}

impl Model for Slots {
    ghost use Rattle.std.specs.Prelude.{List};
    ghost use Rattle.mold_receiver.specs.Slots.{Slot};
    ghost use Rattle.mold_receiver.specs.Shelf.{IsKept, slots_on};
    ghost use Rattle.mold_receiver.specs.Tight.{IsTight};

    ghost Value = { List Slot };

    ghost view = { λ s. slots_on s.shelf };

    ghost invariant = { λ s. IsKept s.shelf × IsTight s.shelf };
}

impl Slots {
    /// Returns `window` empty slots.
    pub(crate) fn new(alloc: Global, window: u32) -> Result<Slots, AllocError>
        requires some { 0 < window }
        requires few { window ≤ MAX_WIDE_WINDOW }
        ensures { IfOk result (λ slots. slots ≡ replicate window None) }
    {
        let shelf = Shelf::new(alloc, window)?;
        Ok(Slots { shelf })
    }

    /// Returns the number of slots.
    pub(crate) fn len(&self) -> usize
        ensures length { result ≡ length self.now }
        ensures range { (0 < length self.now) × (length self.now ≤ MAX_WIDE_WINDOW) }
    {
        self.shelf.len()
    }

    /// Returns the number of slots that have a message.
    pub(crate) fn held(&self) -> u32
        ensures count { result ≡ count_held self.now }
        ensures some { 0 < length self.now }
    {
        self.shelf.held()
    }

    /// Returns the number of segments of the store, together with the spare ones.
    pub(crate) fn segments(&self) -> usize
        ensures { result ≤ count_held self.now + MAX_SPARE }
    {
        self.shelf.segments()
    }

    /// Returns the memory of all segments in bytes, together with the spare memory.
    pub(crate) fn memory(&self) -> usize
        ensures most { result ≤ MAX_SPARE * SEGMENT_BYTES + 2 * slots_bytes self.now }
        ensures least { min (slots_bytes self.now) (2 ^ 64 - 1) ≤ result }
    {
        self.shelf.memory()
    }

    /// Returns the bytes of all stored messages and of the length fields of their blocks.
    #[inline(always)]
    pub(crate) fn bytes(&self) -> usize
        ensures { result ≡ slots_bytes self.now }
    {
        self.shelf.bytes()
    }

    /// Returns how many of the packet's messages have an empty slot, or none. `first` is the slot of the first message.
    // For the optimizer: see `Receiver::drop_messages`.
    #[cold]
    #[inline(never)]
    pub(crate) fn count_absent(&self, first: u64, blocks: &Blocks<'_>) -> u32
        requires numbered { first + length blocks.now < 2 ^ 64 }
        requires few { length blocks.now < END_OF_SESSION }
        ensures { result ≡ count_absent self.now first blocks.now }
    {
        count_absent(&self.shelf, first, blocks)
    }

    /// Returns the message in a slot, or `None` if the slot is empty or doesn't exist.
    pub(crate) fn get(&self, slot: usize) -> Option<&[u8]>
        ensures { option_copied result ≡ slot_at self.now slot }
    {
        self.shelf.get(slot)
    }

    /// Returns the messages from a slot on that follow each other in one segment, or `None` if the slot is empty or
    /// doesn't exist.
    pub(crate) fn run(&self, slot: usize) -> Option<Run<'_>>
        ensures some { IfSome result (λ run. IsRunAt self.now slot run) }
        ensures none { IfNone result (slot_at self.now slot ≡ None) }
    {
        self.shelf.run(slot)
    }

    /// Returns the room that all stored messages need in a batch.
    pub(crate) fn room(&self) -> Room {
        self.shelf.room()
    }

    /// Returns the room that the messages from a slot on need in a batch, up to the first empty slot.
    pub(crate) fn room_of_run(&self, slot: usize) -> Room {
        self.shelf.room_of_run(slot)
    }

    /// Puts each of the packet's messages into its slot, if the slot exists and is empty. Returns how many it put.
    /// `first` is the slot of the packet's first message. If an allocation fails, it returns an error and the slots
    /// are unchanged. An allocation is only needed if there is a message to put.
    pub(crate) fn keep(
        &mut self,
        alloc: Global,
        first: u64,
        blocks: &Blocks<'_>,
    ) -> Result<u32, AllocError>
        requires numbered { first + length blocks.now < 2 ^ 64 }
        requires few { length blocks.now < END_OF_SESSION }
        ensures filled { OnOk result (self.new ≡ filled self.old first blocks.now) }
        ensures count { IfOk result (λ kept. kept ≡ length (fresh self.old first blocks.now)) }
        ensures needed { OnErr result (0 < length (fresh self.old first blocks.now)) }
        ensures same { OnErr result (self.new ≡ self.old) }
    {
        keep_fresh(alloc, &mut self.shelf, first, blocks)
    }

    /// Drops the first `count` slots and appends as many empty ones. The slot after the dropped ones must be empty. If
    /// no slot has a message, nothing needs to change.
    // This runs for each datagram. `receiver.rt` says why it is `inline(always)`.
    #[inline(always)]
    pub(crate) fn skip(&mut self, count: usize)
        requires within { count ≤ length self.old }
        requires ends { slot_at self.old count ≡ None }
        ensures { self.new ≡ drop count self.old ++ replicate count None }
    {
        self.shelf.skip(count);
    }

    /// Delivers the messages from a slot on without a copy, up to the first empty slot, and drops the slots before it.
    /// This is only done if they are all messages of one segment, in its order. Returns that empty slot, or `None` if
    /// nothing changed. The batch is empty, and the first slot has the number `next`. If an allocation fails, it
    /// returns an error and nothing changes.
    pub(crate) fn deliver_whole(
        &mut self,
        alloc: Global,
        slot: usize,
        next: u64,
        batch: &mut Batch,
    ) -> Result<Option<usize>, AllocError>
        requires empty { batch.old ≡ record { first = 0; messages = [] } }
        requires numbered { AreNumbered self.old next }
        ensures delivered { IfOk result (λ done. IfSome done
            (λ end. HasDelivered self.old self.new batch.old batch.new next slot end)) }
        ensures none { IfOk result (λ done. IfNone done (self.new ≡ self.old)) }
        ensures left { IfOk result (λ done. IfNone done (batch.new ≡ batch.old)) }
        ensures needed { OnErr result (0 < length (run_in self.old slot)) }
        ensures same { OnErr result (self.new ≡ self.old) }
        ensures batch { OnErr result (batch.new ≡ batch.old) }
    {
        self.shelf.deliver_whole(alloc, slot, next, batch)
    }

    /// Returns whether no slot from `from` up to, but not including, `to` has a message.
    // For the optimizer: it is not inlined, so that a datagram in order needs fewer registers.
    #[inline(never)]
    pub(crate) fn is_clear(&self, from: usize, to: usize) -> bool
        ensures { IsTrue result ↔ AreEmpty self.now from to }
    {
        self.shelf.is_clear(from, to)
    }

    /// Returns the first empty slot from slot `from` on. Slots that don't exist are empty.
    pub(crate) fn first_empty(&self, from: usize) -> usize
        ensures { IsFirstEmpty self.now from result }
    {
        self.shelf.first_empty(from)
    }

    /// Returns the first slot that has a message from slot `from` on and below slot `to`, or `to` if there is none.
    pub(crate) fn next_held(&self, from: usize, to: usize) -> usize
        requires { from ≤ to }
        ensures { IsNextHeld self.now from to result }
    {
        self.shelf.next_held(from, to)
    }
}
