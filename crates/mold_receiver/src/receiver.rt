//! The receiver of one session: what it knows, delivers, stores and requests.

// For the optimizer: `#[inline(always)]` marks the functions that run for each datagram. Without it, the compiler
// emits calls that return structs through memory. They take a third of the time of a datagram with one message.

ghost use Rattle.std.specs.Prelude.{◌≡◌, ◌↔◌, IsTrue, ◌⊎◌, [], ◌+◌, ◌*◌, ◌-◌, ◌<◌, ◌≤◌, ◌^◌, min, length};
ghost use Rattle.std.specs.Prelude.{true, false, Some, None, Ok, Err, IfOk, IfErr, IfNone, IfSome, OnOk, OnErr, drop};
ghost use Rattle.std.specs.Prelude.{max};
ghost use Rattle.std.specs.FinMap as finite;
ghost use Rattle.std.specs.Option.{OnSome};
ghost use Rattle.mold_wire.specs.Block.{blocks as packed};
ghost use Rattle.mold_wire.specs.Packet.{IsBody, messages_of, top_of};
ghost use Rattle.mold_wire.specs.Reading.{reading};
ghost use Rattle.mold_wire.specs.declared.header.TheConstants.{END_OF_SESSION};
ghost use Rattle.mold_wire.specs.declared.packet.Body.TheVariants.{Data};
ghost use Rattle.mold_receiver.specs.Batch.{Follows, followed_by};
ghost use Rattle.mold_receiver.specs.Handing.{HasNext};
ghost use Rattle.mold_receiver.specs.Own.{HandsOwn, HasHeard, IsUnheardFor, NeedsRoom};
ghost use Rattle.mold_receiver.specs.Receive.{HasTaken, HasTakenPacket, IsRefusedFor, TakesMemory, data_packet};
ghost use Rattle.mold_receiver.specs.Receive.{ended_after, exceeds, handed_on, refusal, top_read};
ghost use Rattle.mold_receiver.specs.Store.{first_conflict, from_next, stored_bytes};
ghost use Rattle.mold_receiver.specs.Skip.{AreMissing, skipped, skipped_run};
ghost use Rattle.mold_receiver.specs.Wanted.{HasNoGap, IsFirstAbsent, IsNextGap, wanted};
ghost use Rattle.mold_receiver.specs.View.{View, IsRoom, IsWellFormed, IsWideWindow, IsWindow, IsWithinRoom, fresh};
ghost use Rattle.mold_receiver.specs.View.{fresh_within};
ghost use Rattle.mold_receiver.specs.declared.error.ReceiverError.TheVariants.{NextZero, Window, Store, Memory};
ghost use Rattle.mold_receiver.specs.declared.segment.TheConstants.{SEGMENT_BYTES};
ghost use Rattle.mold_receiver.specs.declared.segments.TheConstants.{MAX_SPARE};
ghost use Rattle.mold_rule.specs.Refusals.{end_below, past_end};

use crate::batch::Batch;
use crate::conflict::conflict_of;
use crate::error::ReceiverError;
use crate::gap::Gap;
use crate::hand::{deliver_following, hand_on, hand_stored};
use crate::heard::{Heard, HeardPacket};
use crate::limits::MIN_STORE;
use crate::slots::Slots;
use crate::taken::{Accepted, Taken};
use mold_rule::{Refusal, check_header};
use mold_wire::{
    Blocks, Body, MAX_COUNT, MAX_WIDE_WINDOW, MAX_WINDOW, Messages, Packet, Request, Session,
    decode, decode_plain,
};
use std::alloc::{AllocError, Global};
use std::fmt;
use std::fmt::{Debug, Formatter};
use std::marker::Model;

// Returns how many of a packet's messages are past the window. `top` is the packet's top and `count` is the number of
// its messages.
fn count_beyond(next: u64, window: usize, top: u64, count: u16) -> u32
    requires { next ≤ top }
    ensures { result ≡ min (top - next - window) count }
{
    let past = (top - next).saturating_sub(window as u64);
    past.min(u64::from(count)) as u32
}

// Returns whether the room is at least `MIN_STORE` bytes, or has no limit.
fn is_room(room: Option<u64>) -> bool
    ensures { IsTrue result ↔ IsRoom room }
{
    match room {
        Some(room) => room >= MIN_STORE,
        None => true,
    }
}

// Returns whether there is no room for `more` bytes beside `used` bytes.
#[inline(always)]
fn exceeds(room: Option<u64>, used: usize, more: usize) -> bool
    requires { IsWithinRoom room used }
    ensures { result ≡ exceeds room (used + more) }
{
    match room {
        Some(room) => more as u64 > room - used as u64,
        None => false,
    }
}

// Returns the session's end as known after the packet was accepted.
fn known_end(packet: &Packet<'_>, ended: Option<u64>) -> Option<u64>
    ensures { result ≡ ended_after packet.now.body packet.now.sequence ended }
{
    match packet.body {
        Body::End => Some(packet.sequence),
        Body::Data(_) | Body::Heartbeat => ended,
    }
}

/// A receiver of one session's downstream packets. It delivers each message once, in the order of the sequence
/// numbers, starting at the number given to `new`. It stores messages that arrive above a gap, if they are in its
/// window and its store has room for them. Packets may arrive late, repeatedly and in any order.
#[derive(Drop)]
pub struct Receiver {
    session: Session,
    next: u64,
    known: u64,
    ended: Option<u64>,
    slots: Slots,
    // The room of the store in bytes. With `None` the store is not limited.
    room: Option<u64>,
    alloc: Global,
}

impl Debug for Receiver {
    fn fmt<W: fmt::Write>(&self, f: &mut Formatter<W>) -> fmt::Result {
        f.debug_struct("Receiver").finish_non_exhaustive()
    }
}

impl Model for Receiver {
    ghost use Rattle.mold_receiver.specs.View.{View, view_code, IsWellFormed, view_over};

    ghost Value = { View };

    ghost coded = { view_code };

    ghost view = { λ r. view_over r.room r.session r.next r.known r.ended r.slots };

    ghost invariant = { λ r. IsWellFormed (view_over r.room r.session r.next r.known r.ended r.slots) };
}

impl Receiver {
    /// Returns a receiver that starts at the message `next`. It stores messages with numbers below the current `next`
    /// plus `window`. The window is allocated here; later only messages need memory.
    pub fn new(
        alloc: Global,
        session: Session,
        next: u64,
        window: u32,
    ) -> Result<Receiver, ReceiverError>
        ensures made { IfOk result (λ receiver. receiver ≡ fresh session next window) }
        ensures ok { OnOk result ((0 < next) × IsWindow window) }
        ensures zero { next ≡ 0 → result ≡ Err NextZero }
        ensures window { 0 < next → (IsWindow window → ⊥) → result ≡ Err Window }
        ensures memory { 0 < next → IsWindow window → IfErr result (λ error. error ≡ Memory) }
    {
        if next > 0 && window > MAX_WINDOW {
            return Err(ReceiverError::Window);
        }
        Receiver::wide(alloc, session, next, window)
    }

    /// Returns a receiver as `new` does, but with a window of up to `MAX_WIDE_WINDOW` messages. The window takes some 8
    /// bytes for each of them.
    pub fn wide(
        alloc: Global,
        session: Session,
        next: u64,
        window: u32,
    ) -> Result<Receiver, ReceiverError>
        ensures made { IfOk result (λ receiver. receiver ≡ fresh session next window) }
        ensures ok { OnOk result ((0 < next) × IsWideWindow window) }
        ensures zero { next ≡ 0 → result ≡ Err NextZero }
        ensures window { 0 < next → (IsWideWindow window → ⊥) → result ≡ Err Window }
        ensures memory { 0 < next → IsWideWindow window → IfErr result (λ error. error ≡ Memory) }
    {
        Receiver::bounded(alloc, session, next, window, None)
    }

    /// Returns a receiver as `wide` does, whose store has room for `store` bytes. With `None` the store is not
    /// limited. The bytes are those of the stored messages and of their length fields, 2 for each message. If the
    /// store has no room for the messages of a datagram that begins above `next`, all of them are dropped, as those
    /// past the window are. A datagram that has the message `next` needs no room.
    pub fn bounded(
        alloc: Global,
        session: Session,
        next: u64,
        window: u32,
        store: Option<u64>,
    ) -> Result<Receiver, ReceiverError>
        ensures made { IfOk result (λ receiver. receiver ≡ fresh_within store session next window) }
        ensures ok { OnOk result ((0 < next) × IsWideWindow window × IsRoom store) }
        ensures zero { next ≡ 0 → result ≡ Err NextZero }
        ensures window { 0 < next → (IsWideWindow window → ⊥) → result ≡ Err Window }
        ensures store { 0 < next → IsWideWindow window → (IsRoom store → ⊥) → result ≡ Err Store }
        ensures memory { 0 < next → IsWideWindow window → IsRoom store → IfErr result (λ error. error ≡ Memory) }
    {
        if next == 0 {
            return Err(ReceiverError::NextZero);
        }
        if window == 0 || window > MAX_WIDE_WINDOW {
            return Err(ReceiverError::Window);
        }
        if !is_room(store) {
            return Err(ReceiverError::Store);
        }
        match Slots::new(alloc, window) {
            Ok(slots) => Ok(Receiver {
                session,
                next,
                known: next,
                ended: None,
                slots,
                room: store,
                alloc,
            }),
            Err(_) => Err(ReceiverError::Memory),
        }
    }

    // Stores the messages of a packet that begins above `next`. The store has room for them.
    #[inline(always)]
    fn keep(&mut self, first: u64, top: u64, blocks: &Blocks<'_>) -> Result<Taken, AllocError>
        requires above { self.old.next < first }
        requires top { first + length blocks.now ≡ top }
        requires end { past_end self.old.ended (Data blocks.now) top ≡ None }
        requires same { first_conflict self.old.store (from_next self.old.next first blocks.now) ≡ None }
        requires room { exceeds self.old.room (stored_bytes self.old.store + length (packed blocks.now)) ≡ false }
        ensures taken { IfOk result
            (λ taken. HasTakenPacket self.old (data_packet self.old.session first blocks.now) self.new taken) }
        ensures handed { handed_on self.old first blocks.now ≡ [] }
        ensures needed { OnErr result
            (TakesMemory self.old (data_packet self.old.session first blocks.now)) }
        ensures unchanged { OnErr result (self.new ≡ self.old) }
    {
        let beyond = count_beyond(self.next, self.slots.len(), top, blocks.len());
        let kept = self.slots.keep(self.alloc, first - self.next, blocks)?;
        self.known = self.known.max(top);
        Ok(Taken {
            handed: 0,
            kept,
            beyond,
        })
    }

    // Drops the messages of a packet that begins above `next`. The store has no room for them.
    // For the optimizer: only `Slots::count_absent` is a call. A call of this function would return `Taken` through
    // memory, and would make `hear` slower for each datagram that is stored.
    #[inline(always)]
    fn drop_messages(&mut self, first: u64, top: u64, blocks: &Blocks<'_>) -> Taken
        requires above { self.old.next < first }
        requires top { first + length blocks.now ≡ top }
        requires few { length blocks.now < END_OF_SESSION }
        requires end { past_end self.old.ended (Data blocks.now) top ≡ None }
        requires room { exceeds self.old.room (stored_bytes self.old.store + length (packed blocks.now)) ≡ true }
        ensures taken { HasTakenPacket self.old (data_packet self.old.session first blocks.now) self.new result }
        ensures handed { handed_on self.old first blocks.now ≡ [] }
    {
        let beyond = self.slots.count_absent(first - self.next, blocks);
        self.known = self.known.max(top);
        Taken {
            handed: 0,
            kept: 0,
            beyond,
        }
    }

    // Stores the messages of a packet that begins above `next`, or drops them if the store has no room for them.
    #[inline(always)]
    fn keep_or_drop(
        &mut self,
        first: u64,
        top: u64,
        blocks: &Blocks<'_>,
    ) -> Result<Taken, AllocError>
        requires above { self.old.next < first }
        requires top { first + length blocks.now ≡ top }
        requires few { length blocks.now < END_OF_SESSION }
        requires end { past_end self.old.ended (Data blocks.now) top ≡ None }
        requires same { first_conflict self.old.store (from_next self.old.next first blocks.now) ≡ None }
        ensures taken { IfOk result
            (λ taken. HasTakenPacket self.old (data_packet self.old.session first blocks.now) self.new taken) }
        ensures handed { handed_on self.old first blocks.now ≡ [] }
        ensures needed { OnErr result
            (TakesMemory self.old (data_packet self.old.session first blocks.now)) }
        ensures unchanged { OnErr result (self.new ≡ self.old) }
    {
        if self.lacks_room(blocks) {
            return Ok(self.drop_messages(first, top, blocks));
        }
        self.keep(first, top, blocks)
    }

    // Returns whether the store has no room for the messages of a packet.
    #[inline(always)]
    fn lacks_room(&self, blocks: &Blocks<'_>) -> bool
        ensures { result ≡ exceeds self.now.room (stored_bytes self.now.store + length (packed blocks.now)) }
    {
        exceeds(self.room, self.slots.bytes(), blocks.bytes().len())
    }

    // Delivers from a packet that has the message `next`.
    #[inline(always)]
    fn hand(
        &mut self,
        first: u64,
        top: u64,
        blocks: &Blocks<'_>,
        batch: &mut Batch,
    ) -> Result<Taken, AllocError>
        requires packet { HasNext batch.old self.old.next first top blocks.now }
        requires few { length blocks.now < END_OF_SESSION }
        requires end { past_end self.old.ended (Data blocks.now) top ≡ None }
        ensures taken { IfOk result
            (λ taken. HasTakenPacket self.old (data_packet self.old.session first blocks.now) self.new taken) }
        ensures handed { OnOk result
            (batch.new ≡ followed_by batch.old self.old.next (handed_on self.old first blocks.now)) }
        ensures needed { OnErr result
            (TakesMemory self.old (data_packet self.old.session first blocks.now)) }
        ensures unchanged { OnErr result (self.new ≡ self.old) }
        ensures batch { OnErr result (batch.new ≡ batch.old) }
    {
        let next = hand_on(batch, self.next, first, top, blocks, &self.slots)?;
        let handed = next - self.next;
        let count = (handed as usize).min(self.slots.len());
        self.slots.skip(count);
        self.next = next;
        self.known = self.known.max(top);
        Ok(Taken {
            handed: handed as u32,
            kept: 0,
            beyond: 0,
        })
    }

    // Records what is known from a packet that has no message from `next` on.
    #[inline(always)]
    fn note(&mut self, packet: &Packet<'_>, top: u64) -> Taken
        requires top { top_of packet.now ≡ top }
        requires last { top < 2 ^ 64 }
        requires nothing { (top ≤ self.old.next) ⊎ (messages_of packet.now.body ≡ []) }
        requires below { end_below packet.now.body packet.now.sequence self.old.known ≡ None }
        requires past { past_end self.old.ended packet.now.body top ≡ None }
        ensures taken { HasTakenPacket self.old packet.now self.new result }
        ensures handed { handed_on self.old packet.now.sequence (messages_of packet.now.body) ≡ [] }
    {
        self.known = self.known.max(top);
        self.ended = known_end(packet, self.ended);
        Taken {
            handed: 0,
            kept: 0,
            beyond: 0,
        }
    }

    // Returns the packet's top, or the first refusal that applies to it.
    #[inline(always)]
    fn check(&self, packet: &Packet<'_>) -> Result<u64, Refusal>
        ensures top { IfOk result (λ top. top ≡ top_of packet.now) }
        ensures taken { OnOk result (refusal self.now packet.now ≡ None) }
        ensures refused { IfErr result (λ refused. refusal self.now packet.now ≡ Some refused) }
    {
        let top = check_header(packet, Some(self.session), self.known, self.ended)?;
        // Each stored message has a number below `known`.
        if self.known <= packet.sequence {
            return Ok(top);
        }
        match conflict_of(&self.slots, self.next, packet, top) {
            Some(number) => Err(Refusal::Conflict { number }),
            None => Ok(top),
        }
    }

    // Takes a packet to which no refusal applies.
    #[inline(always)]
    fn take_packet(
        &mut self,
        packet: &Packet<'_>,
        top: u64,
        batch: &mut Batch,
    ) -> Result<Taken, AllocError>
        requires follows { Follows batch.old self.old.next }
        requires top { top_of packet.now ≡ top }
        requires body { IsBody packet.now.body }
        requires taken { refusal self.old packet.now ≡ None }
        ensures taken { IfOk result (λ taken. HasTakenPacket self.old packet.now self.new taken) }
        ensures handed { OnOk result
            (batch.new ≡ followed_by batch.old self.old.next
            (handed_on self.old packet.now.sequence (messages_of packet.now.body))) }
        ensures needed { OnErr result (TakesMemory self.old packet.now) }
        ensures unchanged { OnErr result (self.new ≡ self.old) }
        ensures batch { OnErr result (batch.new ≡ batch.old) }
    {
        let Body::Data(blocks) = &packet.body else {
            return Ok(self.note(packet, top));
        };
        if top <= self.next {
            return Ok(self.note(packet, top));
        }
        if self.next < packet.sequence {
            return self.keep_or_drop(packet.sequence, top, blocks);
        }
        self.hand(packet.sequence, top, blocks, batch)
    }

    /// Takes a datagram as `take` does, and returns the packet's top too.
    #[inline(always)]
    pub(crate) fn accept(&mut self, bytes: &[u8], batch: &mut Batch) -> Result<Accepted, Refusal>
        requires { Follows batch.old self.old.next }
        ensures taken { IfOk result
            (λ accepted. HasTaken self.old bytes.now batch.old self.new batch.new accepted.taken) }
        ensures top { IfOk result (λ accepted. accepted.top ≡ top_read (reading bytes.now)) }
        ensures refused { IfErr result (λ refused. IsRefusedFor self.old bytes.now refused) }
        ensures view { OnErr result (self.new ≡ self.old) }
        ensures batch { OnErr result (batch.new ≡ batch.old) }
    {
        let packet = match decode(bytes) {
            Ok(packet) => packet,
            Err(error) => return Err(Refusal::Malformed(error)),
        };
        let top = self.check(&packet)?;
        match self.take_packet(&packet, top, batch) {
            // For the optimizer: a copy of the whole struct would wait until its fields, which were written just
            // before, reach memory.
            Ok(
                Taken {
                    handed,
                    kept,
                    beyond,
                },
            ) => Ok(Accepted {
                taken: Taken {
                    handed,
                    kept,
                    beyond,
                },
                top,
            }),
            Err(_) => Err(Refusal::Memory),
        }
    }

    // Takes a packet to which no refusal applies as `take_packet` does, if it begins at `next` or has nothing new.
    // Otherwise, and if an allocation fails, it returns `None`, and nothing changes.
    #[inline(always)]
    fn take_usual(&mut self, packet: &Packet<'_>, top: u64, batch: &mut Batch) -> Option<Taken>
        requires follows { Follows batch.old self.old.next }
        requires top { top_of packet.now ≡ top }
        requires body { IsBody packet.now.body }
        requires taken { refusal self.old packet.now ≡ None }
        ensures taken { IfSome result (λ taken. HasTakenPacket self.old packet.now self.new taken) }
        ensures handed { OnSome result
            (batch.new ≡ followed_by batch.old self.old.next
            (handed_on self.old packet.now.sequence (messages_of packet.now.body))) }
        ensures unchanged { IfNone result (self.new ≡ self.old) }
        ensures batch { IfNone result (batch.new ≡ batch.old) }
    {
        let Body::Data(blocks) = &packet.body else {
            return Some(self.note(packet, top));
        };
        if self.next >= top {
            return Some(self.note(packet, top));
        }
        if self.next != packet.sequence {
            return None;
        }
        match self.hand(packet.sequence, top, blocks, batch) {
            Ok(taken) => Some(taken),
            Err(_) => None,
        }
    }

    /// Takes the usual datagrams as `accept` does, but faster: a heartbeat, and a packet that begins at `next` or has
    /// nothing new, while no message is stored and the session's end is not known. For other datagrams, and if an
    /// allocation fails, it returns `None`, and nothing changes.
    // For the optimizer: the tests for stored messages and for an end, as in `hear_quickly`.
    #[inline(always)]
    pub(crate) fn accept_quickly(&mut self, bytes: &[u8], batch: &mut Batch) -> Option<Accepted>
        requires { Follows batch.old self.old.next }
        ensures taken { IfSome result
            (λ accepted. HasTaken self.old bytes.now batch.old self.new batch.new accepted.taken) }
        ensures top { IfSome result (λ accepted. accepted.top ≡ top_read (reading bytes.now)) }
        ensures view { IfNone result (self.new ≡ self.old) }
        ensures batch { IfNone result (batch.new ≡ batch.old) }
    {
        if self.stored() > 0 || self.ended.is_some() {
            return None;
        }
        let packet = decode_plain(&self.session, bytes)?;
        let Ok(top) = self.check(&packet) else {
            return None;
        };
        match self.take_usual(&packet, top, batch) {
            Some(taken) => Some(Accepted { taken, top }),
            None => None,
        }
    }

    /// Takes a datagram. New messages are appended to `batch`, or stored if they are above a gap. Above a gap,
    /// messages past the window are dropped, and all messages of a datagram for which the store has no room. Every
    /// refusal except `Memory` is found before anything is allocated. After a refusal, the receiver and the batch are
    /// unchanged. The batch must be empty or end just before `next`.
    pub fn take(&mut self, bytes: &[u8], batch: &mut Batch) -> Result<Taken, Refusal>
        requires { Follows batch.old self.old.next }
        ensures taken { IfOk result (λ taken. HasTaken self.old bytes.now batch.old self.new batch.new taken) }
        ensures refused { IfErr result (λ refused. IsRefusedFor self.old bytes.now refused) }
        ensures view { OnErr result (self.new ≡ self.old) }
        ensures batch { OnErr result (batch.new ≡ batch.old) }
    {
        let accepted = self.accept(bytes, batch)?;
        Ok(accepted.taken)
    }

    // Delivers from a packet that has the message `next`. Its messages are not copied: only the stored messages that
    // follow them go to the batch, which is empty.
    #[inline(always)]
    fn hand_own(
        &mut self,
        first: u64,
        top: u64,
        blocks: &Blocks<'_>,
        batch: &mut Batch,
    ) -> Result<Taken, AllocError>
        requires empty { batch.old ≡ record { first = 0; messages = [] } }
        requires packet { HasNext batch.old self.old.next first top blocks.now }
        requires few { length blocks.now < END_OF_SESSION }
        requires end { past_end self.old.ended (Data blocks.now) top ≡ None }
        ensures taken { IfOk result
            (λ taken. HasTakenPacket self.old (data_packet self.old.session first blocks.now) self.new taken) }
        ensures own { OnOk result (HandsOwn self.old (data_packet self.old.session first blocks.now)
            (drop (self.old.next - first) blocks.now) batch.new) }
        ensures needed { OnErr result
            (NeedsRoom self.old (data_packet self.old.session first blocks.now)) }
        ensures unchanged { OnErr result (self.new ≡ self.old) }
        ensures batch { OnErr result (batch.new ≡ batch.old) }
    {
        let start = (top - self.next) as usize;
        let end = deliver_following(self.alloc, batch, self.next, &mut self.slots, start)?;
        let next = self.next + end as u64;
        self.next = next;
        self.known = self.known.max(top);
        Ok(Taken {
            handed: end as u32,
            kept: 0,
            beyond: 0,
        })
    }

    // Takes a packet to which no refusal applies, without copying the messages that it delivers itself.
    #[inline(always)]
    fn hear_packet<'a>(
        &mut self,
        packet: &Packet<'a>,
        top: u64,
        batch: &mut Batch,
    ) -> Result<Heard<'a>, AllocError>
        requires empty { batch.old ≡ record { first = 0; messages = [] } }
        requires top { top_of packet.now ≡ top }
        requires body { IsBody packet.now.body }
        requires taken { refusal self.old packet.now ≡ None }
        ensures taken { IfOk result (λ heard. HasTakenPacket self.old packet.now self.new heard.taken) }
        ensures own { IfOk result (λ heard. HandsOwn self.old packet.now heard.own batch.new) }
        ensures needed { OnErr result (NeedsRoom self.old packet.now) }
        ensures unchanged { OnErr result (self.new ≡ self.old) }
        ensures batch { OnErr result (batch.new ≡ batch.old) }
    {
        let Body::Data(blocks) = &packet.body else {
            return Ok(Heard {
                taken: self.note(packet, top),
                own: Messages::none(),
            });
        };
        if self.next >= top {
            return Ok(Heard {
                taken: self.note(packet, top),
                own: Messages::none(),
            });
        }
        if packet.sequence > self.next {
            return Ok(Heard {
                taken: self.keep_or_drop(packet.sequence, top, blocks)?,
                own: Messages::none(),
            });
        }
        let own = blocks.iter_from((self.next - packet.sequence) as u16);
        let taken = self.hand_own(packet.sequence, top, blocks, batch)?;
        Ok(Heard { taken, own })
    }

    // Takes a packet to which no refusal applies as `hear_packet` does, if it begins at `next` or has nothing new.
    // Otherwise it returns `None`, and nothing changes.
    #[inline(always)]
    fn hear_usual<'a>(
        &mut self,
        packet: &Packet<'a>,
        top: u64,
        batch: &mut Batch,
    ) -> Option<Heard<'a>>
        requires empty { batch.old ≡ record { first = 0; messages = [] } }
        requires top { top_of packet.now ≡ top }
        requires body { IsBody packet.now.body }
        requires taken { refusal self.old packet.now ≡ None }
        ensures taken { IfSome result (λ heard. HasTakenPacket self.old packet.now self.new heard.taken) }
        ensures own { IfSome result (λ heard. HandsOwn self.old packet.now heard.own batch.new) }
        ensures unchanged { IfNone result (self.new ≡ self.old) }
        ensures batch { IfNone result (batch.new ≡ batch.old) }
    {
        let Body::Data(blocks) = &packet.body else {
            return Some(Heard {
                taken: self.note(packet, top),
                own: Messages::none(),
            });
        };
        if self.next >= top {
            return Some(Heard {
                taken: self.note(packet, top),
                own: Messages::none(),
            });
        }
        if packet.sequence != self.next {
            return None;
        }
        match self.hand_own(packet.sequence, top, blocks, batch) {
            Ok(taken) => Some(Heard {
                taken,
                own: blocks.iter(),
            }),
            Err(_) => None,
        }
    }

    /// Takes a datagram as `hear` does, and returns the packet's top too.
    #[inline(always)]
    pub(crate) fn hear_top<'a>(
        &mut self,
        bytes: &'a [u8],
        batch: &mut Batch,
    ) -> Result<HeardPacket<'a>, Refusal>
        ensures heard { IfOk result
            (λ heard. HasHeard self.old bytes.now self.new heard.own batch.new heard.taken) }
        ensures top { IfOk result (λ heard. heard.top ≡ top_read (reading bytes.now)) }
        ensures refused { IfErr result (λ refused. IsUnheardFor self.old bytes.now refused) }
        ensures view { OnErr result (self.new ≡ self.old) }
        ensures batch { OnErr result (batch.new ≡ record { first = 0; messages = [] }) }
    {
        batch.clear();
        let packet = match decode(bytes) {
            Ok(packet) => packet,
            Err(error) => return Err(Refusal::Malformed(error)),
        };
        let checked = self.check(&packet)?;
        match self.hear_packet(&packet, checked, batch) {
            Ok(Heard { taken, own }) => Ok(HeardPacket {
                taken,
                own,
                top: checked,
            }),
            Err(_) => Err(Refusal::Memory),
        }
    }

    /// Takes the usual datagrams as `hear_top` does, but faster, if the batch is empty: a heartbeat, and a packet that
    /// begins at `next` or has nothing new, while no message is stored and the session's end is not known. For other
    /// datagrams it returns `None`, and nothing changes.
    // For the optimizer: the tests for stored messages and for an end are not needed for correctness. They let the
    // compiler omit branches of the functions that are called after them.
    // For the prover: `is_empty` doesn't state that an empty batch has the first number 0.
    #[inline(always)]
    pub(crate) fn hear_quickly<'a>(
        &mut self,
        bytes: &'a [u8],
        batch: &mut Batch,
    ) -> Option<HeardPacket<'a>>
        ensures heard { IfSome result
            (λ heard. HasHeard self.old bytes.now self.new heard.own batch.new heard.taken) }
        ensures top { IfSome result (λ heard. heard.top ≡ top_read (reading bytes.now)) }
        ensures view { IfNone result (self.new ≡ self.old) }
        ensures batch { IfNone result (batch.new ≡ batch.old) }
    {
        if batch.len() > 0 || self.stored() > 0 || self.ended.is_some() {
            return None;
        }
        let packet = decode_plain(&self.session, bytes)?;
        let Ok(top) = self.check(&packet) else {
            return None;
        };
        match self.hear_usual(&packet, top, batch) {
            Some(Heard { taken, own }) => Some(HeardPacket { taken, own, top }),
            None => None,
        }
    }

    /// Takes a datagram as `take` does, but doesn't copy the messages that the datagram delivers itself: the result has
    /// them. They are valid as long as the datagram. The batch is emptied first, and gets the stored messages that
    /// follow them. Memory is only needed to store messages and to deliver stored ones. After a refusal, the receiver
    /// is unchanged and the batch is empty.
    pub fn hear<'a>(&mut self, bytes: &'a [u8], batch: &mut Batch) -> Result<Heard<'a>, Refusal>
        ensures heard { IfOk result
            (λ heard. HasHeard self.old bytes.now self.new heard.own batch.new heard.taken) }
        ensures refused { IfErr result (λ refused. IsUnheardFor self.old bytes.now refused) }
        ensures view { OnErr result (self.new ≡ self.old) }
        ensures batch { OnErr result (batch.new ≡ record { first = 0; messages = [] }) }
    {
        let HeardPacket { taken, own, .. } = self.hear_top(bytes, batch)?;
        Ok(Heard { taken, own })
    }

    /// Returns the session of the receiver.
    pub fn session(&self) -> Session
        ensures { result ≡ self.now.session }
    {
        self.session
    }

    /// Returns the number of the next message to deliver.
    pub fn next(&self) -> u64
        ensures { result ≡ self.now.next }
    {
        self.next
    }

    /// Returns the greatest top of an accepted packet, or the number that the receiver started at if that is greater.
    /// It is one more than the greatest number that the receiver knows of.
    pub fn known(&self) -> u64
        ensures { result ≡ self.now.known }
    {
        self.known
    }

    /// Returns one more than the number of the session's last message, or `None` before an end packet was accepted.
    pub fn ended(&self) -> Option<u64>
        ensures { result ≡ self.now.ended }
    {
        self.ended
    }

    /// Returns whether an end packet was accepted and all messages of the session were delivered.
    pub fn finished(&self) -> bool
        ensures { IsTrue result ↔ (self.now.ended ≡ Some self.now.next) }
    {
        self.ended == Some(self.next)
    }

    /// Returns the number of stored messages. It is less than the window.
    pub fn stored(&self) -> u32
        ensures count { result ≡ finite.len self.now.store }
        ensures bound { result < self.now.window }
    {
        self.slots.held()
    }

    /// Returns the number of memory segments that the store has, including the spare ones.
    pub fn segments(&self) -> usize
        ensures { result ≤ finite.len self.now.store + MAX_SPARE }
    {
        self.slots.segments()
    }

    /// Returns the memory of the store's segments in bytes, together with the spare ones. It takes a step for each
    /// segment. The slots and the table of the segments are not counted.
    pub fn memory(&self) -> usize
        ensures most { result ≤ MAX_SPARE * SEGMENT_BYTES + 2 * stored_bytes self.now.store }
        ensures least { min (stored_bytes self.now.store) (2 ^ 64 - 1) ≤ result }
    {
        self.slots.memory()
    }

    /// Returns the bytes of the stored messages and of their length fields, 2 for each message. They are within the
    /// room of the store.
    pub fn stored_bytes(&self) -> usize
        ensures bytes { result ≡ stored_bytes self.now.store }
        ensures within { IsWithinRoom self.now.room (stored_bytes self.now.store) }
    {
        self.slots.bytes()
    }

    /// Returns the window, 1 to `MAX_WIDE_WINDOW`: the receiver stores messages with numbers below `next` plus the
    /// window.
    pub fn window(&self) -> u32
        ensures window { result ≡ self.now.window }
        ensures range { IsWideWindow self.now.window }
    {
        self.slots.len() as u32
    }

    /// Returns the request for the first gap, or `None` if no message below `known` is missing. The request covers
    /// the numbers from `next` to just below the first stored message, or below `known` if none is stored. It asks
    /// for at most `MAX_COUNT` messages.
    pub fn wanted(&self) -> Option<Request>
        ensures wanted { result ≡ wanted self.now }
        ensures well_formed { IsWellFormed self.now }
    {
        if self.next == self.known {
            return None;
        }
        let most = (self.known - self.next).min(MAX_COUNT as u64);
        let count = self.slots.next_held(0, most as usize);
        Some(Request {
            session: self.session,
            sequence: self.next,
            count: count as u16,
        })
    }

    /// Gives up the messages from `next` to just below `to`, all of which must be missing: `next_missing` returns the
    /// end of the gap at `next`. The stored messages from `to` on, up to the first missing one, are appended to
    /// `batch`, and `next` then comes after them. Returns how many they are. If an allocation fails, it returns an
    /// error, and the receiver and the batch are unchanged. The batch must be empty or end just before `to`.
    pub fn skip(&mut self, to: u64, batch: &mut Batch) -> Result<u32, AllocError>
        requires ahead { self.old.next < to }
        requires missing { AreMissing self.old to }
        requires follows { Follows batch.old to }
        ensures skipped { OnOk result (self.new ≡ skipped self.old to) }
        ensures handed { OnOk result (batch.new ≡ followed_by batch.old to (skipped_run self.old to)) }
        ensures count { IfOk result (λ count. count ≡ length (skipped_run self.old to)) }
        ensures needed { OnErr result (0 < length (skipped_run self.old to)) }
        ensures view { OnErr result (self.new ≡ self.old) }
        ensures batch { OnErr result (batch.new ≡ batch.old) }
    {
        let start = (to - self.next) as usize;
        let end = hand_stored(batch, self.next, &self.slots, start)?;
        self.slots.skip(end.min(self.slots.len()));
        self.next += end as u64;
        Ok((end - start) as u32)
    }

    /// Returns the first gap at or above the number `from`, or the rest of a gap if `from` is in it. Numbers below
    /// `next` are not missing. Returns `None` if no message from `from` to just below `known` is missing. It skips 64
    /// stored messages, or any number of missing ones, in a step.
    pub fn next_missing(&self, from: u64) -> Option<Gap>
        ensures some { IfSome result (λ gap. IsNextGap self.now (max from self.now.next) gap) }
        ensures none { IfNone result (HasNoGap self.now (max from self.now.next)) }
    {
        let start = from.saturating_sub(self.next) as usize;
        let end = (self.known - self.next) as usize;
        let first = self.slots.first_empty(start);
        if first >= end {
            return None;
        }
        let after = self.slots.next_held(first, end);
        Some(Gap {
            first: self.next + first as u64,
            end: self.next + after as u64,
        })
    }

    /// Returns the first number at or above `from` that is not stored. It is missing if it is below `known`: then it
    /// begins the gap that `next_missing` returns. It costs less, because it does not look for the end of the gap. It
    /// skips 64 stored messages in a step.
    #[inline(always)]
    pub fn first_absent(&self, from: u64) -> u64
        requires { self.now.next ≤ from }
        ensures { IsFirstAbsent self.now from result }
    {
        let start = (from - self.next) as usize;
        let first = self.slots.first_empty(start);
        self.next + first as u64
    }
}
