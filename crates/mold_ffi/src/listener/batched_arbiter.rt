//! What a listener is made of: an arbiter, and the batch of the messages that it delivered.

ghost use Rattle.std.specs.Prelude.{◌≡◌, ◌↔◌, ◌<◌, [], IfErr, IfNone, IfOk, IfSome, IsTrue, Ok, OnErr, OnOk, Some};
ghost use Rattle.std.specs.Prelude.{length};
ghost use Rattle.std.specs.Option.{OnSome};
ghost use Rattle.mold_ffi.specs.Listener.BatchedArbiter.{HasReceived, IsOwed, begun_within, cleared};
ghost use Rattle.mold_ffi.specs.Listener.Gaps.{MaySkip, Skips};
ghost use Rattle.mold_ffi.specs.declared.handle.held.Held.TheVariants.{Listener as AListener};
ghost use Rattle.mold_receiver.specs.Origin.{line_of};
ghost use Rattle.mold_receiver.specs.Own.{HasArbitratedOwn, HasRefusedOwn};
ghost use Rattle.mold_receiver.specs.View.{IsRoom, IsWellFormed, IsWideWindow};
ghost use Rattle.mold_receiver.specs.declared.origin.Origin.TheVariants as AnOrigin;
ghost use Rattle.mold_receiver.specs.declared.error.ReceiverError.TheVariants.{NextZero, Window, Store, Memory};

use crate::code::{BATCH, DONE, MEMORY, NOT_MISSING};
use mold_receiver::laws::{followed_law, taken_law};
use mold_receiver::{Arbiter, Batch, Heard, Line, Origin, Receiver, ReceiverError, Refusal, Taken};
use mold_wire::Session;
use std::alloc::Global;
use std::marker::Model;

/// An arbiter of two lines, and the batch of the messages that it delivered since the last `clear`.
#[derive(Drop)]
pub(crate) struct BatchedArbiter {
    arbiter: Arbiter,
    batch: Batch,
    // How many messages of the batch `hear` left there. They are its first ones.
    from_hear: usize,
}

impl Model for BatchedArbiter {
    ghost use Rattle.mold_ffi.specs.Listener.BatchedArbiter.{BatchedArbitration, IsFollowed, batched_code};

    ghost Value = { BatchedArbitration };

    ghost coded = { batched_code };

    ghost view = { λ b. record { arbitration = b.arbiter; batch = b.batch; from_hear = b.from_hear } };

    ghost invariant = { λ b.
        IsFollowed (record { arbitration = b.arbiter; batch = b.batch; from_hear = b.from_hear }) };
}

impl BatchedArbiter {
    /// A listener that begins at sequence number `next` with a window of `window` messages, and a store with this room.
    /// The window is allocated here; later only messages take memory.
    pub(crate) fn new(
        alloc: Global,
        session: Session,
        next: u64,
        window: u32,
        room: Option<u64>,
    ) -> Result<BatchedArbiter, ReceiverError>
        ensures made { IfOk result (λ listener. listener ≡ begun_within room session next window) }
        ensures ok { OnOk result ((0 < next) × IsWideWindow window × IsRoom room) }
        ensures zero { next ≡ 0 → IfErr result (λ error. error ≡ NextZero) }
        ensures window { 0 < next → (IsWideWindow window → ⊥) → IfErr result (λ error. error ≡ Window) }
        ensures store { 0 < next → IsWideWindow window → (IsRoom room → ⊥) → IfErr result (λ error. error ≡ Store) }
        ensures memory { 0 < next → IsWideWindow window → IsRoom room → IfErr result (λ error. error ≡ Memory) }
    {
        let receiver = Receiver::bounded(alloc, session, next, window, room)?;
        Ok(BatchedArbiter {
            arbiter: Arbiter::new(receiver),
            batch: Batch::new(alloc),
            from_hear: 0,
        })
    }

    /// Takes a datagram. The messages that are delivered join the batch.
    #[tactic(auto, using(crate::proofs::ListenerLemmas::datagram_received, crate::proofs::ListenerLemmas::still_has))]
    pub(crate) fn take(&mut self, origin: Origin, bytes: &[u8]) -> Result<Taken, Refusal>
        ensures { HasReceived origin bytes.now self.old self.new result }
    {
        taken_law();
        followed_law();
        // For the optimizer: two inlined calls, one for lines and one for responses. So neither copy has a branch on
        // the kind of the origin. With one call, a datagram of one message takes a sixth longer.
        match origin {
            Origin::Line(line) => self
                .arbiter
                .take_from(Origin::Line(line), bytes, &mut self.batch),
            Origin::Response => self
                .arbiter
                .take_from(Origin::Response, bytes, &mut self.batch),
        }
    }

    /// Takes a usual datagram of a line as `take` does, but faster. For other datagrams, and if an allocation fails,
    /// the result is `None`, and nothing changes.
    // Inlined for the same reason as `Arbiter::take_quickly`.
    #[inline(always)]
    #[tactic(auto, using(crate::proofs::ListenerLemmas::quickly_received, crate::proofs::ListenerLemmas::quickly_has))]
    pub(crate) fn take_quickly(&mut self, line: Line, bytes: &[u8]) -> Option<Taken>
        ensures taken { IfSome result (λ taken.
            HasReceived (AnOrigin.Line line) bytes.now self.old self.new (Ok taken)) }
        ensures same { IfNone result (self.new ≡ self.old) }
    {
        taken_law();
        followed_law();
        self.arbiter.take_quickly(line, bytes, &mut self.batch)
    }

    /// Whether the batch has messages that `hear` did not leave there.
    pub(crate) fn is_owed(&self) -> bool
        ensures { IsTrue result ↔ IsOwed self.now }
    {
        self.from_hear < self.batch.len()
    }

    /// Takes a datagram without copying the messages that it delivers itself. The batch is emptied first, and gets the
    /// stored messages that follow them.
    pub(crate) fn hear<'a>(&mut self, origin: Origin, bytes: &'a [u8]) -> Result<Heard<'a>, Refusal>
        ensures heard { IfOk result (λ heard. HasArbitratedOwn (line_of origin) self.old.arbitration bytes.now
            self.new.arbitration heard.own self.new.batch heard.taken) }
        ensures refused { IfErr result (λ refused. HasRefusedOwn (line_of origin) self.old.arbitration bytes.now
            self.new.arbitration refused) }
        ensures batch { OnErr result (self.new.batch ≡ record { first = 0; messages = [] }) }
        ensures from_hear { self.new.from_hear ≡ length self.new.batch.messages }
    {
        taken_law();
        let heard = self.arbiter.hear(origin, bytes, &mut self.batch);
        self.from_hear = self.batch.len();
        heard
    }

    /// Takes a usual datagram of a line as `hear` does, but faster, if the batch is empty. For other datagrams the
    /// result is `None`, and nothing changes.
    // Inlined for the same reason as `Arbiter::hear_quickly`.
    #[inline(always)]
    pub(crate) fn hear_quickly<'a>(&mut self, line: Line, bytes: &'a [u8]) -> Option<Heard<'a>>
        ensures heard { IfSome result (λ heard. HasArbitratedOwn (Some line) self.old.arbitration bytes.now
            self.new.arbitration heard.own self.new.batch heard.taken) }
        ensures from_hear { OnSome result (self.new.from_hear ≡ length self.new.batch.messages) }
        ensures empty { OnSome result (self.old.batch.messages ≡ []) }
        ensures same { IfNone result (self.new ≡ self.old) }
    {
        taken_law();
        if self.batch.len() > 0 {
            return None;
        }
        let heard = self.arbiter.hear_quickly(line, bytes, &mut self.batch);
        // For the optimizer: the batch stays empty. No clause of the arbiter states it, but the compiler omits this.
        if self.batch.len() > 0 {
            self.from_hear = self.batch.len();
        }
        heard
    }

    /// The arbiter.
    pub(crate) fn arbiter(&self) -> &Arbiter
        ensures { result.now ≡ self.now.arbitration }
    {
        &self.arbiter
    }

    /// The messages that were delivered since the last `clear`.
    pub(crate) fn batch(&self) -> &Batch
        ensures { result.now ≡ self.now.batch }
    {
        &self.batch
    }

    // Whether all messages from the next one to just below `to` are missing, and there is at least one.
    fn may_skip(&self, to: u64) -> bool
        ensures { IsTrue result ↔ MaySkip self.now.arbitration.view to }
    {
        let next = self.arbiter.receiver().next();
        match self.arbiter.next_missing(0) {
            Some(gap) => gap.first == next && next < to && to <= gap.end,
            None => false,
        }
    }

    /// Gives up the messages from the next one to just below `to`, if all of them are missing and the batch is empty.
    /// The stored messages that follow join the batch.
    pub(crate) fn skip(&mut self, to: u64) -> u32
        ensures { Skips self.old to result (Some (AListener self.new)) }
    {
        followed_law();
        if self.batch.len() > 0 {
            return BATCH;
        }
        if !self.may_skip(to) {
            return NOT_MISSING;
        }
        match self.arbiter.skip(to, &mut self.batch) {
            Ok(_) => DONE,
            Err(_) => MEMORY,
        }
    }

    /// Empties the batch, and keeps its memory.
    pub(crate) fn clear(&mut self)
        ensures { self.new ≡ cleared self.old }
    {
        self.batch.clear();
        self.from_hear = 0;
    }
}
