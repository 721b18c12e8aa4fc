//! The world: a publisher, a re-request server and receivers that run on events.

ghost use Rattle.std.specs.Prelude.{◌≡◌, ◌<◌, ℕ, None, Some, Ok, length, map, take, slice_get, unwrap_or};
ghost use Rattle.std.specs.Prelude.{IfOk, IfErr, OnOk, OnErr};
ghost use Rattle.std.specs.Option.{option_copied, option_map};
ghost use Rattle.mold_receiver.specs.Arbiter.{report_on};
ghost use Rattle.mold_world.specs.Effect.{after_event, effect, run_events};
ghost use Rattle.mold_world.specs.HandOns.{handed_by_all};
ghost use Rattle.mold_world.specs.Headline.{ArePublished};
ghost use Rattle.mold_world.specs.Deliveries.{HasReceived};
ghost use Rattle.mold_world.specs.Kept.{IsWorld};
ghost use Rattle.mold_world.specs.Refusals.{MayWant, Refuses, world_refusal};
ghost use Rattle.mold_world.specs.Runs.{IsHeadline, IsStopped, applied};
ghost use Rattle.mold_world.specs.Event.{seen};
ghost use Rattle.mold_world.specs.Steps.{AreSteps, AreStepsOfAll, is_finished};
ghost use Rattle.mold_world.specs.Straight.{HasSent, IsStraight};
ghost use Rattle.mold_world.specs.World.{beginning};
ghost use Rattle.mold_world.specs.declared.report.WorldError.{WorldError};

use crate::beginning::{check_world, has_name, make_subscribers};
use crate::event::Event;
use crate::laws::{delivery_law, run_law, straight_law};
use crate::participants::Participants;
use crate::report::{Report, WorldError};
use crate::stopped::Stopped;
use mold_messages::{MessageIterator, MessageList};
use mold_receiver::{Batch, Line, LineReport, Receiver};
use mold_session::{Journal, Publisher, Server};
use mold_wire::Session;
use std::alloc::{AllocError, Global};
use std::fmt;
use std::fmt::{Debug, Formatter};
use std::marker::Model;

/// A publisher, a re-request server and receivers of one session, with every datagram that was ever sent. Any
/// receiver may receive any of these datagrams, at any time and any number of times.
#[derive(Drop)]
pub struct World {
    parts: Participants,
}

impl Debug for World {
    fn fmt<W: fmt::Write>(&self, f: &mut Formatter<W>) -> fmt::Result {
        f.debug_struct("World").finish_non_exhaustive()
    }
}

impl Model for World {
    ghost use Rattle.mold_world.specs.Codes.{world_code};
    ghost use Rattle.mold_world.specs.Inside.{AreParts, world_of};
    ghost use Rattle.mold_world.specs.World.{WorldState};

    ghost Value = { WorldState };

    ghost coded = { world_code };

    ghost view = { λ w. world_of w.parts };

    ghost invariant = { λ w. AreParts w.parts };
}

impl World {
    /// Returns a world with an open session and no messages. `limit` is the publisher's datagram limit in bytes, and
    /// `server_limit` is the server's. `burst` is the greatest number of responses to one request. Each window makes
    /// one receiver, which starts at message 1. `WorldError` describes the refusals and their order.
    pub fn new(
        alloc: Global,
        session: Session,
        limit: usize,
        server_limit: usize,
        burst: u16,
        windows: &[u32],
    ) -> Result<World, WorldError>
        ensures made { IfOk result (λ world. world ≡ beginning session limit server_limit burst windows.now) }
        ensures ok { OnOk result (world_refusal limit server_limit burst windows.now ≡ None) }
        ensures refused { IfErr result (λ error.
            error ≡ unwrap_or (world_refusal limit server_limit burst windows.now) WorldError.Memory) }
    {
        run_law();
        has_name(session);
        check_world(limit, server_limit, burst, windows)?;
        let Ok(publisher) = Publisher::new(alloc, session, limit) else {
            return Err(WorldError::Memory);
        };
        let max_message = publisher.journal().max_message();
        let Ok(server) = Server::new(alloc, server_limit, max_message, burst) else {
            return Err(WorldError::Memory);
        };
        let parts = Participants {
            alloc,
            publisher,
            server,
            sent: MessageList::new(alloc),
            subscribers: make_subscribers(alloc, session, windows)?,
        };
        Ok(World { parts })
    }

    /// Applies an event; a refused one leaves the world unchanged. `Memory` is returned only if an allocation fails,
    /// and then nothing is sent. The responses to a request are all sent, or none is.
    ///
    /// A datagram that was sent is never reported as refused. Noise always is, and changes no receiver's view and no
    /// book.
    pub fn apply(&mut self, event: &Event<'_>) -> Result<Report, WorldError>
        ensures done { IfOk result (λ report. effect self.old (seen event.now) ≡ Ok (report, self.new)) }
        ensures refused { IfErr result (λ error. Refuses self.old (seen event.now) error) }
        ensures same { OnErr result (self.new ≡ self.old) }
        ensures received { IfOk result (λ report. HasReceived (seen event.now) report self.old self.new) }
        ensures step { OnOk result (AreSteps self.old (seen event.now) self.new) }
    {
        delivery_law();
        run_law();
        self.parts.change(event)
    }

    // States what holds of every world.
    fn keep(&self)
        ensures { IsWorld self.now }
    {
        // For the prover: it knows the invariant of a type where a field is read.
        let _ = &self.parts;
    }

    // Applies an event. It returns an error only if an allocation fails.
    fn apply_or_skip(&mut self, event: &Event<'_>) -> Result<(), AllocError>
        ensures passed { OnOk result (self.new ≡ after_event self.old (seen event.now)) }
        ensures same { OnErr result (self.new ≡ self.old) }
        ensures wanting { OnErr result (MayWant self.old (seen event.now)) }
    {
        match self.apply(event) {
            Ok(_) => Ok(()),
            Err(WorldError::Memory) => Err(AllocError),
            Err(_) => Ok(()),
        }
    }

    /// Applies events in order. It stops only if an allocation fails; the events before are then applied. An event that
    /// is refused for another reason is skipped.
    ///
    /// The following holds whether the run stops or not. After each event, every book is a prefix of the published
    /// messages. If a receiver is finished, its book is the whole closed session. Each message that was delivered, also
    /// before a restart, is the one that was published with its number. The run corresponds to steps of the machine of
    /// `laws::safety_law`, which deliver the same messages.
    ///
    /// The clause `straight` is about a run that returns `Ok`, and about a receiver that got each data packet of new
    /// messages right after it was sent, and did not restart. If before the run its book has every message that was
    /// sent in a datagram so far, the same is true after the run.
    pub fn run(&mut self, events: &[Event<'_>]) -> Result<(), Stopped>
        ensures left { self.new ≡ run_events self.old (applied result (map seen events.now)) }
        ensures place { IfErr result (λ stopped. stopped.at < length events.now) }
        ensures stopped { IfErr result (λ stopped. IsStopped self.old (map seen events.now) stopped.at) }
        ensures headline { (count : ℕ) → IsHeadline (run_events self.old (take count (map seen events.now))) }
        ensures handed { ArePublished self.new.publisher.journal.messages
            (handed_by_all self.old (applied result (map seen events.now))) }
        ensures steps { AreStepsOfAll self.old (applied result (map seen events.now)) self.new }
        ensures straight { OnOk result ((receiver : ℕ) → IsStraight self.old receiver (map seen events.now) →
            HasSent self.old receiver → HasSent self.new receiver) }
    {
        run_law();
        straight_law();
        self.keep();
        for (at, event) in events.iter().enumerate() {
            if self.apply_or_skip(event).is_err() {
                return Err(Stopped { at });
            }
        }
        Ok(())
    }

    /// Returns the journal of the published messages.
    pub fn published(&self) -> &Journal
        ensures { result.now ≡ self.now.publisher.journal }
    {
        self.parts.publisher.journal()
    }

    /// Returns whether the session is closed.
    pub fn is_closed(&self) -> bool
        ensures { result ≡ self.now.publisher.journal.closed }
    {
        self.parts.publisher.is_closed()
    }

    /// Returns the number of datagrams that were ever sent.
    pub fn sent_len(&self) -> usize
        ensures { result ≡ length self.now.sent }
    {
        self.parts.sent.len()
    }

    /// Returns an iterator over the datagrams that were ever sent, in order.
    pub fn sent(&self) -> MessageIterator<'_>
        ensures { result ≡ self.now.sent }
    {
        self.parts.sent.iter()
    }

    /// Returns the datagram with the index `i`, counted from 0, or `None` if at most `i` datagrams were sent.
    pub fn sent_at(&self, i: usize) -> Option<&[u8]>
        ensures { option_copied result ≡ slice_get self.now.sent i }
    {
        self.parts.sent.get(i)
    }

    /// Returns the number of receivers.
    pub fn receivers(&self) -> usize
        ensures { result ≡ length self.now.subscribers }
    {
        self.parts.subscribers.len()
    }

    /// Returns the book of receiver `r`: what it delivered, from message 1 on. After a restart, the book has the
    /// messages before the restart's number and what was delivered since. It is `None` if there is no such receiver.
    pub fn book(&self, r: usize) -> Option<&Batch>
        ensures { option_copied result ≡ option_map (λ subscriber. subscriber.book) (slice_get self.now.subscribers r) }
    {
        Some(self.parts.subscribers.get(r)?.book())
    }

    /// Returns whether receiver `r` knows the session's end and delivered every message up to it, or `None` if there
    /// is no such receiver.
    pub fn finished(&self, r: usize) -> Option<bool>
        ensures { result
            ≡ option_map (λ subscriber. is_finished subscriber.arbitration.view) (slice_get self.now.subscribers r) }
    {
        Some(self.parts.subscribers.get(r)?.receiver().finished())
    }

    /// Returns receiver `r`, or `None` if there is no such receiver.
    pub fn receiver(&self, r: usize) -> Option<&Receiver>
        ensures { option_copied result
            ≡ option_map (λ subscriber. subscriber.arbitration.view) (slice_get self.now.subscribers r) }
    {
        Some(self.parts.subscribers.get(r)?.receiver())
    }

    /// Returns what receiver `r` received on a line since it started or restarted, or `None` if there is no such
    /// receiver.
    pub fn report(&self, r: usize, line: Line) -> Option<LineReport>
        ensures { result ≡ option_map (λ subscriber. report_on line subscriber.arbitration.reports)
            (slice_get self.now.subscribers r) }
    {
        Some(self.parts.subscribers.get(r)?.report(line))
    }
}
