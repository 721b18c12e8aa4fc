//! The repairer: a receiver of two lines that requests what is missing.

ghost use Rattle.std.specs.Prelude.{◌≡◌, ◌≤◌, ◌<◌, ◌^◌, true};
ghost use Rattle.mold_receiver.specs.View.{IsWellFormed};
ghost use Rattle.mold_repair.specs.Front.{IsFront};
ghost use Rattle.mold_repair.specs.Options.{ArePacerOptions, are_options};
ghost use Rattle.mold_repair.specs.Props.{props};

use crate::ask::Ask;
use crate::auditing::audit_taken;
use crate::came::{is_timed, note, note_response};
use crate::error::RepairError;
use crate::front::Front;
use crate::gaps::find_free;
use crate::header::head_in;
use crate::line_stats::LineStats;
use crate::options::RepairOptions;
use crate::origin::RepairOrigin;
use crate::stats::{RepairCounts, RepairStats};
use mold_audit::Audit;
use mold_audit::laws::next_law;
use mold_pacing::{Arrival, Delays, Gap, Pacer};
use mold_receiver::laws::{having_law, taken_law, wanted_law, well_formed_law};
use mold_receiver::{Accepted, Arbiter, Batch, Line, Refusal, Taken};
use mold_wire::Request;
use std::alloc::{AllocError, Global};

// No number is below it.
const NO_FRONT: Front = Front {
    number: 0,
    until: 0,
};

/// A receiver of two lines that requests what is missing. It has no socket and no clock: its caller hands in the
/// datagrams and the time, sends the requests that `poll` returns, and calls `poll` again at the `deadline`.
///
/// Times are in nanoseconds, and below 2^62. A time below the last one counts as the last one.
#[derive(Drop)]
pub struct Repairer {
    arbiter: Arbiter,
    pacer: Pacer,
    options: RepairOptions,
    // The delays between the lines.
    delays: Delays,
    counts: RepairCounts,
    // The digests of what was delivered.
    audit: Audit,
    // Where the next search for a number that may be requested begins.
    front: Front,
    ghost valid: { are_options options ≡ true },
    ghost paced: { ArePacerOptions options pacer.options },
    ghost noted: { audit.next ≤ arbiter.view.next },
    ghost formed: { IsWellFormed arbiter.view } by { Prim.hlevel props },
    ghost fronted: { IsFront arbiter.view pacer.flights.items front.number front.until },
}

impl Repairer {
    ghost use Rattle.std.specs.Prelude.{[], ◌+◌, ℕ, Err, IfErr, IfNone, IfOk, IfSome, MatchOption, OnErr, OnOk, Some};
    ghost use Rattle.std.specs.Prelude.{drop, false, if◌then◌else◌, is_some, length, max, slice_get};
    ghost use Rattle.mold_audit.specs.Kept.{size_of};
    ghost use Rattle.mold_pacing.specs.declared.flight.Flight.{Flight};
    ghost use Rattle.mold_pacing.specs.State.{advanced, fresh};
    ghost use Rattle.mold_pacing.specs.Delays.{greatest_on, no_arrivals, no_delays};
    ghost use Rattle.mold_pacing.specs.Deadline.{CanAsk};
    ghost use Rattle.mold_receiver.specs.Arbiter.{HasArbitrated, HasRefused, report_on};
    ghost use Rattle.mold_receiver.specs.Batch.{Follows};
    ghost use Rattle.mold_receiver.specs.Origin.{line_of};
    ghost use Rattle.mold_receiver.specs.Receive.{top_read};
    ghost use Rattle.mold_receiver.specs.Wanted.{HasNoGap, IsNextGap};
    ghost use Rattle.mold_repair.specs.Auditing.{HasAudited, HasAuditedLoss};
    ghost use Rattle.mold_repair.specs.Came.{noted};
    ghost use Rattle.mold_repair.specs.Header.{IsRead, head};
    ghost use Rattle.mold_repair.specs.GivingUp.{HasGivenUp, IsGivenUp, is_due};
    ghost use Rattle.mold_repair.specs.Missing.{IsMissing, IsWanted};
    ghost use Rattle.mold_repair.specs.Origin.{receiver_origin};
    ghost use Rattle.mold_repair.specs.Polls.{HasPolled, HasRequested, HasSentAll, IsDeadline, IsStill, NoneCanBeSent};
    ghost use Rattle.mold_repair.specs.Stats.{counted_lost, counted_poll, counted_taken, line_stats, no_counts};
    ghost use Rattle.mold_repair.specs.StatsOf.{IsStats};
    ghost use Rattle.mold_repair.specs.Taking.{HasLearned, HasPassed, taken_steps};
    ghost use Rattle.mold_repair.specs.Timing.{IsTimed, adapted_from, line_index};
    ghost use Rattle.mold_repair.specs.declared.origin.RepairOrigin.TheVariants.{Line as OnLine, Server};
    ghost use Rattle.mold_wire.specs.Reading.{reading};
    ghost use Rattle.mold_repair.specs.declared.error.RepairError.TheVariants.{Memory, Options};

    /// Returns a repairer over this arbiter, before any time was reported. It takes the memory for requests here.
    /// Later, only messages need memory.
    pub fn new(
        alloc: Global,
        arbiter: Arbiter,
        options: RepairOptions,
    ) -> Result<Repairer, RepairError>
        ensures arbiter { IfOk result (λ repairer. repairer.arbiter ≡ arbiter) }
        ensures options { IfOk result (λ repairer. repairer.options ≡ options) }
        ensures state { IfOk result
            (λ repairer. repairer.pacer.state ≡ fresh repairer.pacer.options arbiter.view.known) }
        ensures empty { IfOk result (λ repairer. repairer.pacer.flights.items ≡ []) }
        ensures arrivals { IfOk result (λ repairer. repairer.delays.arrivals.items ≡ no_arrivals) }
        ensures counts { IfOk result (λ repairer. repairer.counts ≡ no_counts) }
        ensures recent { IfOk result (λ repairer. repairer.delays.recent.items ≡ no_delays) }
        ensures size { IfOk result (λ repairer. size_of repairer.audit ≡ options.audit) }
        ensures noted { IfOk result (λ repairer. repairer.audit.next ≡ 0) }
        ensures ok { OnOk result (are_options options ≡ true) }
        ensures invalid { are_options options ≡ false → result ≡ Err Options }
        ensures memory { are_options options ≡ true → IfErr result (λ error. error ≡ Memory) }
    {
        if !options.are_valid() {
            return Err(RepairError::Options);
        }
        // For the proof: it ensures that the view is well-formed.
        let _wanted = arbiter.receiver().wanted();
        let Ok(pacer) = Pacer::new(alloc, options.pacer(), arbiter.receiver().known()) else {
            return Err(RepairError::Memory);
        };
        let Ok(delays) = Delays::new(alloc) else {
            return Err(RepairError::Memory);
        };
        let Ok(audit) = Audit::new(alloc, options.audit) else {
            return Err(RepairError::Memory);
        };
        Ok(Repairer {
            arbiter,
            pacer,
            options,
            delays,
            counts: RepairCounts::new(),
            audit,
            front: NO_FRONT,
        })
    }

    // Reports to the pacer what a datagram brought that was accepted, from a line.
    // For the optimizer: if it is inlined, `take` takes up to a tenth longer, also for datagrams in order. It takes the
    // line, because an origin would be written to memory before each test whether this is called.
    #[inline(never)]
    fn note_line(&mut self, line: Line, datagram: &[u8])
        ensures noted { HasLearned self.old.pacer self.new.pacer (noted (OnLine line) datagram.now self.old.arbiter.view
            self.old.pacer.state.now self.old.pacer.flights.items) }
        ensures now { self.new.pacer.state.now ≡ self.old.pacer.state.now }
        ensures arbiter { self.new.arbiter ≡ self.old.arbiter }
        ensures options { self.new.options ≡ self.old.options }
        ensures counts { self.new.counts ≡ self.old.counts }
        ensures delays { self.new.delays ≡ self.old.delays }
        ensures audit { self.new.audit ≡ self.old.audit }
    {
        note(
            &self.arbiter,
            &mut self.pacer,
            RepairOrigin::Line(line),
            datagram,
        );
    }

    // Does the same for a response.
    // For the optimizer: it is not inlined, for the same reasons.
    #[inline(never)]
    fn note_response(&mut self, server: u32, datagram: &[u8])
        ensures noted { HasLearned self.old.pacer self.new.pacer (noted (Server server) datagram.now
            self.old.arbiter.view self.old.pacer.state.now self.old.pacer.flights.items) }
        ensures now { self.new.pacer.state.now ≡ self.old.pacer.state.now }
        ensures arbiter { self.new.arbiter ≡ self.old.arbiter }
        ensures options { self.new.options ≡ self.old.options }
        ensures counts { self.new.counts ≡ self.old.counts }
        ensures delays { self.new.delays ≡ self.old.delays }
        ensures audit { self.new.audit ≡ self.old.audit }
    {
        self.front = note_response(&self.arbiter, &mut self.pacer, self.front, server, datagram);
    }

    // Does the same if messages were missing before the datagram. Otherwise no request can be for its numbers.
    #[inline(always)]
    fn learn(&mut self, origin: RepairOrigin, datagram: &[u8], is_missing: bool)
        ensures learned { HasLearned self.old.pacer self.new.pacer
            (if is_missing then noted origin datagram.now self.old.arbiter.view self.old.pacer.state.now
            self.old.pacer.flights.items else []) }
        ensures now { self.new.pacer.state.now ≡ self.old.pacer.state.now }
        ensures arbiter { self.new.arbiter ≡ self.old.arbiter }
        ensures options { self.new.options ≡ self.old.options }
        ensures counts { self.new.counts ≡ self.old.counts }
        ensures delays { self.new.delays ≡ self.old.delays }
        ensures audit { self.new.audit ≡ self.old.audit }
    {
        if is_missing {
            match origin {
                RepairOrigin::Line(line) => self.note_line(line, datagram),
                RepairOrigin::Server(server) => self.note_response(server, datagram),
            }
        }
    }

    // Adapts the patience, if it adapts and the datagram brought messages on a line.
    #[inline(always)]
    fn adapt(&mut self, origin: RepairOrigin, datagram: &[u8], top: u64)
        requires read { IsRead datagram.now }
        requires top { top ≡ top_read (reading datagram.now) }
        ensures timed { IsTimed self.old.options self.old.pacer.state.now origin (head (reading datagram.now))
            self.old.delays self.new.delays }
        ensures learned { HasLearned self.old.pacer self.new.pacer
            (adapted_from self.old.options origin (head (reading datagram.now)) self.new.delays) }
        ensures arbiter { self.new.arbiter ≡ self.old.arbiter }
        ensures options { self.new.options ≡ self.old.options }
        ensures counts { self.new.counts ≡ self.old.counts }
        ensures audit { self.new.audit ≡ self.old.audit }
    {
        if self.options.patience != 0 {
            return;
        }
        let head = head_in(datagram, top);
        if !is_timed(&self.options, origin, head) {
            return;
        }
        self.delays.take(Arrival {
            first: head.first,
            end: head.end,
            time: self.pacer.state().now,
            line: origin.line_index(),
        });
        self.pacer.adapt(self.delays.patience());
    }

    /// Takes a datagram that arrived at the time `now`, exactly as `Arbiter::take_from` does. If it is accepted, the
    /// messages that were delivered or stored are no longer requested. A response that has the last message of a
    /// request frees this request; any other response leaves it in flight for at most `settle` more. The batch must be
    /// empty or end just before the receiver's `next`.
    // For the optimizer: `#[inline(always)]` here and at `learn` and `adapt` saves calls that return structs through
    // memory, as in `mold_receiver`.
    #[inline(always)]
    pub fn take(
        &mut self,
        now: u64,
        origin: RepairOrigin,
        datagram: &[u8],
        batch: &mut Batch,
    ) -> Result<Taken, Refusal>
        requires time { now < 2 ^ 62 }
        requires follows { Follows batch.old self.old.arbiter.view.next }
        ensures taken { IfOk result (λ taken. HasArbitrated (line_of (receiver_origin origin)) self.old.arbiter
            datagram.now batch.old self.new.arbiter batch.new taken) }
        ensures refused { IfErr result (λ refused. HasRefused (line_of (receiver_origin origin)) self.old.arbiter
            datagram.now self.new.arbiter refused) }
        ensures batch { OnErr result (batch.new ≡ batch.old) }
        ensures learned { OnOk result (HasLearned self.old.pacer self.new.pacer (taken_steps self.old.options now origin
            datagram.now self.old.arbiter.view self.new.arbiter.view self.new.delays self.old.pacer)) }
        ensures timed { OnOk result (IsTimed self.old.options (max self.old.pacer.state.now now) origin
            (head (reading datagram.now)) self.old.delays self.new.delays) }
        ensures passed { OnErr result (HasPassed now self.old.arbiter.view self.old.pacer self.new.pacer) }
        ensures same { OnErr result (self.new.delays ≡ self.old.delays) }
        ensures options { self.new.options ≡ self.old.options }
        ensures audited { IfOk result (λ taken. HasAudited self.old.audit self.new.audit
            (counted_taken origin taken self.old.counts) self.new.counts datagram.now self.old.arbiter.view.next
            (drop (length batch.old.messages) batch.new.messages)) }
        ensures counts { OnErr result (self.new.counts ≡ self.old.counts) }
        ensures given_up { self.new.counts.lost ≡ self.old.counts.lost }
        ensures audit { OnErr result (self.new.audit ≡ self.old.audit) }
    {
        taken_law();
        having_law();
        well_formed_law();
        next_law();
        let receiver = self.arbiter.receiver();
        let known = receiver.known();
        let is_missing = receiver.next() < known;
        self.pacer.advance(now, known);
        // For the optimizer: `Taken` is rebuilt field by field, as in `Arbiter::take_top`. `contradict` follows
        // `audit_taken` at once, so that both are one test without an audit.
        match self
            .arbiter
            .take_top(origin.receiver_origin(), datagram, batch)
        {
            Ok(
                Accepted {
                    taken: Taken {
                        handed,
                        kept,
                        beyond,
                    },
                    top,
                },
            ) => {
                let taken = Taken {
                    handed,
                    kept,
                    beyond,
                };
                let next = self.arbiter.receiver().next();
                let found = audit_taken(&mut self.audit, datagram, batch, next, handed);
                self.counts.contradict(found);
                self.counts.take(origin, taken);
                self.learn(origin, datagram, is_missing);
                self.adapt(origin, datagram, top);
                Ok(taken)
            }
            Err(refused) => Err(refused),
        }
    }

    // Returns the first missing messages, if they are to be given up.
    fn given_up(&self) -> Option<Gap>
        ensures some { IfSome result
            (IsGivenUp self.now.options.give_up self.now.arbiter.view self.now.pacer) }
        ensures due { is_some result ≡ is_due self.now.options.give_up self.now.arbiter.view self.now.pacer
            self.now.pacer.state.now }
    {
        wanted_law();
        let give_up = self.options.give_up;
        if give_up == 0 {
            return None;
        }
        let next = self.arbiter.receiver().wanted()?.sequence;
        let request = self.pacer.last_request(next)?;
        if request.attempts < give_up {
            return None;
        }
        let gap = self.arbiter.next_missing(next)?;
        Some(Gap {
            first: next,
            end: gap.end.min(request.end),
        })
    }

    /// Gives up the first missing messages at the time `now`, if `give_up` requests for them in a row had no response.
    /// Only messages of one request are given up together. Returns their numbers. The stored messages after them are
    /// appended to `batch`, which must be empty. Call it until it returns none. If an allocation fails, only the time
    /// passed.
    pub fn lost(&mut self, now: u64, batch: &mut Batch) -> Result<Option<Gap>, AllocError>
        requires time { now < 2 ^ 62 }
        requires empty { batch.old.messages ≡ [] }
        ensures lost { IfOk result (HasGivenUp now self.old.options.give_up self.old.arbiter self.new.arbiter batch.old
            batch.new self.old.pacer self.new.pacer) }
        ensures passed { OnErr result (HasPassed now self.old.arbiter.view self.old.pacer self.new.pacer) }
        ensures arbiter { OnErr result (self.new.arbiter ≡ self.old.arbiter) }
        ensures batch { OnErr result (batch.new ≡ batch.old) }
        ensures options { self.new.options ≡ self.old.options }
        ensures counted { IfOk result (λ lost. self.new.counts ≡ counted_lost lost self.old.counts) }
        ensures counts { OnErr result (self.new.counts ≡ self.old.counts) }
        ensures delays { self.new.delays ≡ self.old.delays }
        ensures audited { IfOk result (HasAuditedLoss self.old.audit self.new.audit batch.new.messages) }
        ensures audit { OnErr result (self.new.audit ≡ self.old.audit) }
    {
        next_law();
        well_formed_law();
        self.pacer.advance(now, self.arbiter.receiver().known());
        let Some(gap) = self.given_up() else {
            return Ok(None);
        };
        self.front = NO_FRONT;
        self.arbiter.skip(gap.end, batch)?;
        let next = self.arbiter.receiver().next();
        self.audit.note_from(gap.end, batch, 0);
        self.pacer.arrive(Gap {
            first: 0,
            end: next,
        });
        self.counts = self.counts.lose(gap);
        Ok(Some(gap))
    }

    // Sends the next request that may be sent now, if there is one.
    fn send(&mut self) -> Option<mold_pacing::Ask>
        ensures sent { MatchOption result
            (IsStill self.old.options.give_up self.old.arbiter.view self.old.pacer self.new.pacer)
            (HasRequested self.old.options.give_up self.old.arbiter.view self.old.pacer self.new.pacer) }
        ensures paced { self.new.pacer.options ≡ self.old.pacer.options }
        ensures arbiter { self.new.arbiter ≡ self.old.arbiter }
        ensures options { self.new.options ≡ self.old.options }
        ensures counts { self.new.counts ≡ self.old.counts }
        ensures delays { self.new.delays ≡ self.old.delays }
        ensures audit { self.new.audit ≡ self.old.audit }
    {
        if self.given_up().is_some() {
            return None;
        }
        if !self.pacer.can_send() {
            self.pacer.note_full();
            return None;
        }
        let found = find_free(&self.arbiter, &self.pacer, self.front);
        self.front = found.front;
        let gap = found.gap?;
        self.pacer.poll(&[gap])
    }

    // Sends all requests that may be sent now.
    fn send_all(&mut self)
        ensures sent { HasSentAll self.old.options.give_up self.old.arbiter.view self.old.pacer self.new.pacer }
        ensures arbiter { self.new.arbiter ≡ self.old.arbiter }
        ensures options { self.new.options ≡ self.old.options }
        ensures counts { self.new.counts ≡ self.old.counts }
        ensures delays { self.new.delays ≡ self.old.delays }
        ensures audit { self.new.audit ≡ self.old.audit }
    {
        while self.send().is_some() {}
    }

    /// Returns the next request that may be sent at the time `now`, if there is one. It counts as sent. Call it until
    /// it returns none. It takes no memory. While messages are to be given up, it returns none: call `lost` before.
    /// Without a server it returns none, and each request that could be sent counts for giving up.
    pub fn poll(&mut self, now: u64) -> Option<Ask>
        requires { now < 2 ^ 62 }
        ensures polled { HasPolled self.old.options self.old.arbiter.view self.old.pacer self.new.pacer now result }
        ensures arbiter { self.new.arbiter ≡ self.old.arbiter }
        ensures options { self.new.options ≡ self.old.options }
        ensures counted { self.new.counts ≡ counted_poll result self.old.counts }
        ensures delays { self.new.delays ≡ self.old.delays }
        ensures audit { self.new.audit ≡ self.old.audit }
    {
        self.pacer.advance(now, self.arbiter.receiver().known());
        if self.options.servers == 0 {
            self.send_all();
            return None;
        }
        let sent = self.send()?;
        self.counts = self.counts.request();
        Some(Ask {
            request: Request {
                session: self.arbiter.receiver().session(),
                sequence: sent.first,
                count: (sent.end - sent.first) as u16,
            },
            server: sent.server,
        })
    }

    // Returns the time before which no request can be sent, if no datagram arrives.
    fn sends(&self) -> u64
        ensures now { self.now.pacer.state.now ≤ result }
        ensures later { NoneCanBeSent self.now.arbiter.view self.now.pacer self.now.pacer.state.now →
            self.now.pacer.state.now < result }
        ensures still { (time : ℕ) → self.now.pacer.state.now ≤ time → time < result →
            NoneCanBeSent self.now.arbiter.view self.now.pacer time }
        ensures bound { (number : ℕ) → IsWanted self.now.arbiter.view self.now.pacer.state.ripe number →
            result ≤ self.now.pacer.state.now + max self.now.pacer.options.ceiling self.now.pacer.options.interval }
        ensures same { (time i : ℕ) (f : Flight) → 0 < self.now.options.give_up → time < result →
            slice_get self.now.pacer.flights.items i ≡ Some f → f.until ≤ time → f.until ≤ self.now.pacer.state.now }
    {
        let over = self.pacer.next_over();
        let Some(gap) = find_free(&self.arbiter, &self.pacer, self.front).gap else {
            return over;
        };
        let time = self.pacer.deadline(gap.first);
        if self.options.give_up == 0 {
            return time;
        }
        time.min(over)
    }

    // Returns the time before which no missing number becomes ripe.
    fn ripens(&self) -> u64
        ensures unripe { (time known number : ℕ) → max self.now.pacer.state.now self.now.pacer.state.marked ≤ time →
            time < result → IsMissing self.now.arbiter.view number → self.now.pacer.state.ripe ≤ number →
            (advanced time known self.now.pacer.state).ripe ≤ number }
        ensures bound { (number : ℕ) → IsMissing self.now.arbiter.view number → self.now.pacer.state.ripe ≤ number →
            result ≤ max self.now.pacer.state.now (self.now.pacer.state.marked + self.now.pacer.state.patience) }
        ensures now { self.now.pacer.state.now ≤ result }
        ensures later { self.now.pacer.state.now < self.now.pacer.state.marked + self.now.pacer.state.patience →
            self.now.pacer.state.now < result }
    {
        let state = self.pacer.state();
        match self.arbiter.next_missing(state.ripe) {
            Some(_) => self.pacer.ripens().max(state.now),
            None => u64::MAX,
        }
    }

    /// Returns the time at which to call `lost` and `poll` next, if no datagram arrives before: until then both return
    /// none, and no number becomes ripe. After both returned none, it is later than `now`. It can be early: then they
    /// return none again. Without a missing message there is no deadline.
    pub fn deadline(&mut self, now: u64) -> Option<u64>
        requires { now < 2 ^ 62 }
        ensures deadline { IfSome result (IsDeadline self.old.options.give_up self.old.arbiter.view self.new.pacer) }
        ensures none { IfNone result (self.old.arbiter.view.next ≡ self.old.arbiter.view.known) }
        ensures passed { HasPassed now self.old.arbiter.view self.old.pacer self.new.pacer }
        ensures arbiter { self.new.arbiter ≡ self.old.arbiter }
        ensures options { self.new.options ≡ self.old.options }
        ensures counts { self.new.counts ≡ self.old.counts }
        ensures delays { self.new.delays ≡ self.old.delays }
        ensures audit { self.new.audit ≡ self.old.audit }
    {
        let receiver = self.arbiter.receiver();
        let known = receiver.known();
        let is_missing = receiver.next() != known;
        self.pacer.advance(now, known);
        if !is_missing {
            return None;
        }
        if self.given_up().is_some() {
            return Some(self.pacer.state().now);
        }
        let ripens = self.ripens();
        Some(self.sends().min(ripens))
    }

    /// Returns the first missing numbers at or above `from`, as `Arbiter::next_missing` does.
    pub fn next_missing(&self, from: u64) -> Option<mold_receiver::Gap>
        ensures some { IfSome result
            (λ gap. IsNextGap self.now.arbiter.view (max from self.now.arbiter.view.next) gap) }
        ensures none { IfNone result (HasNoGap self.now.arbiter.view (max from self.now.arbiter.view.next)) }
    {
        self.arbiter.next_missing(from)
    }

    // Returns the statistics of a line.
    fn line_stats(&self, line: Line, again: u64) -> LineStats
        ensures { result ≡ line_stats (report_on line self.now.arbiter.reports) again
            (greatest_on (line_index (OnLine line)) self.now.delays.recent.items) }
    {
        let index = RepairOrigin::Line(line).line_index();
        LineStats::new(self.arbiter.report(line), again, self.delays.late(index))
    }

    /// Returns the statistics.
    pub fn stats(&self) -> RepairStats
        ensures { IsStats self.now result }
    {
        let receiver = self.arbiter.receiver();
        let stored = receiver.stored();
        let ahead = receiver.known().saturating_sub(receiver.next());
        RepairStats {
            next: receiver.next(),
            known: receiver.known(),
            gap: self.arbiter.next_missing(0),
            missing: ahead.saturating_sub(u64::from(stored)),
            stored,
            patience: self.pacer.state().patience,
            a: self.line_stats(Line::A, self.counts.again_a),
            b: self.line_stats(Line::B, self.counts.again_b),
            counts: self.counts,
        }
    }

    /// Returns what was counted since the beginning. `stats` returns it too, but visits the stored messages for a gap.
    pub fn counts(&self) -> RepairCounts
        ensures { result ≡ self.now.counts }
    {
        self.counts
    }

    /// Returns the arbiter.
    pub fn arbiter(&self) -> &Arbiter
        ensures { result.now ≡ self.now.arbiter }
    {
        &self.arbiter
    }
}
