//! The pacer: it decides which request for missing messages is sent now.

ghost use Rattle.std.specs.Prelude.{◌<◌, ◌≤◌, ◌+◌, ◌^◌, ◌≡◌, true, vec_capacity, vec_len};
ghost use Rattle.std.specs.List.{list_all};
ghost use Rattle.mold_pacing.specs.Flight.{are_apart, ends_below, flies_from, is_ascending, is_over};
ghost use Rattle.mold_pacing.specs.Flight.{waits_until};

use crate::ask::Ask;
use crate::bounds::Bounds;
use crate::bucket::is_open;
use crate::cursor::Cursor;
use crate::flight::Flight;
use crate::gap::Gap;
use crate::hole::Hole;
use crate::options::PacerOptions;
use crate::place::{Place, place_for, replace, stale_index};
use crate::repeat::{next_flight, next_server, repeat_end};
use crate::response::{ended_request, take_arrival, take_response};
use crate::state::PacerState;
use crate::step::Step;
use crate::table::{
    Free, all_begin_below, find_covering, first_free, free_end, low_from, next_hole, passed_index,
};
use crate::waiting::{free_from, least_until, next_over, over_from};
use std::alloc::{AllocError, Global};

/// The policy of requests. It knows the time, the requests in flight, and the missing numbers only from its caller.
#[derive(Drop)]
pub struct Pacer {
    options: PacerOptions,
    state: PacerState,
    // The requests in flight and those that are over, in ascending order of their first numbers.
    flights: Vec<Flight>,
    bounds: Bounds,
    ghost sorted: { is_ascending 0 flights.items ≡ true },
    ghost apart: { are_apart state.now 0 flights.items ≡ true },
    ghost waits: { list_all (waits_until bounds.over) flights.items ≡ true },
    ghost low: { list_all (flies_from state.now bounds.low) flights.items ≡ true },
    ghost bounded: { list_all (ends_below bounds.end) flights.items ≡ true },
    ghost few: { vec_len flights ≤ options.places },
    ghost room: { options.places ≤ vec_capacity flights },
    ghost timed: { state.now < 2 ^ 62 },
    ghost past: { state.marked ≤ state.now },
    ghost learned: { (0 < state.most) × (state.most ≤ options.most) },
    ghost opens: { state.opens ≤ state.now + options.tolerance + options.interval },
    ghost ends: { list_all (is_over (state.now + options.ceiling)) flights.items ≡ true },
}

impl Pacer {
    ghost use Rattle.std.specs.Prelude.{max, min, [], map, false, IfOk, IfSome, IfNone, OnErr, ℕ, ◌-◌, ◌⊎◌, Some};
    ghost use Rattle.std.specs.Prelude.{slice_get};
    ghost use Rattle.std.specs.List.{list_all};
    ghost use Rattle.mold_pacing.specs.Asks.{are_gaps, AsksFrom};
    ghost use Rattle.mold_pacing.specs.Deadline.{CanAsk, can_send};
    ghost use Rattle.mold_pacing.specs.Polls.{HasAsked, IsIdle, ended_request, last_request, request_for};
    ghost use Rattle.mold_pacing.specs.Flight.{AllInFlight, ArePassed, BeginAbove, NoneInFlight, in_flight};
    ghost use Rattle.mold_pacing.specs.Repeat.{attempts_of, end_for, flight_for, server_for};
    ghost use Rattle.mold_pacing.specs.Most.{learned, request_most};
    ghost use Rattle.mold_pacing.specs.declared.flight.Flight.{Flight};
    ghost use Rattle.mold_pacing.specs.Responses.{after_arrival, after_response};
    ghost use Rattle.mold_pacing.specs.Run.{IsRun, Takes, can_step};
    ghost use Rattle.mold_pacing.specs.State.{adapted, advanced, asked, fresh, responded};
    ghost use Rattle.mold_pacing.specs.Table.{IsPlace, has_room, placed, without};

    /// Returns a pacer with no request in flight, before any time was reported. `known` is one more than the greatest
    /// number that is known. It takes its whole memory here.
    pub fn new(alloc: Global, options: PacerOptions, known: u64) -> Result<Pacer, AllocError>
        ensures options { IfOk result (λ pacer. pacer.options ≡ options) }
        ensures state { IfOk result (λ pacer. pacer.state ≡ fresh options known) }
        ensures empty { IfOk result (λ pacer. pacer.flights.items ≡ []) }
    {
        Ok(Pacer {
            options,
            state: PacerState::new(options, known),
            flights: Vec::with_capacity(alloc, options.places as usize)?,
            bounds: Bounds {
                over: u64::MAX,
                end: 0,
                low: u64::MAX,
            },
        })
    }

    /// Reports the time, and one more than the greatest number that is known now. A time below the last one counts as
    /// the last one.
    // For the optimizer: a receiver calls it for each datagram.
    #[inline(always)]
    pub fn advance(&mut self, time: u64, known: u64)
        requires { time < 2 ^ 62 }
        ensures options { self.new.options ≡ self.old.options }
        ensures state { self.new.state ≡ advanced time known self.old.state }
        ensures flights { self.new.flights.items ≡ self.old.flights.items }
    {
        self.state.advance(time, known);
    }

    /// Changes the patience. It counts from the next call of `advance` on.
    #[inline(always)]
    pub fn adapt(&mut self, patience: u64)
        ensures options { self.new.options ≡ self.old.options }
        ensures state { self.new.state ≡ adapted patience self.old.state }
        ensures flights { self.new.flights.items ≡ self.old.flights.items }
    {
        self.state.patience = patience;
    }

    /// Reports a response with the numbers of the range, which was accepted. New requests go to its server.
    pub fn respond(&mut self, server: u32, came: Gap)
        ensures options { self.new.options ≡ self.old.options }
        ensures state { self.new.state ≡
            responded self.old.options server (ended_request self.old came.first came.end) self.old.state }
        ensures flights { self.new.flights.items ≡
            map (after_response self.old.options.settle self.old.state.now came.first came.end) self.old.flights.items }
    {
        let now = self.state.now;
        let low = low_from(&self.flights, self.bounds.low, now, came.first);
        let ended = ended_request(&self.flights, low, now, came);
        let least = take_response(&mut self.flights, low, self.options.settle, now, came);
        self.bounds.low = low;
        self.bounds.over = self.bounds.over.min(least);
        self.state = self.state.respond(self.options, server, ended);
    }

    /// Reports that all numbers of the range arrived, from a line or a server. A request whose numbers are all in the
    /// range is no longer in flight.
    pub fn arrive(&mut self, came: Gap)
        ensures options { self.new.options ≡ self.old.options }
        ensures state { self.new.state ≡ self.old.state }
        ensures flights { self.new.flights.items ≡
            map (after_arrival self.old.state.now came.first came.end) self.old.flights.items }
    {
        // Most datagrams of a line are above all requests.
        if all_begin_below(&self.flights, came.first) {
            return;
        }
        let least = take_arrival(&mut self.flights, self.state.now, came);
        self.bounds.over = self.bounds.over.min(least);
    }

    /// Returns whether no request begins at or above this number. Then the arrival of numbers from this one on changes
    /// nothing. It looks at the last request only.
    pub fn none_begins_from(&self, number: u64) -> bool
        ensures { result ≡ true → (end : ℕ) → self.now.flights.items ≡
            map (after_arrival self.now.state.now number end) self.now.flights.items }
    {
        all_begin_below(&self.flights, number)
    }

    // Returns the request for a free number.
    fn ask_for(&self, free: Free, before: Option<Flight>) -> Ask
        requires passed { ArePassed self.now.flights.items self.now.state.now free.index free.first }
        requires above { BeginAbove self.now.flights.items free.index free.first }
        requires some { free.first < free.end }
        requires before { (f : Flight) → before ≡ Some f → free.first < f.end }
        ensures asks { AsksFrom self.now.flights.items self.now.state.now
            (request_most self.now.options (learned self.now.options before self.now.state)) free.first
            (end_for free.end before) result }
        ensures server { result.server ≡ server_for self.now.options.servers self.now.state.server before }
    {
        let most = self
            .state
            .learn(self.options, before)
            .request_most(self.options);
        let free = Free {
            end: repeat_end(free.end, before).min(free.first.saturating_add(most)),
            ..free
        };
        Ask {
            first: free.first,
            end: free_end(&self.flights, self.state.now, free),
            server: next_server(self.options, self.state.server, before),
        }
    }

    // Sends the request: it enters the table, and the next one may be sent an interval later.
    fn send(&mut self, place: Place, ask: Ask)
        requires place { IsPlace self.old.flights.items self.old.options.places self.old.state.now ask.first
            place.leaves place.before }
        requires opened { self.old.state.opens ≤ self.old.state.now + self.old.options.tolerance }
        requires some { ask.first < ask.end }
        requires free { NoneInFlight self.old.flights.items self.old.state.now ask.first ask.end }
        ensures options { self.new.options ≡ self.old.options }
        ensures state { self.new.state ≡ asked self.old.options.interval (ask.end - ask.first)
            (learned self.old.options place.before self.old.state) }
        ensures flights { self.new.flights.items ≡
            placed (flight_for self.old.options self.old.state.now place.before ask)
            (without place.leaves self.old.flights.items) }
    {
        let sent = next_flight(self.options, self.state.now, place.before, ask);
        replace(&mut self.flights, place.leaves, sent);
        self.bounds = Bounds {
            over: self.bounds.over.min(sent.until),
            end: self.bounds.end.max(sent.end),
            low: self.bounds.low.min(sent.first),
        };
        let state = self.state.learn(self.options, place.before);
        self.state = state.ask(self.options.interval, ask.end.saturating_sub(ask.first));
    }

    /// Returns the next request that may be sent now, if there is one. It counts as sent. `gaps` are the missing
    /// numbers. Those that are not ripe are not requested. Takes no memory.
    pub fn poll(&mut self, gaps: &[Gap]) -> Option<Ask>
        requires { are_gaps 0 gaps.now ≡ true }
        ensures asked { IfSome result (HasAsked self.old self.new gaps.now) }
        ensures idle { IfNone result (IsIdle self.old self.new gaps.now) }
        ensures options { self.new.options ≡ self.old.options }
    {
        let now = self.state.now;
        if !is_open(self.state.opens, self.options.tolerance, now) {
            return None;
        }
        let free = first_free(&self.flights, self.bounds.low, now, self.state.ripe, gaps)?;
        let place = place_for(
            &self.flights,
            self.bounds,
            self.options.places,
            now,
            free.first,
        )?;
        let ask = self.ask_for(free, place.before);
        self.send(place, ask);
        Some(ask)
    }

    /// Returns the least time, from now on, at which a request that begins with this number can be sent, if nothing
    /// happens before. Call it for a missing number that is ripe.
    pub fn deadline(&self, number: u64) -> u64
        ensures now { self.now.state.now ≤ result }
        ensures ready { CanAsk self.now result number }
        ensures least { (time : ℕ) → self.now.state.now ≤ time → time < result → CanAsk self.now time number → ⊥ }
        ensures bound { result ≤ self.now.state.now + max self.now.options.ceiling self.now.options.interval }
    {
        let opens = self.state.opens.saturating_sub(self.options.tolerance);
        let free = self.free_from(number);
        self.state.now.max(opens).max(free).max(self.room_from())
    }

    /// Returns whether a request can be sent now, for a number that is not in flight.
    pub fn can_send(&self) -> bool
        ensures { result ≡ can_send self.now }
    {
        let state = self.state;
        let now = state.now;
        if !is_open(state.opens, self.options.tolerance, now) {
            return false;
        }
        if self.flights.len() < self.options.places as usize {
            return true;
        }
        if now < self.bounds.over {
            return false;
        }
        least_until(&self.flights, now).is_none()
    }

    /// Learns when the next request is over. After that, until then, no call looks for requests that are over. Call it
    /// when `can_send` returned false.
    pub fn note_full(&mut self)
        ensures options { self.new.options ≡ self.old.options }
        ensures state { self.new.state ≡ self.old.state }
        ensures flights { self.new.flights.items ≡ self.old.flights.items }
    {
        let now = self.state.now;
        if now < self.bounds.over {
            return;
        }
        if let Some(over) = least_until(&self.flights, now) {
            self.bounds.over = over;
        }
    }

    /// Returns the cursor at which a walk from this number on begins. It passes the requests below without a walk.
    pub fn cursor(&self, number: u64) -> Cursor
        ensures number { result.number ≡ number }
        ensures passed { ArePassed self.now.flights.items self.now.state.now result.index number }
    {
        Cursor {
            index: passed_index(&self.flights, self.bounds.low, self.state.now, number),
            number,
        }
    }

    /// Returns the first numbers at or above the cursor's number that are not in flight, up to the next request. To
    /// find the next ones, call it again with the end and the index of the result: all such calls together look at each
    /// request once.
    #[inline(always)]
    pub fn hole(&self, from: Cursor) -> Hole
        requires passed { ArePassed self.now.flights.items self.now.state.now from.index from.number }
        ensures passed { ArePassed self.now.flights.items self.now.state.now result.index result.first }
        ensures later { self.now.state.now < result.until }
        ensures stays { (time : ℕ) → time < result.until →
            AllInFlight self.now.flights.items time from.number result.first }
        ensures low { from.number ≤ result.first }
        ensures busy { AllInFlight self.now.flights.items self.now.state.now from.number result.first }
        ensures free { NoneInFlight self.now.flights.items self.now.state.now result.first result.end }
        ensures some { (result.first < result.end) ⊎ (result.end ≡ 18446744073709551615) }
    {
        next_hole(&self.flights, self.state.now, from)
    }

    /// Returns the first time at which a request in flight is over, or `u64::MAX` if nothing is in flight. If all ripe
    /// numbers are in flight, no request can be sent before.
    pub fn next_over(&self) -> u64
        ensures now { self.now.state.now < result }
        ensures least { (time number : ℕ) → time < result →
            in_flight self.now.state.now number self.now.flights.items ≡ true → CanAsk self.now time number → ⊥ }
        ensures same { (time : ℕ) (i : ℕ) (f : Flight) → time < result → slice_get self.now.flights.items i ≡ Some f →
            f.until ≤ time → f.until ≤ self.now.state.now }
        ensures bound { (number : ℕ) → in_flight self.now.state.now number self.now.flights.items ≡ true →
            result ≤ self.now.state.now + self.now.options.ceiling }
    {
        let now = self.state.now;
        if now < self.bounds.over {
            return self.bounds.over;
        }
        next_over(&self.flights, now)
    }

    /// Returns what the pacer knows besides its requests.
    #[inline(always)]
    pub fn state(&self) -> PacerState
        ensures { result ≡ self.now.state }
    {
        self.state
    }

    /// Returns the time at which the next `advance` makes the numbers below `mark` ripe. A caller that waits for a
    /// missing number to become ripe calls `advance` at that time.
    pub fn ripens(&self) -> u64
        ensures time { result ≡ min (self.now.state.marked + self.now.state.patience) 18446744073709551615 }
        ensures ripe { (time known : ℕ) → result ≤ time → time < 2 ^ 62 →
            (advanced time known self.now.state).ripe ≡ self.now.state.mark }
        ensures least { (time known : ℕ) → max self.now.state.now self.now.state.marked ≤ time → time < result →
            (advanced time known self.now.state).ripe ≡ self.now.state.ripe }
    {
        self.state.marked.saturating_add(self.state.patience)
    }

    /// Returns the time at which a request is over that responds in part now.
    pub fn settles(&self) -> u64
        ensures { result ≡ self.now.state.now + self.now.options.settle }
    {
        self.state.now + self.options.settle
    }

    /// Returns the last request for this number, if it is over.
    pub fn last_request(&self, number: u64) -> Option<Flight>
        ensures { result ≡ last_request self.now number }
    {
        let index = stale_index(&self.flights, self.bounds, self.state.now, number)?;
        Some(self.flights[index])
    }

    /// Returns the request in flight for this number, if there is one.
    pub fn request_for(&self, number: u64) -> Option<Flight>
        ensures { result ≡ request_for self.now number }
    {
        find_covering(&self.flights, self.bounds.low, self.state.now, number)
    }

    /// Returns how many requests in a row for this number had no response. A request in flight doesn't count.
    pub fn attempts(&self, number: u64) -> u32
        ensures { result ≡ attempts_of (last_request self.now number) }
    {
        match self.last_request(number) {
            Some(flight) => flight.attempts,
            None => 0,
        }
    }

    // Returns the time from which on the number is not in flight.
    fn free_from(&self, number: u64) -> u64
        ensures free { (time : ℕ) → result ≤ time → in_flight time number self.now.flights.items ≡ false }
        ensures least { (time : ℕ) → time < result → in_flight time number self.now.flights.items ≡ true }
    {
        if self.bounds.end <= number {
            return 0;
        }
        free_from(&self.flights, number)
    }

    // Returns the time from which on the table has room.
    fn room_from(&self) -> u64
        ensures room { (time : ℕ) → result ≤ time →
            has_room self.now.options.places time self.now.flights.items ≡ true }
        ensures least { (time : ℕ) → time < result →
            has_room self.now.options.places time self.now.flights.items ≡ false }
    {
        if self.flights.len() < self.options.places as usize {
            return 0;
        }
        over_from(&self.flights)
    }

    /// Applies a step: `advance`, `adapt`, `respond`, `arrive` or `poll`. Returns the request that a poll returned.
    pub fn apply(&mut self, step: Step<'_>) -> Option<Ask>
        requires { can_step step ≡ true }
        ensures { Takes self.old self.new step.entry result }
    {
        match step {
            Step::Poll { gaps } => self.poll(gaps),
            Step::Advance { time, known } => {
                self.advance(time, known);
                None
            }
            Step::Adapt { patience } => {
                self.adapt(patience);
                None
            }
            Step::Respond { server, came } => {
                self.respond(server, came);
                None
            }
            Step::Arrive { came } => {
                self.arrive(came);
                None
            }
        }
    }

    /// Applies the steps one after the other. Returns an item for each: the request that it returned, or none. If the
    /// allocation of these items fails, no step is applied.
    pub fn run(&mut self, alloc: Global, steps: &[Step<'_>]) -> Result<Vec<Option<Ask>>, AllocError>
        requires { list_all can_step steps.now ≡ true }
        ensures ran { IfOk result (λ asks. IsRun self.old self.new steps.now asks.items) }
        ensures same { OnErr result (self.new ≡ self.old) }
    {
        let mut asks = Vec::with_capacity(alloc, steps.len())?;
        for step in steps {
            let ask = self.apply(*step);
            asks.push_reserved(ask);
        }
        Ok(asks)
    }
}
