//! What a pacer knows besides its requests.

ghost use Rattle.std.specs.Prelude.{◌≡◌, ◌<◌, ◌≤◌, ◌+◌, ◌^◌, max};
ghost use Rattle.mold_pacing.specs.Most.{learned, request_most};
ghost use Rattle.mold_pacing.specs.State.{advanced, asked, fresh, responded};

use crate::flight::Flight;
use crate::options::PacerOptions;

/// After this many full requests in a row, one request asks for twice as many messages.
pub(crate) const GROWTH: u32 = 16;

/// The time, the limit on requests, the numbers that are ripe, and what was learned about the servers.
#[derive(Clone, Copy)]
pub struct PacerState {
    /// The latest time that was reported.
    pub now: u64,
    /// The time from which on a request may be sent.
    pub opens: u64,
    /// The time at which `mark` was set.
    pub marked: u64,
    /// One more than the greatest number that was known at the time `marked`.
    pub mark: u64,
    /// The numbers below this one may be requested.
    pub ripe: u64,
    /// How long a number has to be known before it may be requested.
    pub patience: u64,
    /// How many messages a request asks for.
    pub most: u32,
    /// How many requests for that many messages were answered in full since `most` changed.
    pub full: u32,
    /// The server that responded last.
    pub server: u32,
}

impl PacerState {
    /// Returns the state before any time was reported. No number is ripe.
    pub(crate) fn new(options: PacerOptions, known: u64) -> PacerState
        ensures { result ≡ fresh options known }
    {
        PacerState {
            now: 0,
            opens: 0,
            marked: 0,
            mark: known,
            ripe: 0,
            patience: options.patience,
            most: options.most,
            full: 0,
            server: 0,
        }
    }

    /// Changes the state to that at a later time. Once `patience` has passed since `mark` was set, the numbers below it
    /// are ripe.
    // For the optimizer: it changes fields in place. Most datagrams change the time only, and write nothing else.
    #[inline(always)]
    pub(crate) fn advance(&mut self, time: u64, known: u64)
        requires { self.old.marked ≤ self.old.now }
        ensures { self.new ≡ advanced time known self.old }
    {
        self.now = self.now.max(time);
        if self.now - self.marked < self.patience {
            return;
        }
        self.ripe = self.mark;
        self.marked = self.now;
        self.mark = known;
    }

    /// Returns the state after a request was sent for this number of messages.
    pub(crate) fn ask(self, interval: u64, count: u64) -> PacerState
        requires { max self.opens self.now + interval < 2 ^ 64 }
        ensures { result ≡ asked interval count self }
    {
        PacerState {
            opens: self.opens.max(self.now) + interval,
            full: if u64::from(self.most) < count {
                0
            } else {
                self.full
            },
            ..self
        }
    }

    /// Returns the state after this server responded, and ended the request.
    pub(crate) fn respond(
        self,
        options: PacerOptions,
        server: u32,
        ended: Option<Flight>,
    ) -> PacerState
        ensures { result ≡ responded options server ended self }
    {
        let Some(flight) = ended else {
            return PacerState { server, ..self };
        };
        let count = flight.end.saturating_sub(flight.first);
        let most = u64::from(self.most);
        let full = if most <= count {
            self.full.saturating_add(1)
        } else {
            self.full
        };
        PacerState {
            most: most.max(count.min(u64::from(options.most))) as u32,
            full,
            server,
            ..self
        }
    }

    /// Returns the state after the last request for a number was looked at: if only a part of it was answered, requests
    /// ask for no more than this part.
    pub(crate) fn learn(self, options: PacerOptions, before: Option<Flight>) -> PacerState
        ensures { result ≡ learned options before self }
    {
        match before {
            Some(flight) if flight.first < flight.reached && flight.reached < flight.end =>
                PacerState {
                    most: (flight.reached - flight.first).min(u64::from(options.most)) as u32,
                    full: 0,
                    ..self
                },
            _ => self,
        }
    }

    /// Returns the greatest number of messages that the next request asks for.
    pub(crate) fn request_most(self, options: PacerOptions) -> u64
        ensures { result ≡ request_most options self }
    {
        let most = u64::from(self.most);
        if self.full < GROWTH {
            return most;
        }
        (most * 2).min(u64::from(options.most))
    }
}
