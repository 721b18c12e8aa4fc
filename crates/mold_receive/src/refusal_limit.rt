//! How often lines about refused datagrams are printed.

ghost use Rattle.std.specs.Prelude.{◌≡◌, ◌<◌, ◌^◌, false, replicate, slice_set, true};
ghost use Rattle.mold_receive.specs.Refused.{after_line, is_first, may_print, origin_index, reason_index};
ghost use Rattle.mold_receive.specs.Refused.{slot_of};

use crate::receive_options::{MOST_PORTS, SECOND};
use mold_receiver::{Line, Refusal};
use mold_repair::RepairOrigin;

/// The number of reasons for a refusal.
const REASONS: usize = 9;

/// Which lines about refused datagrams were printed, and when the next one may be. The first refusal of each reason at
/// each port is printed, and then one a second.
#[derive(Drop)]
pub(crate) struct RefusalLimit {
    // For each origin and reason, whether a line was printed.
    printed: [bool; MOST_PORTS * REASONS],
    // The time from which on a line may be printed again.
    from: u64,
}

impl RefusalLimit {
    /// Returns the limit before anything was printed.
    pub(crate) fn new() -> RefusalLimit
        ensures { result ≡ record { printed = replicate 90 false; from = 0 } }
    {
        RefusalLimit {
            printed: [false; MOST_PORTS * REASONS],
            from: 0,
        }
    }

    /// Returns whether a line about a refused datagram of this origin may be printed. If so, it counts as printed
    /// at the time `now`.
    pub(crate) fn admit(&mut self, origin: RepairOrigin, why: &Refusal, now: u64) -> bool
        requires { now < 2 ^ 62 }
        ensures may { result ≡ may_print self.old origin why.now now }
        ensures printed { result ≡ true → self.new ≡ after_line self.old origin why.now now }
        ensures same { result ≡ false → self.new ≡ self.old }
    {
        if !self.is_first(origin, why) && now < self.from {
            return false;
        }
        self.note(slot_of(origin, why));
        self.from = now.saturating_add(SECOND);
        true
    }

    // Returns whether no line was printed for this origin and this reason.
    fn is_first(&self, origin: RepairOrigin, why: &Refusal) -> bool
        ensures { result ≡ is_first self.now origin why.now }
    {
        match self.printed.get(slot_of(origin, why)) {
            Some(printed) => !*printed,
            None => false,
        }
    }

    // Notes that a line was printed for the origin and the reason with this index.
    fn note(&mut self, slot: usize)
        ensures { self.new ≡ record self.old { printed = slice_set self.old.printed slot true } }
    {
        if slot < self.printed.len() {
            self.printed[slot] = true;
        }
    }
}

// Returns the index of a reason.
fn reason_index(why: &Refusal) -> usize
    ensures { result ≡ reason_index why.now }
{
    match why {
        Refusal::Malformed(_) => 0,
        Refusal::WrongSession => 1,
        Refusal::SequenceZero => 2,
        Refusal::PastLast => 3,
        Refusal::EndConflict { end: _ } => 4,
        Refusal::EndBelow { known: _ } => 5,
        Refusal::PastEnd { end: _ } => 6,
        Refusal::Conflict { number: _ } => 7,
        Refusal::Memory => 8,
    }
}

// Returns the index of an origin: 0 and 1 for the lines, and then those of the servers.
fn origin_index(origin: RepairOrigin) -> usize
    ensures { result ≡ origin_index origin }
{
    match origin {
        RepairOrigin::Line(Line::A) => 0,
        RepairOrigin::Line(Line::B) => 1,
        RepairOrigin::Server(server) => server as usize + 2,
    }
}

// Returns the index of an origin and a reason.
fn slot_of(origin: RepairOrigin, why: &Refusal) -> usize
    ensures { result ≡ slot_of origin why.now }
{
    origin_index(origin).min(MOST_PORTS) * REASONS + reason_index(why)
}
