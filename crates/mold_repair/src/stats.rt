//! What a repairer counts.

ghost use Rattle.std.specs.Prelude.{◌≡◌};
ghost use Rattle.mold_repair.specs.Stats.{counted_answer, counted_contradiction, counted_line, counted_loss};
ghost use Rattle.mold_repair.specs.Stats.{counted_request, counted_taken, is_useless, no_counts};

use crate::line_stats::LineStats;
use crate::origin::RepairOrigin;
use mold_pacing::Gap;
use mold_receiver::{Gap as Missing, Line, Taken};

// How many values a count of messages has.
const COUNTS: u64 = 1 << 32;

/// What a repairer counted. A count that reaches 2^64 - 1 stays there.
#[derive(Clone, Copy)]
pub struct RepairCounts {
    /// The requests that `Repairer::poll` returned.
    pub requests: u64,
    /// The datagrams of servers that were accepted.
    pub answers: u64,
    /// Those of which no message was delivered or stored.
    pub useless: u64,
    /// The messages that were given up.
    pub lost: u64,
    /// The datagrams of line A that were accepted, and of which no message was delivered or stored.
    pub again_a: u64,
    /// The same of line B.
    pub again_b: u64,
    /// The datagrams that brought a message again with other bytes than those delivered, as far as `audit` finds them.
    pub contradictions: u64,
    /// The number of that message in the last such datagram: the least one, if there are several.
    pub contradiction: Option<u64>,
}

/// The state of a repairer, as statistics show it.
#[derive(Clone, Copy)]
pub struct RepairStats {
    /// The number of the next message to deliver.
    pub next: u64,
    /// One more than the greatest number that is known.
    pub known: u64,
    /// The first missing messages, if there are any.
    pub gap: Option<Missing>,
    /// The number of missing messages.
    pub missing: u64,
    /// The number of stored messages.
    pub stored: u32,
    /// How long a number has to be known before it may be requested, in nanoseconds.
    pub patience: u64,
    /// What line A brought.
    pub a: LineStats,
    /// What line B brought.
    pub b: LineStats,
    /// What was counted since the beginning.
    pub counts: RepairCounts,
}

// Returns whether no message of the datagram was delivered or stored.
// For the optimizer: both counts are one number, which the arbiter's result already is. Two tests take five more
// instructions.
#[inline(always)]
fn is_useless(taken: Taken) -> bool
    ensures { result ≡ is_useless taken }
{
    u64::from(taken.kept) * COUNTS + u64::from(taken.handed) == 0
}

impl RepairCounts {
    /// Returns the counts before anything was counted.
    pub(crate) fn new() -> RepairCounts
        ensures { result ≡ no_counts }
    {
        RepairCounts {
            requests: 0,
            answers: 0,
            useless: 0,
            lost: 0,
            again_a: 0,
            again_b: 0,
            contradictions: 0,
            contradiction: None,
        }
    }

    /// Returns the counts after a request was returned.
    pub(crate) fn request(self) -> RepairCounts
        ensures { result ≡ counted_request self }
    {
        RepairCounts {
            requests: self.requests.saturating_add(1),
            ..self
        }
    }

    /// Counts a datagram that was accepted.
    // For the optimizer: it changes fields in place. Most datagrams bring something new on a line, and write nothing.
    #[inline(always)]
    pub(crate) fn take(&mut self, origin: RepairOrigin, taken: Taken)
        ensures { self.new ≡ counted_taken origin taken self.old }
    {
        match origin {
            RepairOrigin::Line(line) => self.take_on(line, taken),
            RepairOrigin::Server(_) => *self = self.answer(taken),
        }
    }

    // Counts a datagram that was accepted on this line.
    // For the optimizer: the test comes first. A datagram that brought something new then writes nothing.
    #[inline(always)]
    fn take_on(&mut self, line: Line, taken: Taken)
        ensures { self.new ≡ counted_line line taken self.old }
    {
        if !is_useless(taken) {
            return;
        }
        match line {
            Line::A => self.again_a = self.again_a.saturating_add(1),
            Line::B => self.again_b = self.again_b.saturating_add(1),
        }
    }

    // Returns the counts after the datagram of a server was accepted.
    fn answer(self, taken: Taken) -> RepairCounts
        ensures { result ≡ counted_answer taken self }
    {
        let answers = self.answers.saturating_add(1);
        if is_useless(taken) {
            return RepairCounts {
                answers,
                useless: self.useless.saturating_add(1),
                ..self
            };
        }
        RepairCounts { answers, ..self }
    }

    /// Counts a contradiction, if a datagram brought one. `found` is its number.
    #[inline(always)]
    pub(crate) fn contradict(&mut self, found: Option<u64>)
        ensures { self.new ≡ counted_contradiction found self.old }
    {
        if found.is_some() {
            self.contradictions = self.contradictions.saturating_add(1);
            self.contradiction = found;
        }
    }

    /// Returns the counts after these messages were given up.
    pub(crate) fn lose(self, gap: Gap) -> RepairCounts
        ensures { result ≡ counted_loss gap self }
    {
        RepairCounts {
            lost: self.lost.saturating_add(gap.end.saturating_sub(gap.first)),
            ..self
        }
    }
}
