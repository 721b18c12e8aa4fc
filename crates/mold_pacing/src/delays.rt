//! The patience that adapts: how long after one line the other line brings the same datagram.

ghost use Rattle.std.specs.Prelude.{◌≡◌, ◌≤◌, ◌<◌, ◌+◌, ◌%◌, List, length, set, IfOk};
ghost use Rattle.mold_pacing.specs.Delays.{greatest_on, greatest_stamp, no_arrivals, no_delays, patience_for};
ghost use Rattle.mold_pacing.specs.declared.delay.Delay.{Delay};
ghost use Rattle.mold_pacing.specs.declared.delays.TheConstants.{DELAYS};
ghost use Rattle.mold_pacing.specs.declared.mark.TheConstants.{SLOTS};

use crate::arrival::Arrival;
use crate::delay::Delay;
use crate::mark::{BOTH, Mark, SLOTS, slot_of};
use std::alloc::{AllocError, Global};

// How many delays count for the patience.
pub(crate) const DELAYS: usize = 1024;

/// The patience before a delay is known, in nanoseconds.
pub const FIRST_PATIENCE: u64 = 1_000_000;

// The least and the greatest patience, in nanoseconds.
pub(crate) const LEAST_PATIENCE: u64 = 200_000;

pub(crate) const GREATEST_PATIENCE: u64 = 100_000_000;

const NO_ARRIVAL: Mark = Mark {
    end: 0,
    stamp: BOTH,
};

const NO_DELAY: Delay = Delay { stamp: 0 };

/// The delays between two lines: how much later the second line brought a datagram that both brought. It counts the
/// last 1,024 of them. The first arrival of a datagram is forgotten when the arrival of one follows whose first number
/// is greater by a multiple of 65,536.
#[derive(Drop)]
pub struct Delays {
    // The marks of the arrivals, each at the slot of its first number.
    arrivals: Vec<Mark>,
    // The last delays. While fewer are known, the others are `NO_DELAY`.
    // For the optimizer: so a new delay always replaces one, and a delay and its line are one number.
    recent: Vec<Delay>,
    // The index of the delay that the next one replaces.
    next: usize,
    // The greatest stamp of the last delays. It has the greatest delay.
    greatest: u64,
    // The patience that fits them.
    // For the optimizer: a receiver asks for it at each datagram, and most datagrams don't change it.
    patience: u64,
    ghost slots: { length arrivals.items ≡ SLOTS },
    ghost count: { length recent.items ≡ DELAYS },
    ghost within: { next < DELAYS },
    ghost most: { greatest ≡ greatest_stamp recent.items },
    ghost fits: { patience ≡ patience_for recent.items },
}

// Returns the greatest stamp of the delays.
#[inline(never)]
fn greatest_in(delays: &[Delay]) -> u64
    ensures { result ≡ greatest_stamp delays.now }
{
    let mut greatest = 0u64;
    for index in 0..delays.len() {
        greatest = greatest.max(delays[index].stamp);
    }
    greatest
}

// Returns the greatest of the delays of this line, or 0 if it has none.
fn greatest_on(delays: &[Delay], line: u32) -> u64
    ensures { result ≡ greatest_on line delays.now }
{
    let mut greatest = 0u64;
    for index in 0..delays.len() {
        greatest = greatest.max(delays[index].span_on(line));
    }
    greatest
}

// Returns the greatest stamp of the delays, after `stamp` took the place of `left`. `greatest` was the greatest one
// before.
#[inline(always)]
fn next_greatest(delays: &[Delay], greatest: u64, left: u64, stamp: u64) -> u64
    requires new { greatest ≤ stamp → greatest_stamp delays.now ≡ stamp }
    requires kept { left < greatest → stamp < greatest → greatest_stamp delays.now ≡ greatest }
    ensures { result ≡ greatest_stamp delays.now }
{
    if stamp >= greatest {
        return stamp;
    }
    if left < greatest {
        return greatest;
    }
    greatest_in(delays)
}

// Returns the patience if this is the greatest stamp of the delays.
fn patience_after(greatest: u64) -> u64
    ensures { (delays : List Delay) → greatest ≡ greatest_stamp delays → result ≡ patience_for delays }
{
    if greatest == 0 {
        return FIRST_PATIENCE;
    }
    (Delay { stamp: greatest }.span() * 2)
        .min(GREATEST_PATIENCE)
        .max(LEAST_PATIENCE)
}

impl Delays {
    ghost use Rattle.mold_pacing.specs.Lines.{IsTaken};

    /// Returns the state before any arrival. It takes its whole memory here, which is 1 MiB.
    pub fn new(alloc: Global) -> Result<Delays, AllocError>
        ensures arrivals { IfOk result (λ delays. delays.arrivals.items ≡ no_arrivals) }
        ensures recent { IfOk result (λ delays. delays.recent.items ≡ no_delays) }
        ensures index { IfOk result (λ delays. delays.next ≡ 0) }
    {
        Ok(Delays {
            arrivals: vec![in alloc; NO_ARRIVAL; SLOTS as usize]?,
            recent: vec![in alloc; NO_DELAY; DELAYS]?,
            next: 0,
            greatest: 0,
            patience: FIRST_PATIENCE,
        })
    }

    // Adds a delay in place of the oldest one. The greatest one is looked for only if it left, and the patience changes
    // only with it.
    // For the optimizer: a receiver calls it for each datagram that both lines brought.
    #[inline(always)]
    fn push(&mut self, delay: Delay)
        ensures arrivals { self.new.arrivals.items ≡ self.old.arrivals.items }
        ensures recent { self.new.recent.items ≡ set self.old.recent.items self.old.next delay }
        ensures next { self.new.next ≡ (self.old.next + 1) % DELAYS }
    {
        let index = self.next;
        self.next = (index + 1) % DELAYS;
        let left = self.recent[index];
        self.recent[index] = delay;
        let greatest = next_greatest(&self.recent, self.greatest, left.stamp, delay.stamp);
        if greatest == self.greatest {
            return;
        }
        self.greatest = greatest;
        self.patience = patience_after(greatest);
    }

    /// Takes an arrival on one of two lines. If the other line brought the datagram before, the time since then is a
    /// delay.
    // For the optimizer: a receiver calls it for each datagram. The first arrival of a datagram takes one comparison.
    #[inline(always)]
    pub fn take(&mut self, arrival: Arrival)
        ensures { IsTaken self.old self.new arrival }
    {
        let slot = slot_of(arrival.first);
        let before = self.arrivals[slot];
        if !before.is_same(arrival) {
            self.arrivals[slot] = arrival.mark();
            return;
        }
        if before.line() == u64::from(arrival.line) {
            return;
        }
        // For the optimizer: the mark of a datagram that both lines brought before is written again, unchanged. Without
        // a step between the two tests they would be merged, which takes more instructions.
        self.arrivals[slot] = before.of_both();
        if before.line() == BOTH {
            return;
        }
        let span = arrival.time.saturating_sub(before.time());
        self.push(Delay::new(span, arrival.line));
    }

    /// Returns the greatest of the delays with which this line brought a datagram after the other line, in nanoseconds.
    /// It is 0 without such a delay. The cost is linear in the delays that count, at most 1,024.
    pub fn late(&self, line: u32) -> u64
        ensures { result ≡ greatest_on line self.now.recent.items }
    {
        greatest_on(&self.recent, line)
    }

    /// Returns the patience that fits the delays, in nanoseconds.
    #[inline(always)]
    pub fn patience(&self) -> u64
        ensures { result ≡ patience_for self.now.recent.items }
    {
        self.patience
    }
}
