//! When a receiver over ports reports on standard error, and when it has been quiet for too long.

use crate::receive_options::SECOND;
use crate::refusal_limit::RefusalLimit;
use mold_repair::RepairCounts;

/// What a receiver over ports remembers for its reports. Times are in nanoseconds since the ports were opened.
#[derive(Drop)]
pub(crate) struct Reporting {
    /// Which lines about refused datagrams were printed.
    pub(crate) refusals: RefusalLimit,
    // The count of contradictions when the last line about one was printed.
    contradictions: u64,
    // The time from which on a line about a contradiction may be printed again.
    contradictions_from: u64,
    // The time of the next line of statistics.
    stats_at: u64,
    // The time of the last datagram that was accepted, or of the start.
    accepted_at: u64,
}

impl Reporting {
    /// Returns what is remembered at the start. Statistics are printed every `stats` nanoseconds.
    pub(crate) fn new(now: u64, stats: u64) -> Reporting {
        Reporting {
            refusals: RefusalLimit::new(),
            contradictions: 0,
            contradictions_from: 0,
            stats_at: now.saturating_add(stats),
            accepted_at: now,
        }
    }

    /// Notes that a datagram was accepted.
    pub(crate) fn accept(&mut self, now: u64) {
        self.accepted_at = now;
    }

    /// Returns the time from which on the receiver has been quiet for `quiet` nanoseconds.
    pub(crate) fn quiet_at(&self, quiet: u64) -> u64 {
        self.accepted_at.saturating_add(quiet)
    }

    /// Returns the time at which the next line of statistics is due.
    pub(crate) fn stats_at(&self) -> u64 {
        self.stats_at
    }

    /// Returns whether statistics are due, which are printed every `stats` nanoseconds. If so, they count as printed.
    pub(crate) fn take_stats(&mut self, now: u64, stats: u64) -> bool {
        if now < self.stats_at {
            return false;
        }
        self.stats_at = self.stats_at.saturating_add(stats).max(now);
        true
    }

    /// Returns the number of the last contradiction, if a line about it is due. If so, it counts as printed.
    pub(crate) fn take_contradiction(&mut self, now: u64, counts: &RepairCounts) -> Option<u64> {
        if counts.contradictions == self.contradictions || now < self.contradictions_from {
            return None;
        }
        self.contradictions = counts.contradictions;
        self.contradictions_from = now.saturating_add(SECOND);
        counts.contradiction
    }
}
