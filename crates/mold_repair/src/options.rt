//! The options of a repairer.

ghost use Rattle.std.specs.Prelude.{◌≡◌, ◌&&◌, true, nat_le};
ghost use Rattle.mold_repair.specs.Options.{ArePacerOptions, are_counts, are_options, are_times, first_patience};
ghost use Rattle.mold_repair.specs.Options.{tolerance};

use mold_audit::MAX_AUDIT;
use mold_pacing::{FIRST_PATIENCE, PacerOptions};
use mold_wire::MAX_COUNT;

/// The greatest time, and the greatest span of time, in nanoseconds.
pub(crate) const MAX_TIME: u64 = (1 << 62) - 1;

/// The greatest patience, in nanoseconds.
pub(crate) const MAX_PATIENCE: u64 = 1_000_000_000;

/// The greatest number of requests that may be sent at once.
pub(crate) const MAX_BUCKET: u32 = 65_535;

/// The greatest number of requests in flight.
pub(crate) const MAX_PLACES: u32 = 4096;

/// The greatest number of servers.
pub(crate) const MAX_SERVERS: u32 = 8;

/// The greatest number of requests before a message is given up.
pub(crate) const MAX_GIVE_UP: u32 = 1000;

/// What a repairer keeps to. Times are in nanoseconds. `Repairer::new` refuses a number outside its range.
#[derive(Clone, Copy)]
pub struct RepairOptions {
    /// How long a number has to be known before it may be requested, 1 to 1,000,000,000. A missing number waits one to
    /// two patiences. If it is 0, the patience adapts to the delays between the lines. It is a millisecond until the
    /// first delay.
    pub patience: u64,
    /// How long a request waits for a response before it is sent again, 1 to 2^62 - 1.
    pub timeout: u64,
    /// The longest wait for a response, `timeout` to 2^62 - 1. Each request without a response waits twice as long as
    /// the one before it.
    pub ceiling: u64,
    /// How long a request stays in flight after a response that did not bring all of its numbers, 1 to 2^62 - 1.
    pub settle: u64,
    /// The time after which another request may be sent, at most 2^62 - 1.
    pub interval: u64,
    /// The number of requests that may be sent at once, 1 to 65,535. If `interval` times this number is above 2^62,
    /// they are fewer.
    pub bucket: u32,
    /// The greatest number of requests in flight, 1 to 4,096.
    pub places: u32,
    /// The number of servers, at most 8. Without a server nothing is requested.
    pub servers: u32,
    /// After how many requests in a row without a response missing messages are given up, 1 to 1,000. If it is 0, they
    /// are never given up. Without a server, each wait for a response counts as a request.
    pub give_up: u32,
    /// The number of delivered messages whose digests are kept, at most 1,048,576. A datagram that brings one of them
    /// again with other bytes is counted as a contradiction. If it is 0, no datagram is.
    pub audit: u32,
}

impl RepairOptions {
    // Returns whether the times are in their ranges.
    fn are_times(&self) -> bool
        ensures { result ≡ are_times self.now }
    {
        self.patience <= MAX_PATIENCE
            && 0 < self.timeout
            && self.timeout <= self.ceiling
            && self.ceiling <= MAX_TIME
            && 0 < self.settle
            && self.settle <= MAX_TIME
            && self.interval <= MAX_TIME
    }

    // Returns whether the other numbers are in their ranges.
    fn are_counts(&self) -> bool
        ensures { result ≡ are_counts self.now }
    {
        0 < self.bucket
            && self.bucket <= MAX_BUCKET
            && 0 < self.places
            && self.places <= MAX_PLACES
            && self.servers <= MAX_SERVERS
            && self.give_up <= MAX_GIVE_UP
            && self.audit <= MAX_AUDIT
    }

    /// Returns whether each number is in its range.
    pub fn are_valid(&self) -> bool
        ensures { result ≡ are_options self.now }
    {
        self.are_times() && self.are_counts()
    }

    // Returns the patience before the delays between the lines are known.
    fn first_patience(&self) -> u64
        ensures { result ≡ first_patience self.now }
    {
        if self.patience == 0 {
            FIRST_PATIENCE
        } else {
            self.patience
        }
    }

    // Returns how much earlier than an interval after the last one a request may be sent.
    fn tolerance(&self) -> u64
        ensures { result ≡ tolerance self.now }
    {
        let spare = u64::from(self.bucket.saturating_sub(1));
        self.interval.saturating_mul(spare).min(MAX_TIME)
    }

    /// Returns the options of the pacer. If there is no server, the requests go to one that doesn't exist.
    pub(crate) fn pacer(&self) -> PacerOptions
        requires { are_options self.now ≡ true }
        ensures { ArePacerOptions self.now result }
    {
        PacerOptions {
            patience: self.first_patience(),
            timeout: self.timeout,
            ceiling: self.ceiling,
            settle: self.settle,
            interval: self.interval,
            tolerance: self.tolerance(),
            most: u32::from(MAX_COUNT),
            places: self.places,
            servers: self.servers.max(1),
        }
    }
}
