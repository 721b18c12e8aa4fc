//! When the messages that wait in a durable journal are committed.

ghost use Rattle.std.specs.Prelude.{◌≡◌, ◌+◌, ◌<◌, ◌^◌, ℕ, None, true, nat_le, length};
ghost use Rattle.mold_recorder.specs.CommitPlan.{is_due, plan_after, plan_of_none};
ghost use Rattle.mold_recorder.specs.declared.commit_plan.TheConstants.{MOST_WAITING};

use mold_session::RECORD_HEAD;

/// When records of this many bytes wait, they are committed. This is 1 MiB.
pub(crate) const MOST_WAITING: usize = 1_048_576;

/// How long a message waits while no port has a datagram: 20 milliseconds, in nanoseconds.
const IDLE_SPAN: u64 = 20_000_000;

/// How long a message waits while ports have datagrams: a second, in nanoseconds.
const BUSY_SPAN: u64 = 1_000_000_000;

/// The time that stands for an event that never happens. All times are below 2^62.
const NEVER: u64 = u64::MAX;

/// What decides when the waiting messages are committed. Times are in nanoseconds since the ports were opened.
#[derive(Clone, Copy)]
pub(crate) struct CommitPlan {
    // The bytes of the records of the waiting messages.
    bytes: usize,
    // When the oldest waiting message was appended, if a message waits.
    oldest: Option<u64>,
}

impl CommitPlan {
    /// Returns the plan while no message waits.
    pub(crate) fn new() -> CommitPlan
        ensures { result ≡ plan_of_none }
    {
        CommitPlan {
            bytes: 0,
            oldest: None,
        }
    }

    /// Notes that a message of `len` bytes was appended at the time `now`.
    pub(crate) fn add(&mut self, len: usize, now: u64)
        requires few { self.old.bytes < MOST_WAITING }
        requires short { len < 2 ^ 63 }
        ensures { self.new ≡ plan_after self.old len now }
    {
        self.bytes += RECORD_HEAD + len;
        if self.oldest.is_none() {
            self.oldest = Some(now);
        }
    }

    /// Returns whether a commit is due at any time, because `MOST_WAITING` bytes wait.
    pub(crate) fn is_large(&self) -> bool
        ensures { result ≡ nat_le MOST_WAITING self.now.bytes }
    {
        MOST_WAITING <= self.bytes
    }

    /// Returns whether a commit is due at the time `now`. `is_idle` states whether no port has a datagram.
    pub(crate) fn is_due(&self, now: u64, is_idle: bool) -> bool
        ensures { result ≡ is_due self.now now is_idle }
    {
        let span = if is_idle { IDLE_SPAN } else { BUSY_SPAN };
        match self.oldest {
            Some(oldest) => span <= now.saturating_sub(oldest),
            None => false,
        }
    }

    /// Returns the least time at which a commit is due if no port has a datagram.
    pub(crate) fn due_at(&self) -> u64
        ensures { (now : ℕ) → now < 2 ^ 62 → nat_le result now ≡ is_due self.now now true }
    {
        match self.oldest {
            Some(oldest) => oldest.saturating_add(IDLE_SPAN),
            None => NEVER,
        }
    }
}
