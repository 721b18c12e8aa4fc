//! When a publisher sends heartbeats: if its lines are idle.

ghost use Rattle.std.specs.Prelude.{◌≡◌, ◌<◌, ◌^◌, nat_le};
ghost use Rattle.mold_feeder.specs.IdleClock.{due_after};

/// A millisecond in nanoseconds.
pub(crate) const MILLISECOND: u64 = 1_000_000;

/// A time that never comes, in nanoseconds. All times of a clock are below 2^62.
pub(crate) const NEVER: u64 = u64::MAX;

/// When the next heartbeat is due, because nothing was sent on the lines for a time.
#[derive(Clone, Copy)]
pub struct IdleClock {
    // After how many milliseconds without a datagram a heartbeat is due. 0 is never.
    idle: u32,
    // The time at which the next heartbeat is due, in nanoseconds.
    due: u64,
}

impl IdleClock {
    /// Returns a clock by which a heartbeat is due `idle` milliseconds after the last datagram, or never if `idle` is
    /// 0. The time until the first one counts from `time`, which is in nanoseconds.
    pub fn new(idle: u32, time: u64) -> IdleClock
        requires { time < 2 ^ 62 }
        ensures { result ≡ record { idle = idle; due = due_after idle time } }
    {
        IdleClock {
            idle,
            due: due_after(idle, time),
        }
    }

    /// Returns the time at which the next heartbeat is due, in nanoseconds.
    pub fn due(&self) -> u64
        ensures { result ≡ self.now.due }
    {
        self.due
    }

    /// Returns whether a heartbeat is due at this time.
    pub fn is_due(&self, time: u64) -> bool
        ensures { result ≡ nat_le self.now.due time }
    {
        self.due <= time
    }

    /// Notes that a datagram was sent on the lines at this time.
    pub fn note(&mut self, time: u64)
        requires { time < 2 ^ 62 }
        ensures { self.new ≡ record self.old { due = due_after self.old.idle time } }
    {
        self.due = due_after(self.idle, time);
    }
}

// Returns the time at which a heartbeat is due if the last datagram was sent at this time.
fn due_after(idle: u32, time: u64) -> u64
    requires { time < 2 ^ 62 }
    ensures { result ≡ due_after idle time }
{
    if idle == 0 {
        return NEVER;
    }
    time + u64::from(idle) * MILLISECOND
}
