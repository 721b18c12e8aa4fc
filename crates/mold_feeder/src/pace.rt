//! The pace of a publisher: when its next datagram may be sent.

ghost use Rattle.std.specs.Prelude.{◌≡◌, ◌≤◌, ◌<◌, ◌^◌, nat_le};
ghost use Rattle.mold_feeder.specs.Pace.{IsDelay, IsDelayAt, IsPaced, group_of};

/// A second in nanoseconds.
pub(crate) const SECOND: u64 = 1_000_000_000;

/// The pace of a publisher that sends at most a number of messages a second. Times are in nanoseconds.
#[derive(Clone, Copy)]
pub struct Pace {
    // The most messages in a second. 0 is no bound.
    rate: u32,
    // The time from which on the next datagram may be sent.
    opens: u64,
}

impl Pace {
    /// Returns the pace of a publisher that sends at most `rate` messages a second, or without a bound if `rate` is 0.
    /// Its first datagram may be sent at once.
    pub fn new(rate: u32) -> Pace
        ensures { result ≡ record { rate = rate; opens = 0 } }
    {
        Pace { rate, opens: 0 }
    }

    /// Returns the most messages that are committed together.
    pub fn group(&self) -> u64
        ensures { result ≡ group_of self.now.rate }
    {
        if self.rate == 0 {
            return u64::MAX;
        }
        u64::from(self.rate / 100).max(1)
    }

    /// Returns the time from which on the next datagram may be sent.
    pub fn opens(&self) -> u64
        ensures { result ≡ self.now.opens }
    {
        self.opens
    }

    /// Returns whether the next datagram may be sent at this time.
    pub fn is_open(&self, time: u64) -> bool
        ensures { result ≡ nat_le self.now.opens time }
    {
        self.opens <= time
    }

    /// Notes that a datagram with this number of messages was sent at this time. It delays the next one.
    pub fn note(&mut self, time: u64, messages: u64)
        requires time { time < 2 ^ 62 }
        requires few { messages < 2 ^ 32 }
        ensures { IsPaced self.old time messages self.new }
    {
        self.opens = time + delay_of(self.rate, messages);
    }
}

// Returns the least time in which the messages may be sent at this rate.
fn least_time(rate: u32, messages: u64) -> u64
    requires some { 0 < rate }
    requires few { messages < 2 ^ 32 }
    ensures delay { IsDelay rate messages result }
    ensures short { result < 2 ^ 62 }
{
    (messages * SECOND).div_ceil(u64::from(rate))
}

// Returns the time that a datagram with this number of messages delays the next one.
fn delay_of(rate: u32, messages: u64) -> u64
    requires { messages < 2 ^ 32 }
    ensures delay { IsDelayAt rate messages result }
    ensures short { result < 2 ^ 62 }
{
    if rate == 0 {
        return 0;
    }
    least_time(rate, messages)
}
