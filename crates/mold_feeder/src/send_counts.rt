//! The sends on the lines of a publisher.

ghost use Rattle.std.specs.Prelude.{◌≡◌};
ghost use Rattle.mold_feeder.specs.SendCounts.{all_failed, counted, is_line_lost};

/// The number of sends on a line that succeeded, and of those that failed. Each number stops at 18446744073709551615.
#[derive(Clone, Copy)]
pub struct SendCounts {
    /// The number of sends that succeeded.
    pub sent: u64,
    /// The number of sends that failed.
    pub failed: u64,
}

/// The sends on both lines.
#[derive(Clone, Copy)]
pub struct LineCounts {
    /// The sends on line A.
    pub a: SendCounts,
    /// The sends on line B, if there is one. Otherwise both numbers are 0.
    pub b: SendCounts,
}

/// The counts before the first send.
const NONE: SendCounts = SendCounts { sent: 0, failed: 0 };

impl SendCounts {
    /// Counts one more send. `fails` states whether it failed.
    pub fn note(&mut self, fails: bool)
        ensures { self.new ≡ counted fails self.old }
    {
        if fails {
            self.failed = self.failed.saturating_add(1);
        } else {
            self.sent = self.sent.saturating_add(1);
        }
    }

    /// Returns whether there was a send, and each one failed.
    pub fn all_failed(&self) -> bool
        ensures { result ≡ all_failed self.now }
    {
        self.sent == 0 && self.failed > 0
    }
}

impl LineCounts {
    /// Returns the counts before the first send.
    pub fn new() -> LineCounts
        ensures { result ≡ record { a = record { sent = 0; failed = 0 }; b = record { sent = 0; failed = 0 } } }
    {
        LineCounts { a: NONE, b: NONE }
    }

    /// Returns whether each send on line A or each send on line B failed. A line on which nothing was sent does not
    /// count.
    pub fn is_line_lost(&self) -> bool
        ensures { result ≡ is_line_lost self.now }
    {
        self.a.all_failed() || self.b.all_failed()
    }
}
