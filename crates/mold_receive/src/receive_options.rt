//! The options of the loop.

ghost use Rattle.std.specs.Prelude.{◌≡◌, ◌+◌, ◌<◌, ◌≤◌, ◌↔◌, length, IfSome, IsSome};
ghost use Rattle.mold_receive.specs.Options.{span_of};
ghost use Rattle.mold_receive.specs.declared.receive_options.TheConstants.{NEVER};

use mold_input::MessageFormat;

/// The most servers of a receiver.
pub(crate) const MOST_SERVERS: usize = 8;

/// The most ports of a receiver: those of two lines and of the servers.
pub(crate) const MOST_PORTS: usize = 10;

/// A second in nanoseconds.
pub(crate) const SECOND: u64 = 1_000_000_000;

/// The span of time that stands for an event that never happens, in nanoseconds. All times are below 2^62.
pub(crate) const NEVER: u64 = u64::MAX;

/// The options of a receiver over ports.
#[derive(Drop)]
pub struct ReceiveOptions<P> {
    // The number of lines. Their ports come first in the set of ports, and those of the servers follow.
    pub(crate) lines: usize,
    // The address of each server.
    pub(crate) servers: Vec<P>,
    pub(crate) format: MessageFormat,
    pub(crate) turns: u64,
    // After how many nanoseconds without an accepted datagram the receiver ends.
    pub(crate) quiet: u64,
    // Every how many nanoseconds statistics are printed.
    pub(crate) stats: u64,
    ghost some: { 0 < lines },
    ghost two: { lines ≤ 2 },
    ghost few: { length servers.items ≤ 8 },
}

impl<P: Copy> ReceiveOptions<P> {
    /// Returns the options of a receiver of 1 or 2 lines and at most 8 servers, or `None` for other numbers. The ports
    /// of the lines come first in the set of ports, and those of the servers follow. Messages are printed in
    /// this format. After this number of `turns` the receiver ends, even if the session is not finished. Until
    /// `with_stats` and `with_quiet` change this, it prints no statistics, and waits without a limit.
    pub fn new(
        lines: usize,
        servers: Vec<P>,
        format: MessageFormat,
        turns: u64,
    ) -> Option<ReceiveOptions<P>>
        ensures lines { IfSome result (λ options. options.lines ≡ lines) }
        ensures servers { IfSome result (λ options. options.servers ≡ servers) }
        ensures format { IfSome result (λ options. options.format ≡ format) }
        ensures turns { IfSome result (λ options. options.turns ≡ turns) }
        ensures quiet { IfSome result (λ options. options.quiet ≡ NEVER) }
        ensures stats { IfSome result (λ options. options.stats ≡ NEVER) }
        ensures some { IsSome result ↔ ((0 < lines) × (lines ≤ 2) × (length servers.items ≤ 8)) }
    {
        if lines == 0 || lines > 2 || servers.len() > MOST_SERVERS {
            return None;
        }
        Some(ReceiveOptions {
            lines,
            servers,
            format,
            turns,
            quiet: NEVER,
            stats: NEVER,
        })
    }

    /// Returns the same options for a receiver that ends after this number of seconds without an accepted datagram.
    /// With 0 it never ends for this reason.
    pub fn with_quiet(self, seconds: u32) -> ReceiveOptions<P>
        ensures { result ≡ record self { quiet = span_of seconds } }
    {
        let mut options = self;
        options.quiet = span_of(seconds);
        options
    }

    /// Returns the same options for a receiver that prints statistics each time this number of seconds has passed, and
    /// before its last line. With 0 it prints none.
    pub fn with_stats(self, seconds: u32) -> ReceiveOptions<P>
        ensures { result ≡ record self { stats = span_of seconds } }
    {
        let mut options = self;
        options.stats = span_of(seconds);
        options
    }

    /// Returns the number of lines.
    pub fn lines(&self) -> usize
        ensures { result ≡ self.now.lines }
    {
        self.lines
    }

    /// Returns the number of ports: those of the lines and of the servers.
    pub fn ports(&self) -> usize
        ensures { result ≡ self.now.lines + length self.now.servers.items }
    {
        self.lines + self.servers.len()
    }

    /// Returns the most turns that the receiver makes.
    pub fn turns(&self) -> u64
        ensures { result ≡ self.now.turns }
    {
        self.turns
    }

    /// Returns whether statistics are printed.
    pub(crate) fn has_stats(&self) -> bool {
        self.stats != NEVER
    }

    /// Returns whether there are two lines.
    pub(crate) fn has_both(&self) -> bool {
        self.lines == 2
    }

    /// Returns the format in which messages are printed.
    pub(crate) fn format(&self) -> MessageFormat
        ensures { result ≡ self.now.format }
    {
        self.format
    }
}

// Returns the span of these seconds in nanoseconds, or `NEVER` for 0.
fn span_of(seconds: u32) -> u64
    ensures { result ≡ span_of seconds }
{
    if seconds == 0 {
        return NEVER;
    }
    u64::from(seconds) * SECOND
}
