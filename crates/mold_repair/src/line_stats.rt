//! The statistics of a line.

ghost use Rattle.std.specs.Prelude.{◌≡◌};
ghost use Rattle.mold_repair.specs.Stats.{line_stats};

use mold_receiver::LineReport;

/// What a line brought. A count that reaches 2^64 - 1 stays there.
#[derive(Clone, Copy, PartialEq, Eq)]
pub struct LineStats {
    /// The datagrams that were accepted on the line.
    pub datagrams: u64,
    /// Those of which a message was delivered or stored. Neither the other line nor a response had brought it before.
    pub first: u64,
    /// The others: no message of them was delivered or stored.
    pub again: u64,
    /// The datagrams that were refused, without those for which an allocation failed.
    pub refused: u64,
    /// By how much the line brought a datagram after the other line, at most, in nanoseconds. It is measured for the
    /// last 1,024 datagrams that both lines brought, while the patience adapts. Otherwise it is 0.
    pub late: u64,
}

impl LineStats {
    /// Returns the statistics by the arbiter's report.
    pub(crate) fn new(report: LineReport, again: u64, late: u64) -> LineStats
        ensures { result ≡ line_stats report again late }
    {
        LineStats {
            datagrams: report.datagrams,
            first: report.datagrams.saturating_sub(again),
            again,
            refused: report.refused,
            late,
        }
    }
}
