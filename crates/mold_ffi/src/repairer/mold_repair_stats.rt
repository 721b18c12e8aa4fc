//! The statistics of a repairer as the fields of a struct.

ghost use Rattle.std.specs.Prelude.{◌≡◌, IfSome, ◌<◌};
ghost use Rattle.mold_ffi.specs.Repairer.MoldRepairStats.{line_fields, stats_fields};

use mold_repair::{LineStats, RepairStats};

/// What a line brought. Counts stop at 18446744073709551615.
#[repr(C)]
#[derive(Clone, Copy)]
pub struct MoldLineStats {
    /// The number of datagrams that were taken.
    pub datagrams: u64,
    /// Those of which a message was delivered or stored.
    pub first: u64,
    /// The others.
    pub again: u64,
    /// The number of datagrams that were refused, except those for which an allocation failed.
    pub refused: u64,
    /// The greatest delay after the other line, in nanoseconds.
    pub late: u64,
}

/// The statistics of a repairer. Counts stop at 18446744073709551615.
#[repr(C)]
#[derive(Clone, Copy)]
pub struct MoldRepairStats {
    /// The number of the next message to deliver.
    pub next: u64,
    /// The greatest known top.
    pub known: u64,
    /// The first missing number; 0 if no message is missing.
    pub gap_first: u64,
    /// The last number of the first gap; 0 if no message is missing.
    pub gap_last: u64,
    /// The number of missing messages.
    pub missing: u64,
    /// The number of stored messages.
    pub stored: u64,
    /// How long a message has to be missing before it is requested, in nanoseconds.
    pub patience: u64,
    /// The number of requests.
    pub requests: u64,
    /// The number of responses that were taken.
    pub answers: u64,
    /// Those of which no message was delivered or stored.
    pub useless: u64,
    /// The number of messages that were given up.
    pub lost: u64,
    /// The number of contradictions that the audit found.
    pub contradictions: u64,
    /// The number of the message of the last contradiction; 0 if there was none.
    pub contradiction: u64,
    /// What line A brought.
    pub a: MoldLineStats,
    /// What line B brought.
    pub b: MoldLineStats,
}

impl MoldLineStats {
    fn of(stats: LineStats) -> MoldLineStats
        ensures { result ≡ line_fields stats }
    {
        MoldLineStats {
            datagrams: stats.datagrams,
            first: stats.first,
            again: stats.again,
            refused: stats.refused,
            late: stats.late,
        }
    }
}

impl MoldRepairStats {
    /// The fields of the statistics.
    pub(crate) fn of(stats: &RepairStats) -> MoldRepairStats
        requires { IfSome stats.now.gap (λ gap. gap.first < gap.end) }
        ensures { result ≡ stats_fields stats.now }
    {
        let (first, last) = match stats.gap {
            Some(gap) => (gap.first, gap.end - 1),
            None => (0, 0),
        };
        MoldRepairStats {
            next: stats.next,
            known: stats.known,
            gap_first: first,
            gap_last: last,
            missing: stats.missing,
            stored: u64::from(stats.stored),
            patience: stats.patience,
            requests: stats.counts.requests,
            answers: stats.counts.answers,
            useless: stats.counts.useless,
            lost: stats.counts.lost,
            contradictions: stats.counts.contradictions,
            contradiction: stats.counts.contradiction.unwrap_or(0),
            a: MoldLineStats::of(stats.a),
            b: MoldLineStats::of(stats.b),
        }
    }
}
