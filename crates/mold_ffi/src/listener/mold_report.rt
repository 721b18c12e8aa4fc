//! A line's report as the fields of a struct.

ghost use Rattle.std.specs.Prelude.{◌≡◌};
ghost use Rattle.mold_ffi.specs.Listener.MoldReport.{reported};

use mold_receiver::LineReport;

/// What was received on a line. Both counts stop at 18446744073709551615.
#[repr(C)]
#[derive(Clone, Copy)]
pub struct MoldReport {
    /// The number of datagrams that were taken.
    pub datagrams: u64,
    /// The number of datagrams that were refused, except those for which an allocation failed, and those that were not
    /// read because the batch was not cleared.
    pub refused: u64,
    /// The greatest top of a packet that was taken, and at least the first sequence number of the listener.
    pub front: u64,
}

impl MoldReport {
    pub(crate) fn of(report: LineReport) -> MoldReport
        ensures { result ≡ reported report }
    {
        MoldReport {
            datagrams: report.datagrams,
            refused: report.refused,
            front: report.front,
        }
    }
}
