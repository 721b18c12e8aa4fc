//! The steps of a run.

use crate::origin::RepairOrigin;

/// What happens to a repairer: one of its calls, at this time.
#[derive(Clone, Copy)]
pub enum RepairStep<'a> {
    /// `Repairer::deadline`: nothing happens but that time passes.
    Pass {
        time: u64,
    },
    /// `Repairer::take`: a datagram arrived.
    Take {
        time: u64,
        origin: RepairOrigin,
        datagram: &'a [u8],
    },
    /// `Repairer::poll`.
    Poll {
        time: u64,
    },
    /// `Repairer::lost`.
    Lost {
        time: u64,
    },
}
