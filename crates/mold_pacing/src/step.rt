//! The steps of a run.

use crate::gap::Gap;

/// What happens to a pacer: one of its calls.
#[derive(Clone, Copy)]
pub enum Step<'a> {
    /// `Pacer::advance`: the time, and one more than the greatest known number.
    Advance { time: u64, known: u64 },
    /// `Pacer::adapt`: the patience from now on.
    Adapt { patience: u64 },
    /// `Pacer::poll`: the missing numbers.
    Poll { gaps: &'a [Gap] },
    /// `Pacer::respond`: the server that responded, and the numbers of the response.
    Respond { server: u32, came: Gap },
    /// `Pacer::arrive`: the numbers that arrived.
    Arrive { came: Gap },
}
