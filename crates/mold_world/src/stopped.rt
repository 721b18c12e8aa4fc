//! Why a run of events stops early.

use thiserror::Error;

/// An allocation failed at an event of a run.
#[derive(Clone, Copy, Debug, PartialEq, Eq, Error)]
#[error("out of memory at event {at}")]
pub struct Stopped {
    /// The index of the event in the run, counted from 0.
    pub at: usize,
}
