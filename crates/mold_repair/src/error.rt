//! Why a repairer cannot be created.

use thiserror::Error;

/// Why a repairer cannot be created. If both reasons apply, the first one is returned.
#[derive(Clone, Copy, Debug, PartialEq, Eq, Error)]
pub enum RepairError {
    /// A number of the options is outside its range.
    #[error("an option is outside its range")]
    Options,
    /// The allocation of the table of requests failed.
    #[error("out of memory")]
    Memory,
}
