//! The receiver that repairs itself: an arbiter of two lines, which requests what is missing by the policy of
//! `mold_pacing`. It has no socket and no clock.
#![tactic(auto)]

mod ask;
mod auditing;
mod came;
mod error;
mod front;
mod gaps;
mod header;
pub mod laws;
mod line_stats;
mod options;
mod origin;
mod outcome;
mod repairer;
pub mod run;
mod stats;
mod step;

pub use ask::Ask;
pub use error::RepairError;
pub use line_stats::LineStats;
pub use options::RepairOptions;
pub use origin::RepairOrigin;
pub use outcome::Outcome;
pub use repairer::Repairer;
pub use stats::{RepairCounts, RepairStats};
pub use step::RepairStep;
