//! The checker of captured datagrams. It finds whether one whole session explains them, and otherwise what is
//! missing or which datagram is refused.
#![tactic(auto)]

mod carried;
mod carried_messages;
mod carried_run;
mod checker;
mod checking;
mod compare;
mod ends;
mod keep;
mod kept;
pub mod laws;
mod memory;
mod missing;
mod offsets;
mod run;
mod verdict;

pub use carried_messages::CarriedMessages;
pub use carried_run::CarriedRun;
pub use checker::Checker;
pub use checking::check;
pub use memory::Memory;
pub use mold_rule::{Refusal, Refusal as Reason};
pub use verdict::{Range, Verdict};
