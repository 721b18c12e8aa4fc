//! What the loops over ports share: runs of turns (a turn is one iteration), outgoing text, and the count of failed
//! sends and receives.
#![tactic(auto)]

mod outgoing;

pub use outgoing::Outgoing;
