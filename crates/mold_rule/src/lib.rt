//! The rule that a receiver and a checker of captured datagrams share. Given what is known of a session, it determines
//! which downstream packets are refused and which ranges of sequence numbers are missing.
#![tactic(auto)]

mod header;
pub mod laws;
mod refusal;

pub use header::check_header;
pub use refusal::Refusal;
