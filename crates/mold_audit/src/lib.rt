//! The audit of delivered messages: whether a feed repeats a number with another message.
#![tactic(auto)]

mod audit;
mod digest;
pub mod laws;

pub use audit::{Audit, MAX_AUDIT};
pub use digest::digest_of;
