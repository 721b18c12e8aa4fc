//! Catching up: a receiver gets all messages that it misses from a journal, in a counted number of requests.
#![tactic(auto)]

mod catching;
pub mod laws;
mod memory;
mod rounding;

pub use catching::catch_up;
pub use memory::Memory;
