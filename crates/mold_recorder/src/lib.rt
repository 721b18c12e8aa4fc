//! The receiver over ports that keeps the session in a durable journal: the loop of `mold receive --journal`.
#![tactic(auto)]

mod appending;
mod commit_plan;
mod feed_recorder;
mod recording;

pub use recording::{receiver_of, record_loop};
