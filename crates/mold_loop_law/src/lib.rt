//! The law of the loop in one process: it relates the messages that are published to what is printed.
#![tactic(auto)]

pub mod laws;
