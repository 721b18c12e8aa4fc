//! The law of the receiver over ports: it relates the messages that are published to what is printed.
#![tactic(auto)]

pub mod laws;
