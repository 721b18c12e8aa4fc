//! The law of a session whose publisher and recorders keep durable journals, and may each crash at any moment.
#![tactic(auto)]

pub mod laws;
