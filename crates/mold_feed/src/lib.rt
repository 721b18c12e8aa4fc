//! Laws of a whole feed: from the messages that are published to what a listener prints.
#![tactic(auto)]

pub mod laws;
