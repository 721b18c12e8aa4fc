//! `mold sim`: reads a script of events line by line, applies each event to a world and prints the result.
#![tactic(auto)]

mod event_words;
mod reading;
mod refusal;
mod report;
mod sim;

pub use sim::Sim;
