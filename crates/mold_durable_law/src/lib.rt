//! The law of the durable journal: it relates the lives of a publisher that may crash to one session of the machine.
#![tactic(auto)]

pub mod laws;
