//! Runs a publisher, its re-request server and a listener in one process, as a demonstration.
#![tactic(auto)]

mod local_feed;
mod loop_parts;
mod looping;
mod ordered;
mod passing;
mod receiving;
mod running;
mod writing;

pub use loop_parts::{Drops, Listener, LoopOptions, LoopParts, LoopPeers, LoopPorts};
pub use looping::session_loop;
pub use ordered::{loop_options, make_parts};
pub use running::run_loop;
