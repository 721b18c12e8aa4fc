//! Reads the frames of a capture: classic pcap and pcapng, from any source and in any pieces. What a frame carries is
//! not read here.
#![tactic(auto)]

mod blocks;
mod classic;
mod clock;
mod fault;
mod format;
mod interface;
mod interfaces;
mod kind;
pub mod laws;
mod limits;
mod look;
mod next;
mod options;
mod order;
mod passing;
mod place;
mod reader;
mod resolution;
mod stamp;
mod start;
mod step;
mod time;
mod window;

pub use fault::{CaptureError, CaptureFault};
pub use limits::{MAX_BLOCK, MAX_CAPTURED, MAX_INTERFACES};
pub use reader::CaptureReader;
pub use time::FrameTime;
