//! The commands `dump` and `serve` over a journal file that another process writes.
#![tactic(auto)]

mod catching_up;
mod dump_devices;
mod dumping;
mod file_error;
mod looked;
mod serving;

pub use catching_up::{catch_up, index_followed};
pub use dump_devices::DumpDevices;
pub use dumping::follow_dump;
pub use file_error::load_error;
pub use mold_serve::device_fault;
pub use serving::{FollowingServer, follow_serve};
