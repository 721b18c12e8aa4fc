//! The commands that convert between packets, messages and text: `show` prints packets, `pack` makes packets
//! from lines or blocks, and `dump` prints a journal's messages as lines or blocks.
#![tactic(auto)]

mod dump;
mod dump_fault;
mod dump_options;
pub mod laws;
mod listed;
mod pack;
mod pack_journal;
mod pack_options;
mod save_outcome;
mod show;
mod show_packets;
mod show_requests;

pub use dump::{dump_file, end_dump, push_end};
pub use dump_fault::DumpFault;
pub use dump_options::DumpOptions;
pub use listed::push_listed;
pub use pack::Pack;
pub use pack_journal::pack_into_journal;
pub use pack_options::PackOptions;
pub use save_outcome::SaveOutcome;
pub use show_packets::ShowPackets;
pub use show_requests::ShowRequests;
