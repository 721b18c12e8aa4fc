//! The commands of the program that need no port, over any source, sink and files.
#![tactic(auto)]

mod command;
mod folder;
mod packing;
mod upgrading;

pub use command::run_command;
pub use folder::{check_folder, read_folder};
pub use mold_show::{DumpOptions, dump_file};
pub use packing::run_pack_journal;
pub use upgrading::run_upgrade;
