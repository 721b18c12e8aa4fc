//! The commands `publish`, `serve`, `listen` and `receive` over UDP sockets, and `dump --follow`. This crate only opens
//! the sockets and the files; the loops that run over them are proved for any ports and files.
#![tactic(auto)]

mod following;
mod options;
mod receiving;
mod recording;
mod replacing;
mod sockets;
mod streams;
mod unsynced_file;

pub use following::run_follow_dump;
pub use receiving::run_receive;
pub use recording::run_record;
pub use replacing::{open_replaced, unless_locked};
pub use sockets::{run_listen, run_publish, run_serve};
