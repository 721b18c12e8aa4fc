//! The command `feed` over UDP sockets and standard input. This crate opens the sockets and the file, and waits; the loop
//! that runs over them is proved for any ports and files. Also the command `close`, which ends the session of such a
//! file.
#![tactic(auto)]

mod closing;
mod failed_sends;
mod feed_sockets;
mod feeding;
mod options;
mod refusing;
mod request_port;
mod waiting;

pub use closing::{close_journal, run_close};
pub use feed_sockets::FeedSockets;
pub use feeding::run_feed;
pub use request_port::RequestPort;
