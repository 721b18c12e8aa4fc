//! What `mold check` reports about datagrams, which are files of a folder or lines of hexadecimal digits. It
//! reports whether they come from one whole session, and otherwise what is missing or which datagram is
//! refused.
#![tactic(auto)]

mod datagram_check;
mod datagrams;
mod digest_check;
mod digested;
mod each_check;
mod entry;
mod entry_check;
mod entry_names;
mod fresh_judge;
mod judge;
pub mod laws;
mod line_check;
mod lines;
mod naming;
mod printing;
mod refused_datagram;
mod report;
mod session_key;
mod session_table;

pub use datagram_check::DatagramCheck;
pub use datagrams::names_datagram;
pub use digest_check::DigestCheck;
pub use digested::Digested;
pub use each_check::EachCheck;
pub use entry::Entry;
pub use entry_check::EntryCheck;
pub use fresh_judge::FreshJudge;
pub use judge::Judge;
pub use line_check::LineCheck;
pub use lines::{check_lines, read_lines, read_lines_over};
pub use naming::{Counted, Naming};
pub use refused_datagram::RefusedDatagram;
pub use report::check_entries;
pub use session_key::SessionKey;
