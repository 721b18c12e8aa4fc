//! The index of a journal's file: where in the file each message begins, and how a message is found in a piece of the file.
//! The index has an entry for each 64 messages or fewer. It reads no file.
#![tactic(auto)]

mod entries;
mod entry;
mod error;
mod index;
pub mod laws;
mod layout;
mod piece;
mod room;
mod scan;

pub use entries::{STRIDE_BYTES, STRIDE_MESSAGES};
pub use entry::Entry;
pub use error::{IndexError, NoMessage};
pub use index::{Index, MAX_END};
pub use layout::Layout;
pub use piece::Piece;
pub use scan::{find_message, split_message};
