//! Lists of messages in one buffer, without a separate allocation for each message.
#![tactic(auto)]

mod iterator;
mod list;
mod offsets;
mod part;
mod parts;

pub use iterator::MessageIterator;
pub use list::MessageList;
pub use parts::{PartList, SPACING};
