//! A publisher that keeps only the unsent messages of its session in memory.
#![tactic(auto)]

mod counted_journal;
mod forgotten_messages;
mod packing;
mod unsent_publisher;

pub use counted_journal::CountedJournal;
pub use unsent_publisher::UnsentPublisher;
