//! The journal of a storage: the number of its messages, and its index. No message stays in memory.
#![tactic(auto)]

mod stored_journal;

pub use stored_journal::StoredJournal;
