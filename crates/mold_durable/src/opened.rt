//! What opening a journal returns together with a taker.

use crate::durable_journal::DurableJournal;

/// A journal that was opened, and the taker of its messages.
#[derive(Drop)]
pub struct Opened<S, T> {
    /// The journal.
    pub journal: DurableJournal<S>,
    /// The taker. It has taken all messages of the journal.
    pub taker: T,
}
