//! How `mold check` judges datagrams.

/// Which sessions `check` judges, and what it saves.
#[derive(Drop)]
pub enum Judging {
    /// Judges whether all datagrams are those of one complete session.
    Whole {
        /// Whether a digest of 16 bytes is kept for each message, in place of the message.
        digest: bool,
    },
    /// Judges the same for the datagrams of each session by itself.
    Each {
        /// Whether a digest of 16 bytes is kept for each message, in place of the message.
        digest: bool,
    },
    /// Judges all datagrams as one session. If it is complete, its messages are saved as a journal.
    Save {
        /// The name of the file that the journal is saved in.
        journal: String,
    },
}
