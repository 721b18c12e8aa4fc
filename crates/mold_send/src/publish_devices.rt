//! The devices of a publisher.

use mold_devices::{Sink, Source};

/// The devices of a publisher: what it reads its lines from, and what it writes its text and its journal to.
#[derive(Drop)]
pub struct PublishDevices<S: Source + Drop, K: Sink + Drop, J: Sink + Drop> {
    /// The source of the lines that are published.
    pub source: S,
    /// The sink of the text: the last line, or the line of a refusal.
    pub sink: K,
    /// The sink of the journal's file.
    pub journal: J,
}
