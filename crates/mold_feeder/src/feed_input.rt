//! The input of a publisher over ports.

/// The input of a publisher over ports: its source, the reader of its messages, and whether it is ready.
#[derive(Drop)]
pub struct FeedInput<M, K> {
    /// The reader of the messages.
    pub messages: M,
    /// What the messages are read from.
    pub source: K,
    /// Whether messages can be read without waiting for the source.
    pub ready: bool,
}
