//! Room in a batch.

// Room for at most this many messages is small.
const SMALL_MESSAGES: usize = 4096;

// Room for at most this many bytes is small.
const SMALL_BYTES: usize = 65536;

/// Room for a number of messages, and for a number of bytes: those of the messages and of their length fields.
#[derive(Clone, Copy)]
pub(crate) struct Room {
    pub messages: usize,
    pub bytes: usize,
}

impl Room {
    /// Returns whether the room is small. Making it costs less than counting how much of it is needed.
    pub(crate) fn is_small(self) -> bool {
        self.messages <= SMALL_MESSAGES && self.bytes <= SMALL_BYTES
    }

    /// Returns room for both.
    pub(crate) fn and(self, other: Room) -> Room {
        Room {
            messages: self.messages.saturating_add(other.messages),
            bytes: self.bytes.saturating_add(other.bytes),
        }
    }
}
