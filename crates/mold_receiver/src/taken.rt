//! What a receiver did with a datagram.

/// The counts of what a receiver did with the messages of a datagram that it accepted.
#[derive(Clone, Copy, Debug, PartialEq, Eq)]
pub struct Taken {
    /// The number of messages that were delivered. They are the last messages of the batch, and may include messages
    /// that were stored before.
    pub handed: u32,
    /// The number of messages of this datagram that were added to the store.
    pub kept: u32,
    /// The number of messages of this datagram that the receiver dropped, so that they have to be received again: those
    /// past the window, or all those that it does not have if the store has no room for the datagram.
    pub beyond: u32,
}

/// What a receiver did with a packet that it accepted, and the packet's top.
#[derive(Clone, Copy)]
pub struct Accepted {
    /// The counts.
    pub taken: Taken,
    /// The packet's top: one more than the number of its last message, or its number if it has no message.
    pub top: u64,
}
