//! Why a group of messages is complete.

use mold_publish::MessageRefusal;

/// Why no more messages of an input joined a group.
#[derive(Clone, Copy)]
pub enum Gathered {
    /// The group has as many messages as it may have.
    Full,
    /// The input ends.
    End,
    /// The entry after the messages of the group is refused.
    Refused { refusal: MessageRefusal },
}
