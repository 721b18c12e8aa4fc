//! Messages that are no longer in memory. Only clauses read them.

ghost use Rattle.std.specs.Prelude.{◌≡◌, ℕ, List, [], ◌∷◌, ◌++◌};
ghost use base.Fml.{ftrue};

use mold_messages::MessageList;
use std::marker::Model;

/// Messages that are no longer in memory. A value takes no bytes, and its calls do nothing when they run. Clauses read
/// the messages as `messages`.
#[derive(Drop)]
pub struct ForgottenMessages {
    pub ghost messages: { List (List ℕ) },
}

/// A message that is in memory.
#[derive(Clone, Copy)]
pub struct Message<'a> {
    /// The bytes of the message.
    pub bytes: &'a [u8],
}

impl Model for ForgottenMessages {
    ghost also_owns = { λ _. ftrue };
}

impl ForgottenMessages {
    /// Returns no messages.
    pub fn new() -> ForgottenMessages
        ensures { result.messages ≡ [] }
    {
        ForgottenMessages {}
    }

    /// Returns these messages, followed by those of the list.
    pub fn followed_by(&self, _list: &MessageList) -> ForgottenMessages
        ensures { result.messages ≡ self.now.messages ++ _list.now.messages }
    {
        ForgottenMessages {}
    }

    /// Returns these messages, followed by one more.
    pub fn and(&self, _message: &Message<'_>) -> ForgottenMessages
        ensures { result.messages ≡ self.now.messages ++ _message.now.bytes.now ∷ [] }
    {
        ForgottenMessages {}
    }
}
