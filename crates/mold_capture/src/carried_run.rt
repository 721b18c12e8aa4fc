//! Carried messages with consecutive numbers.

use crate::carried_messages::CarriedMessages;

/// Carried messages with consecutive sequence numbers.
#[derive(Drop)]
pub struct CarriedRun<'a> {
    /// The sequence number of the first message.
    pub first: u64,
    /// The messages, in order of their numbers.
    pub messages: CarriedMessages<'a>,
}
