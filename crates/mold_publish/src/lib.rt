//! Publishing the messages of an input. No port is needed.
#![tactic(auto)]

mod filling;
pub mod laws;
mod message_refusal;
mod refusal_reason;

pub use filling::{Filled, fill};
pub use message_refusal::{MessageRefusal, push_message_refused};
pub use refusal_reason::RefusalReason;
