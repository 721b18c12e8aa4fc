//! A publisher that commits messages to a durable journal before it sends them. What its datagrams state is true of
//! every file that a crash leaves.
#![tactic(auto)]

mod durable_publisher;
mod error;
pub mod laws;

pub use durable_publisher::DurablePublisher;
pub use error::{CloseError, ResumeError, StartError};
