//! The re-request server over a port: it answers or refuses requests for the messages of a journal.
#![tactic(auto)]

mod asked;
mod file_error;
pub mod laws;
mod once;
mod responder;
mod serving;
mod tally;

pub use asked::Asked;
pub use file_error::{device_fault, end_refused};
pub use once::{answer_once, serve_once};
pub use responder::Responder;
pub use serving::serve_loop;
pub use tally::Tally;
