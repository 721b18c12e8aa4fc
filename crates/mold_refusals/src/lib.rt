//! The text of the refusals of publishers, re-request servers and journal files.
#![tactic(auto)]

mod answering;
mod appending;
mod loading;

pub use answering::push_answer_refusal;
pub use appending::push_append_refusal;
pub use loading::push_file_refusal;
