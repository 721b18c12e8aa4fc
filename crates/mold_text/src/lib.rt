//! The text of packets, requests and refusals, as lines of words. Each function appends to the existing text.
#![tactic(auto)]

mod line;
mod packet;
mod refusal;
mod request;
mod word;

pub use line::{line_room, push_line, push_line_with, write_line};
pub use packet::push_packet;
pub use refusal::{packet_fault_words, push_refusal, push_refused, request_fault_words};
pub use request::push_request;
pub use word::Word;
