//! The journals of all modules.

use mold_session::{AppendError, Journal};
use mold_wire::Session;
use std::alloc::Global;

pub const SESSION: Session = Session(*b"SESSION001");

/// An open journal of these messages, each of at most `max_message` bytes.
pub fn journal_of(
    alloc: Global,
    max_message: u16,
    messages: &[&[u8]],
) -> Result<Journal, AppendError> {
    let mut journal = Journal::new(alloc, SESSION, max_message);
    for message in messages {
        journal.append(message)?;
    }
    Ok(journal)
}
