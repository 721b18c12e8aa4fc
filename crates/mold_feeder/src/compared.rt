//! How an entry of an input compares with the journal.

use mold_publish::RefusalReason;

/// How an entry of an input compares with the journal's message of its number.
#[derive(Clone, Copy)]
pub enum Compared {
    /// It is the same message.
    Same,
    /// It is another message.
    Differs,
    /// It is refused, whatever the journal has.
    Refused { why: RefusalReason },
    /// The input ends before it.
    End,
}
