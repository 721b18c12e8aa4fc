//! The next entry of an input.

use crate::input_fault::InputFault;

/// What follows in an input.
#[derive(Clone, Copy, Debug, PartialEq, Eq)]
pub enum Next {
    /// A message. The reader holds its bytes.
    Message,
    /// An entry that is not a message.
    Fault { why: InputFault },
    /// The end: no entry remains.
    End,
}
