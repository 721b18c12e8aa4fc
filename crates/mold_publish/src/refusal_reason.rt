//! The reasons for which an entry of an input is refused.

ghost use Rattle.std.specs.Prelude.{◌≡◌};
ghost use Rattle.mold_publish.specs.Publishing.{fault_refusal};

use mold_input::InputFault;
use mold_session::AppendError;
use thiserror::Error;

/// The reason why an entry of an input is not published as a message.
#[derive(Clone, Copy, Debug, PartialEq, Eq, Error)]
pub enum RefusalReason {
    /// The entry is not a message.
    #[error("{0}")]
    NotRead(InputFault),
    /// The journal refuses the message.
    #[error("{0}")]
    NotTaken(AppendError),
}

impl RefusalReason {
    /// Returns the reason why an entry with this fault is refused. `closed` states whether the journal is closed. A
    /// closed journal refuses a message of any length as `Closed`.
    pub fn from_fault(fault: InputFault, closed: bool) -> RefusalReason
        ensures { result ≡ fault_refusal fault closed }
    {
        match fault {
            InputFault::TooLong { .. } if closed => RefusalReason::NotTaken(AppendError::Closed),
            _ => RefusalReason::NotRead(fault),
        }
    }
}
