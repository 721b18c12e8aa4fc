//! Why a receiver cannot be created.

use thiserror::Error;

/// Why a receiver cannot be created. If several reasons apply, the first in this order is returned.
#[derive(Clone, Copy, Debug, PartialEq, Eq, Error)]
pub enum ReceiverError {
    /// The first number is 0. The first message of a session has number 1.
    #[error("the next message can't have number 0")]
    NextZero,
    /// The window is not 1 to `MAX_WINDOW` messages, or for `Receiver::wide` not 1 to `MAX_WIDE_WINDOW`.
    #[error("a window is 1 to 65,536 messages")]
    Window,
    /// The room of the store is below `MIN_STORE` bytes.
    #[error("a store has room for at least 65,507 bytes")]
    Store,
    /// The allocation of the window failed.
    #[error("out of memory")]
    Memory,
}
