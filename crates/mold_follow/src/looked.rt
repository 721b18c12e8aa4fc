//! What a look at a growing file leaves to do.

/// What a look at a growing file leaves to do.
#[derive(Clone, Copy)]
pub(crate) enum Looked {
    /// The look took as many bytes as one look may. More may be there.
    Stopped,
    /// The look took everything that the file had.
    Paused,
    /// The command ended with this status.
    Ended { status: u8 },
}
