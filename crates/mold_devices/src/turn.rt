//! The result of one turn of a command.

/// What follows one turn of a command.
#[derive(Clone, Copy)]
pub enum Turn {
    /// The command goes on: another turn follows.
    More,
    /// The command has written everything and ends with this status.
    Done { status: u8 },
}
