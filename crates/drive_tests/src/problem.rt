//! Why the driver ends early.

use mold_devices::{CommandFault, ReadFault};
use mold_durable::JournalFileError;
use std::alloc::AllocError;

/// Why the driver ends early.
#[derive(Clone, Copy)]
pub(crate) enum Problem {
    /// The first line does not have the options, or an allocation for them failed.
    Options,
    /// Standard input or output failed, or an allocation failed.
    Device,
    /// The journal's file is locked.
    Locked,
    /// The journal's file is not opened, created or written.
    File,
}

impl Problem {
    /// Returns the status of the program.
    pub(crate) fn status(self) -> u8 {
        match self {
            Problem::Options => 2,
            Problem::Device => 3,
            Problem::Locked => 4,
            Problem::File => 5,
        }
    }
}

impl From<CommandFault> for Problem {
    fn from(_fault: CommandFault) -> Problem {
        Problem::Device
    }
}

impl From<ReadFault> for Problem {
    fn from(_fault: ReadFault) -> Problem {
        Problem::Device
    }
}

impl From<AllocError> for Problem {
    fn from(_error: AllocError) -> Problem {
        Problem::Device
    }
}

impl From<JournalFileError> for Problem {
    fn from(error: JournalFileError) -> Problem {
        match error {
            JournalFileError::Locked => Problem::Locked,
            JournalFileError::Write | JournalFileError::Obstructed(_) => Problem::File,
            JournalFileError::Memory => Problem::Device,
        }
    }
}
