//! Why a comparison ended without a result.

use mold_devices::{CommandFault, ReadFault};
use mold_session::FileError;

/// Why a comparison of an input with the messages of a journal's file ended without a result.
#[derive(Clone, Copy, Debug, PartialEq, Eq)]
pub enum CompareFault {
    /// The input could not be read.
    Input(ReadFault),
    /// The journal's file could not be read, or is not the file of a journal.
    File(FileError),
    /// The file ends before the message.
    FewerMessages,
}

impl From<ReadFault> for CompareFault {
    ghost use Rattle.std.specs.Prelude.{◌≡◌};
    ghost use Rattle.mold_feeder.specs.declared.compare_fault.CompareFault.TheVariants.{Input};

    ghost from_gives = { λ cause fault. fault ≡ Input cause };

    fn from(cause: ReadFault) -> CompareFault {
        CompareFault::Input(cause)
    }
}

impl From<FileError> for CompareFault {
    ghost use Rattle.std.specs.Prelude.{◌≡◌};
    ghost use Rattle.mold_feeder.specs.declared.compare_fault.CompareFault.TheVariants.{File};

    ghost from_gives = { λ cause fault. fault ≡ File cause };

    fn from(cause: FileError) -> CompareFault {
        CompareFault::File(cause)
    }
}

impl From<CompareFault> for CommandFault {
    ghost use Rattle.std.specs.Prelude.{◌≡◌};
    ghost use Rattle.mold_feeder.specs.Comparison.{command_fault};

    ghost from_gives = { λ cause fault. fault ≡ command_fault cause };

    /// Returns `Memory` for a failed allocation, and otherwise `Read`: a file that is not the journal's was changed by
    /// another process.
    fn from(cause: CompareFault) -> CommandFault {
        match cause {
            CompareFault::Input(ReadFault::Read) => CommandFault::Read,
            CompareFault::Input(ReadFault::Memory) => CommandFault::Memory,
            CompareFault::File(FileError::Memory) => CommandFault::Memory,
            CompareFault::File(_) => CommandFault::Read,
            CompareFault::FewerMessages => CommandFault::Read,
        }
    }
}
