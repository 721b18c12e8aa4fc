//! The faults that end a command early.

ghost use Rattle.std.specs.Prelude.{◌≡◌};

use crate::device_fault::DeviceFault;
use std::alloc::AllocError;
use thiserror::Error;

/// The reason why reading lines stopped.
#[derive(Clone, Copy, Debug, PartialEq, Eq, Error)]
pub enum ReadFault {
    /// The source failed.
    #[error("a read failed")]
    Read,
    /// An allocation failed.
    #[error("out of memory")]
    Memory,
}

impl From<AllocError> for ReadFault {
    ghost use Rattle.std.specs.Prelude.{◌≡◌};
    ghost use Rattle.mold_devices.specs.declared.fault.ReadFault.TheVariants.{Memory};

    ghost from_gives = { λ _ fault. fault ≡ Memory };

    /// Returns `Memory`, the fault for a failed allocation.
    fn from(_error: AllocError) -> ReadFault {
        ReadFault::Memory
    }
}

impl From<DeviceFault> for ReadFault {
    ghost use Rattle.std.specs.Prelude.{◌≡◌};
    ghost use Rattle.mold_devices.specs.declared.fault.ReadFault.TheVariants.{Read};

    ghost from_gives = { λ _ fault. fault ≡ Read };

    /// Returns `Read`, the fault for a source that failed.
    fn from(_fault: DeviceFault) -> ReadFault {
        ReadFault::Read
    }
}

/// The reason why a command ended without a status.
#[derive(Clone, Copy, Debug, PartialEq, Eq, Error)]
pub enum CommandFault {
    /// The input could not be read to its end.
    #[error("the input could not be read to its end")]
    Read,
    /// The output could not be written.
    #[error("the output could not be written")]
    Write,
    /// An allocation failed.
    #[error("out of memory")]
    Memory,
}

impl CommandFault {
    ghost use Rattle.mold_devices.specs.Faults.{fault_word};

    /// Returns the word that the program prints after `fault`.
    pub fn word(self) -> &'static str
        ensures { result.now ≡ fault_word self }
    {
        match self {
            CommandFault::Read => "Read",
            CommandFault::Write => "Write",
            CommandFault::Memory => "Memory",
        }
    }
}

impl From<AllocError> for CommandFault {
    ghost use Rattle.std.specs.Prelude.{◌≡◌};
    ghost use Rattle.mold_devices.specs.declared.fault.CommandFault.TheVariants.{Memory};

    ghost from_gives = { λ _ fault. fault ≡ Memory };

    fn from(_error: AllocError) -> CommandFault {
        CommandFault::Memory
    }
}

impl From<ReadFault> for CommandFault {
    ghost use Rattle.std.specs.Prelude.{◌≡◌};
    ghost use Rattle.mold_devices.specs.Faults.{from_read_fault};

    ghost from_gives = { λ cause fault. fault ≡ from_read_fault cause };

    fn from(cause: ReadFault) -> CommandFault {
        match cause {
            ReadFault::Read => CommandFault::Read,
            ReadFault::Memory => CommandFault::Memory,
        }
    }
}
