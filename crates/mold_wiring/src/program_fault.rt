//! Why the program ends without a status from its command.

ghost use Rattle.std.specs.Prelude.{◌≡◌};

use mold_devices::CommandFault;
use thiserror::Error;

/// Why the program ends without a status from its command.
#[derive(Clone, Copy, Debug, PartialEq, Eq, Error)]
pub enum ProgramFault {
    /// A device failed, or an allocation failed.
    #[error("{0}")]
    Command(CommandFault),
    /// A port cannot be opened.
    #[error("a port could not be opened")]
    Socket,
    /// Another process writes the journal file.
    #[error("another process writes the journal")]
    Locked,
}

impl From<CommandFault> for ProgramFault {
    ghost use Rattle.std.specs.Prelude.{◌≡◌};
    ghost use Rattle.mold_wiring.specs.declared.program_fault.ProgramFault.TheVariants.{Command};

    ghost from_gives = { λ cause fault. fault ≡ Command cause };

    fn from(fault: CommandFault) -> ProgramFault {
        ProgramFault::Command(fault)
    }
}
