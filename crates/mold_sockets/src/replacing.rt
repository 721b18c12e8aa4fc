//! The files that a command replaces.

ghost use Rattle.std.specs.Prelude.{◌≡◌, ◌⊎◌, Err, IfErr, IfOk, Ok};
ghost use Rattle.mold_wiring.specs.declared.program_fault.ProgramFault.TheVariants.{Command, Locked};

use mold_devices::{CommandFault, IntoWrite};
use mold_durable::{JournalFileError, ReplacedFile};
use mold_wiring::{ProgramFault, print_explanation};

/// Returns the fault of the program for an error of the file of the journal at `path`. If another file is the reason, a
/// line on standard error explains it. If that line can't be printed, only the fault is.
pub(crate) fn fault_of(rt: &HostRuntime, path: &str, error: JournalFileError) -> ProgramFault {
    match error {
        JournalFileError::Locked => ProgramFault::Locked,
        JournalFileError::Write => ProgramFault::Command(CommandFault::Write),
        JournalFileError::Memory => ProgramFault::Command(CommandFault::Memory),
        JournalFileError::Obstructed(obstacle) => {
            let mut errors = IntoWrite::new(rt.stderr());
            let (suffix, reason) = (obstacle.suffix(), obstacle.reason());
            let _ = print_explanation(rt.alloc(), path, suffix, reason, &mut errors);
            ProgramFault::Command(CommandFault::Write)
        }
    }
}

/// Makes a sink whose first write creates the file at `path`, or empties it. If the file exists, it is locked at
/// once. If another process has locked it, the fault is `Locked`; if it cannot be opened for writing, `Write`.
pub fn open_replaced<'a>(
    rt: &'a HostRuntime,
    path: &'a str,
) -> Result<IntoWrite<ReplacedFile<'a>>, ProgramFault> {
    match ReplacedFile::open(rt, path) {
        Ok(file) => Ok(IntoWrite::new(file)),
        Err(error) => Err(fault_of(rt, path, error)),
    }
}

/// Returns the outcome of a command that wrote to this sink. The fault is `Locked` if another process has created and
/// locked the file since the sink was made.
pub fn unless_locked(
    outcome: Result<u8, CommandFault>,
    sink: IntoWrite<ReplacedFile<'_>>,
) -> Result<u8, ProgramFault>
    ensures status { IfOk outcome (λ status. result ≡ Ok status) }
    ensures fault { IfErr outcome (λ fault. (result ≡ Err Locked) ⊎ (result ≡ Err (Command fault))) }
{
    match outcome {
        Ok(status) => Ok(status),
        Err(_) if sink.into_inner().is_locked() => Err(ProgramFault::Locked),
        Err(fault) => Err(ProgramFault::Command(fault)),
    }
}
