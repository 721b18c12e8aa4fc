//! Why an existing journal file is not continued.

use mold_devices::{CommandFault, IntoWrite, Sink, send};
use mold_durable::JournalFileError;
use mold_durable_publisher::StartError;
use mold_follow::{device_fault, load_error};
use mold_session::FileError;
use mold_text::{Word, push_refused};
use mold_wiring::{ProgramFault, print_explanation, print_file_refusal};
use std::alloc::Global;

/// The status of a command that refuses its journal file.
const REFUSED: u8 = 2;

/// Returns the fault of the program for an error of the file of the journal at `path`. If another file is the reason, a
/// line on standard error explains it. If that line can't be printed, only the fault is.
pub(crate) fn fault_of(rt: &HostRuntime, path: &str, error: JournalFileError) -> ProgramFault {
    match error {
        JournalFileError::Locked => ProgramFault::Locked,
        JournalFileError::Write => ProgramFault::Command(CommandFault::Write),
        JournalFileError::Memory => ProgramFault::Command(CommandFault::Memory),
        JournalFileError::Obstructed(obstacle) => {
            let mut errors = IntoWrite::new(rt.stderr());
            let (suffix, reason) = (obstacle.suffix(), obstacle.reason());
            let _ = print_explanation(rt.alloc(), path, suffix, reason, &mut errors);
            ProgramFault::Command(CommandFault::Write)
        }
    }
}

/// Prints why the file is refused, and returns the status, unless a device or an allocation failed.
pub(crate) fn refuse_file<K: Sink>(
    alloc: Global,
    error: FileError,
    sink: &mut K,
) -> Result<u8, CommandFault> {
    match device_fault(error) {
        Some(fault) => Err(fault),
        None => print_file_refusal(alloc, error, sink),
    }
}

/// Prints why the file is not published, and returns the status, unless a device or an allocation failed.
pub(crate) fn refuse_start<K: Sink>(
    alloc: Global,
    error: StartError,
    sink: &mut K,
) -> Result<u8, CommandFault> {
    match error {
        StartError::Open(error) => refuse_file(alloc, load_error(error), sink),
        // The limit of an order is in range.
        StartError::Limit | StartError::Memory => Err(CommandFault::Memory),
    }
}

/// Prints the refusal of this name, and returns the status.
pub(crate) fn refuse<K: Sink>(
    alloc: Global,
    name: &[u8],
    sink: &mut K,
) -> Result<u8, CommandFault> {
    let mut text = Vec::new(alloc);
    push_refused(&mut text, &[Word::Text(name)])?;
    send(sink, &mut text)?;
    Ok(REFUSED)
}
