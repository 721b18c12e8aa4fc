//! An output whose reader has closed it.

use libc::EPIPE;
use mold_devices::{CommandFault, Sink};
use mold_wiring::{ProgramFault, exit_code};
use os::errno;
use std::process::ExitCode;

/// The status of the program if a fault ended the command.
const FAULT: u8 = 3;

/// Returns the status of the program right after its command has ended. It prints the line of a fault, except for a
/// write to a pipe that nobody reads any more: its reader, such as `head`, has ended on purpose.
pub(crate) fn status_of<K: Sink>(errors: &mut K, outcome: Result<u8, ProgramFault>) -> ExitCode {
    match outcome {
        // No call has failed since the write, so this is its error.
        Err(ProgramFault::Command(CommandFault::Write)) if errno() == EPIPE => {
            ExitCode::from(FAULT)
        }
        _ => exit_code(errors, outcome),
    }
}
