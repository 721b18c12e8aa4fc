//! `mold upgrade`: writes a journal file again in version 2 of the format.

ghost use Rattle.std.specs.Prelude.{◌≡◌, ◌++◌, IfOk, Ok, OnOk, Result};
ghost use Rattle.mold_commands.specs.Upgrade.{IsUpgradeOutcome, PrintsOutcome, PrintsUpgrade, fault_of, upgrade_status};
ghost use Rattle.mold_commands.specs.Upgrade.{upgrade_text};
ghost use Rattle.mold_session.specs.declared.error.FileError.{FileError};
ghost use Rattle.mold_session.specs.declared.upgrading.Upgraded.{Upgraded};

use mold_devices::{CommandFault, Sink, Source, send};
use mold_refusals::push_file_refusal;
use mold_session::{FileError, Upgraded, upgrade};
use mold_text::{Word, push_line};
use std::alloc::{AllocError, Global};

// Appends the line that reports what was upgraded.
fn push_upgraded(out: &mut Vec<u8>, upgraded: Upgraded) -> Result<(), AllocError>
    ensures text { OnOk result (out.new.items ≡ out.old.items ++ upgrade_text (Ok upgraded)) }
{
    let state = if upgraded.closed {
        Word::Text(b"closed")
    } else {
        Word::Text(b"open")
    };
    push_line(
        out,
        &[
            Word::Text(b"upgraded"),
            Word::Number(upgraded.messages),
            state,
        ],
    )
}

// Appends the line that reports an outcome, and returns its status.
fn push_outcome(out: &mut Vec<u8>, outcome: Result<Upgraded, FileError>) -> Result<u8, AllocError>
    ensures text { OnOk result (out.new.items ≡ out.old.items ++ upgrade_text outcome) }
    ensures status { IfOk result (λ status. status ≡ upgrade_status outcome) }
{
    match outcome {
        Ok(upgraded) => {
            push_upgraded(out, upgraded)?;
            Ok(0)
        }
        Err(error) => {
            push_file_refusal(out, error)?;
            Ok(2)
        }
    }
}

// Prints the line that reports an outcome, and returns its status.
fn print_upgraded<K: Sink>(
    alloc: Global,
    outcome: Result<Upgraded, FileError>,
    sink: &mut K,
) -> Result<u8, CommandFault>
    ensures { PrintsOutcome K.held K.failed sink.old sink.new outcome result }
{
    let mut text = Vec::new(alloc);
    let Ok(status) = push_outcome(&mut text, outcome) else {
        return Err(CommandFault::Memory);
    };
    let Ok(()) = send(sink, &mut text) else {
        return Err(CommandFault::Write);
    };
    Ok(status)
}

// Returns the device or memory fault that an upgrade ended with, if any.
fn device_fault(outcome: Result<Upgraded, FileError>) -> Option<CommandFault>
    ensures { result ≡ fault_of outcome }
{
    match outcome {
        Err(FileError::Read) => Some(CommandFault::Read),
        Err(FileError::Write) => Some(CommandFault::Write),
        Err(FileError::Memory) => Some(CommandFault::Memory),
        _ => None,
    }
}

/// Reads a journal file from the source, writes it to `journal` in version 2, and prints the outcome of `upgrade` to
/// the sink. Returns the status: 0, or 2 if the file is refused. If `close` is true, the new journal is closed even if
/// the old one is open.
///
/// A fault of the source, of `journal` or of memory within `upgrade` is returned, and nothing is printed. A fault
/// while the outcome is printed leaves `journal` as `upgrade` left it.
pub fn run_upgrade<S: Source, J: Sink, K: Sink>(
    alloc: Global,
    source: &mut S,
    journal: &mut J,
    close: bool,
    sink: &mut K,
) -> Result<u8, CommandFault>
    ensures told { (outcome : Result Upgraded FileError)
        × IsUpgradeOutcome (S.left source.old) (S.failed source.old) (S.failed source.new)
        J.held J.failed journal.old journal.new close outcome
        × PrintsUpgrade K.held K.failed sink.old sink.new outcome result }
{
    let outcome = upgrade(alloc, source, journal, close);
    match device_fault(outcome) {
        Some(fault) => Err(fault),
        None => print_upgraded(alloc, outcome, sink),
    }
}
