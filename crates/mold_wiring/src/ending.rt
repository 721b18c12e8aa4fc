//! How a command ends: its output is flushed, and its status or fault becomes the status of the program.

ghost use Rattle.std.specs.Prelude.{◌≡◌, IfErr, OnOk};
ghost use Rattle.std.specs.Process.{exit_status};
ghost use Rattle.mold_wiring.specs.Ending.{AppendsUnlessFailed, fault_line, flushed, program_fault_word};
ghost use Rattle.mold_wiring.specs.Ending.{program_status};

use crate::program_fault::ProgramFault;
use mold_devices::{CommandFault, Sink, write_all};
use std::io;
use std::process::ExitCode;

/// The status of the program if a fault ended the command.
const FAULT: u8 = 3;

/// Returns the outcome of a command after its output was flushed. A failed flush is the fault `Write`, unless the
/// command had failed before.
pub fn flushed(outcome: Result<u8, CommandFault>, flush: io::Result<()>) -> Result<u8, CommandFault>
    ensures { result ≡ flushed outcome flush }
{
    let status = outcome?;
    match flush {
        Ok(()) => Ok(status),
        Err(_) => Err(CommandFault::Write),
    }
}

// The line that is printed for the fault.
fn line(fault: ProgramFault) -> &'static str
    ensures { result.now ≡ fault_line (program_fault_word fault) }
{
    match fault {
        ProgramFault::Command(CommandFault::Read) => "fault Read\n",
        ProgramFault::Command(CommandFault::Write) => "fault Write\n",
        ProgramFault::Command(CommandFault::Memory) => "fault Memory\n",
        ProgramFault::Socket => "fault Socket\n",
        ProgramFault::Locked => "fault Locked\n",
    }
}

/// Prints the line of a fault on the sink, which is standard error, in one write, and returns the program's status,
/// which is 3. A sink that fails is ignored. Nothing is allocated, since memory may be short.
pub fn print_fault<K: Sink>(sink: &mut K, line: &str) -> ExitCode
    ensures status { exit_status result ≡ 3 }
    ensures told { AppendsUnlessFailed (K.failed sink.old) (K.failed sink.new)
        (K.held sink.old) (K.held sink.new) line.now }
{
    let _ = write_all(sink, line.as_bytes());
    ExitCode::from(FAULT)
}

/// Returns the status of the program. If a fault ended the command, its line is printed on the sink, which is standard
/// error.
pub fn exit_code<K: Sink>(sink: &mut K, outcome: Result<u8, ProgramFault>) -> ExitCode
    ensures status { exit_status result ≡ program_status outcome }
    ensures silent { OnOk outcome (sink.new ≡ sink.old) }
    ensures told { IfErr outcome (λ fault. AppendsUnlessFailed (K.failed sink.old) (K.failed sink.new)
        (K.held sink.old) (K.held sink.new) (fault_line (program_fault_word fault))) }
{
    match outcome {
        Ok(status) => ExitCode::from(status),
        Err(fault) => print_fault(sink, line(fault)),
    }
}
