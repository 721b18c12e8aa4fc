//! The end of a loop whose journal has an error.

ghost use Rattle.std.specs.Prelude.{◌≡◌, ◌++◌, None, Some, take, IfErr, IfOk, IsErrAnd, OnOk};
ghost use Rattle.std.specs.Io.KnownBytes.{Appends};
ghost use Rattle.mold_devices.specs.Faults.{CountsSink};
ghost use Rattle.mold_devices.specs.Writing.{EndsWith};
ghost use Rattle.mold_refusals.specs.Words.{file_fault_words};
ghost use Rattle.mold_serve.specs.FileError.{device_fault};
ghost use Rattle.mold_text.specs.Text.{refused_line};

use mold_devices::{CommandFault, Sink};
use mold_refusals::push_file_refusal;
use mold_session::FileError;
use mold_turns::Outgoing;

/// Returns the fault if a call or an allocation failed, and `None` for an error of the bytes.
pub fn device_fault(error: FileError) -> Option<CommandFault>
    ensures { result ≡ device_fault error }
{
    match error {
        FileError::Read => Some(CommandFault::Read),
        FileError::Write => Some(CommandFault::Write),
        FileError::Memory => Some(CommandFault::Memory),
        _ => None,
    }
}

/// Ends a loop because of an error of its journal's file. Writes the first `told` bytes of the text, which earlier
/// turns printed, and drops the others. If a call or an allocation failed, it is the fault. Otherwise the line of the
/// error follows that text, and the status is returned, which is 2.
pub fn end_refused<K: Sink>(
    outgoing: &mut Outgoing,
    told: usize,
    error: FileError,
    sink: &mut K,
) -> Result<u8, CommandFault>
    ensures met { (met : CommandFault) → device_fault error ≡ Some met → IsErrAnd result (λ fault.
        EndsWith met fault (K.held sink.old) (K.held sink.new) (take told outgoing.old.text)
        (K.failed sink.old) (K.failed sink.new)) }
    ensures refused { OnOk result (device_fault error ≡ None) }
    ensures line { OnOk result (Appends (K.held sink.old) (K.held sink.new)
        (take told outgoing.old.text ++ refused_line (file_fault_words error))) }
    ensures status { IfOk result (λ status. status ≡ 2) }
    ensures kept { IfErr result (λ fault. fault ≡ CommandFault.Memory →
        Appends (K.held sink.old) (K.held sink.new) (take told outgoing.old.text)) }
    ensures sink { device_fault error ≡ None → CountsSink (K.failed sink.old) (K.failed sink.new) result }
    ensures live { K.live sink.new ≡ K.live sink.old }
{
    if let Some(fault) = device_fault(error) {
        return Err(outgoing.end_with(told, fault, sink));
    }
    outgoing.text.truncate(told);
    let kept = outgoing.unwritten();
    let Ok(()) = push_file_refusal(&mut outgoing.text, error) else {
        return Err(outgoing.end_with(kept, CommandFault::Memory, sink));
    };
    outgoing.send(sink)?;
    Ok(2)
}
