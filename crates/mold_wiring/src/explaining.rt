//! Explains a fault that is about a file.

ghost use Rattle.std.specs.Prelude.{◌≡◌, ◌++◌, IfErr, IfOk, OnOk};
ghost use Rattle.std.specs.Io.KnownBytes.{Appends};
ghost use Rattle.mold_devices.specs.Devices.{AppendsPrefix};
ghost use Rattle.mold_devices.specs.Faults.{CountsSink};
ghost use Rattle.mold_wiring.specs.Explaining.{explanation_line};

use mold_devices::{CommandFault, Sink, send};
use std::alloc::{AllocError, Global};

// Returns the line of an explanation.
fn explanation(alloc: Global, path: &str, suffix: &str, reason: &str) -> Result<Vec<u8>, AllocError>
    ensures { IfOk result (λ line. line.items ≡ explanation_line (path.now ++ suffix.now) reason.now) }
{
    let mut line = Vec::new(alloc);
    line.extend_from_slice(b"error: ")?;
    line.extend_from_slice(path.as_bytes())?;
    line.extend_from_slice(suffix.as_bytes())?;
    line.extend_from_slice(b": ")?;
    line.extend_from_slice(reason.as_bytes())?;
    line.extend_from_slice(b"\n")?;
    Ok(line)
}

/// Prints why a command ends with a fault, on a sink that is standard error. The fault is about the file whose name is
/// `path` and then `suffix`.
pub fn print_explanation<K: Sink>(
    alloc: Global,
    path: &str,
    suffix: &str,
    reason: &str,
    sink: &mut K,
) -> Result<(), CommandFault>
    ensures told { OnOk result
        (Appends (K.held sink.old) (K.held sink.new) (explanation_line (path.now ++ suffix.now) reason.now)) }
    ensures front { AppendsPrefix (K.held sink.old) (K.held sink.new)
        (explanation_line (path.now ++ suffix.now) reason.now) }
    ensures nothing { IfErr result (λ fault. fault ≡ CommandFault.Memory → sink.new ≡ sink.old) }
    ensures sink { CountsSink (K.failed sink.old) (K.failed sink.new) result }
{
    let mut line = explanation(alloc, path, suffix, reason)?;
    send(sink, &mut line)
}
