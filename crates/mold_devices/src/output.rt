//! Text output in large writes.

ghost use Rattle.std.specs.Prelude.{◌≡◌, ◌<◌, [], length, take, OnErr, OnOk, IfErr};
ghost use Rattle.std.specs.Io.KnownBytes.{Appends};
ghost use Rattle.mold_devices.specs.Devices.{AppendsPrefix, Counts};
ghost use Rattle.mold_devices.specs.Writing.{EndsWith, Moves};
ghost use Rattle.mold_devices.specs.declared.output.TheConstants.{LARGE};

use crate::fault::CommandFault;
use crate::sink::{Sink, write_all};

/// The length in bytes from which buffered text is written to the sink.
pub const LARGE: usize = 65536;

/// Writes the text to the sink and empties the text. After a fault, a prefix of the text is written and `text` is
/// unchanged.
pub fn send<K: Sink>(sink: &mut K, text: &mut Vec<u8>) -> Result<(), CommandFault>
    ensures whole { OnOk result (Appends (K.held sink.old) (K.held sink.new) text.old.items) }
    ensures empty { OnOk result (text.new.items ≡ []) }
    ensures kept { OnErr result (text.new.items ≡ text.old.items) }
    ensures front { AppendsPrefix (K.held sink.old) (K.held sink.new) text.old.items }
    ensures fault { IfErr result (λ fault. fault ≡ CommandFault.Write) }
    ensures failures { Counts (K.failed sink.old) (K.failed sink.new) result }
    ensures live { K.live sink.new ≡ K.live sink.old }
{
    let Ok(()) = write_all(sink, text.as_slice()) else {
        return Err(CommandFault::Write);
    };
    text.clear();
    Ok(())
}

/// Writes and empties the text if it has at least 65,536 bytes, and otherwise does nothing. After a fault, a prefix of
/// the text is written, and `text` is unchanged.
pub fn send_large<K: Sink>(sink: &mut K, text: &mut Vec<u8>) -> Result<(), CommandFault>
    ensures moved { OnOk result (Moves (K.held sink.old) (K.held sink.new) text.old.items text.new.items) }
    ensures short { OnOk result (length text.new.items < LARGE) }
    ensures kept { OnErr result (text.new.items ≡ text.old.items) }
    ensures front { AppendsPrefix (K.held sink.old) (K.held sink.new) text.old.items }
    ensures fault { IfErr result (λ fault. fault ≡ CommandFault.Write) }
    ensures failures { Counts (K.failed sink.old) (K.failed sink.new) result }
    ensures live { K.live sink.new ≡ K.live sink.old }
{
    if text.len() < LARGE {
        return Ok(());
    }
    send(sink, text)
}

/// Ends a command that met the fault `met`: writes the first `len` bytes of the text and drops the others. Returns
/// the fault that the command ends with: `met`, or `Write` if the write fails.
pub fn end_with<K: Sink>(
    sink: &mut K,
    text: &mut Vec<u8>,
    len: usize,
    met: CommandFault,
) -> CommandFault
    ensures ends { EndsWith met result (K.held sink.old) (K.held sink.new) (take len text.old.items)
        (K.failed sink.old) (K.failed sink.new) }
    ensures live { K.live sink.new ≡ K.live sink.old }
{
    text.truncate(len);
    match send(sink, text) {
        Ok(()) => met,
        Err(fault) => fault,
    }
}
