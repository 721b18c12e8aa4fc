//! Commands that read the parts of an input, such as lines, and write text to a sink.

ghost use Rattle.std.specs.Prelude.{◌≡◌, ◌<◌, length, take, IfOk, IfSome, OnErr};
ghost use Rattle.std.specs.Io.KnownBytes.{Appends, prepend_known};
ghost use Rattle.mold_devices.specs.Devices.{AppendsPrefix};
ghost use Rattle.mold_devices.specs.Faults.{CountsRead, CountsCommand};
ghost use Rattle.mold_devices.specs.Lines.{work_left};
ghost use Rattle.mold_devices.specs.Turns.{IsTurn, Printing};
ghost use Rattle.mold_devices.specs.declared.turn.Turn.TheVariants.{More};

use crate::fault::{CommandFault, ReadFault};
use crate::input_reader::InputReader;
use crate::output::{LARGE, send};
use crate::sink::Sink;
use crate::source::Source;
use crate::turn::Turn;
use std::alloc::Global;

/// A command that writes text for the parts of its input.
pub trait LineCommand {
    /// The reader that splits the input into parts.
    type Reader: InputReader;

    // The text that it writes for the remaining input, and the status that it ends with.
    ghost prints: { Self → Printing };

    /// Runs one turn: reads the next part or parts of the input and appends the text for them to `out`.
    fn turn<S: Source>(
        &mut self,
        reader: &mut Self::Reader,
        source: &mut S,
        out: &mut Vec<u8>,
    ) -> Result<Turn, ReadFault>
        ensures told { IfOk result (λ turn. IsTurn (prints self.old) (prints self.new)
            (prepend_known (Self.Reader.unread reader.old) (S.left source.old))
            (prepend_known (Self.Reader.unread reader.new) (S.left source.new)) out.old.items out.new.items turn) }
        ensures kept { OnErr result (take (length out.old.items) out.new.items ≡ out.old.items) }
        ensures work { IfOk result (λ turn. turn ≡ More →
            work_left (S.bound source.new) (Self.Reader.unread reader.new)
            < work_left (S.bound source.old) (Self.Reader.unread reader.old)) }
        ensures failures { CountsRead (S.failed source.old) (S.failed source.new) result };
}

/// Runs the command over the whole input and returns its status. Of the input, it holds only the bytes of one read,
/// the current part and what the command keeps. It writes the text in pieces of at least 65,536
/// bytes, and the rest at the end. After a fault of reading or of memory, it still writes the text of the
/// earlier turns. If that write fails, the fault is `Write`.
pub fn run_lines<C: LineCommand, S: Source, K: Sink>(
    alloc: Global,
    command: &mut C,
    source: &mut S,
    sink: &mut K,
) -> Result<u8, CommandFault>
    ensures whole { IfOk result (λ status. IfSome (S.left source.old) (λ input.
        Appends (K.held sink.old) (K.held sink.new) ((C.prints command.old).text input)
        × (status ≡ (C.prints command.old).status input))) }
    ensures front { IfSome (S.left source.old) (λ input.
        AppendsPrefix (K.held sink.old) (K.held sink.new) ((C.prints command.old).text input)) }
    ensures failures { CountsCommand (S.failed source.old) (S.failed source.new)
        (K.failed sink.old) (K.failed sink.new) result }
{
    let mut reader = <C::Reader as InputReader>::new(alloc)?;
    let mut text = Vec::new(alloc);
    'turns: loop {
        let told = text.len();
        match command.turn(&mut reader, source, &mut text) {
            Ok(Turn::More) => {}
            Ok(Turn::Done { status }) => {
                send(sink, &mut text)?;
                return Ok(status);
            }
            Err(fault) => {
                text.truncate(told);
                send(sink, &mut text)?;
                return Err(fault.into());
            }
        }
        if text.len() >= LARGE {
            send(sink, &mut text)?;
        }
    }
}
