//! The parts of the command `serve`: the journal, which is loaded from a file, and the server.

ghost use Rattle.mold_wire.specs.declared.limits.TheConstants.{MESSAGE_OVERHEAD};
ghost use Rattle.std.specs.Prelude.{◌≡◌, ◌-◌, ℕ, IfErr, IfOk, IfSome, List, Option};
ghost use Rattle.std.specs.Io.KnownBytes.{Appends};
ghost use Rattle.mold_devices.specs.Devices.{AppendsPrefix};
ghost use Rattle.mold_refusals.specs.Words.{file_fault_words};
ghost use Rattle.mold_text.specs.Text.{refused_line};
ghost use Rattle.mold_devices.specs.Faults.{CountsSink};
ghost use Rattle.mold_session.specs.FileFault.{JournalFault};
ghost use Rattle.mold_session.specs.Loading.{CountsLoadFault, Refuses};
ghost use Rattle.mold_wiring.specs.File.{CountsSource, IsAtFault, SpellsFile};
ghost use Rattle.mold_wiring.specs.Wiring.{server_of};

use crate::limits::longest_message;
use mold_devices::{CommandFault, Sink, Source, send};
use mold_refusals::push_file_refusal;
use mold_session::{FileError, Journal, Server};
use mold_words::ServeOrder;
use std::alloc::{AllocError, Global};

// Returns the error of a file, or the fault if a read or an allocation failed.
fn refusal_of(error: FileError) -> Result<FileError, CommandFault>
    ensures refused { (most : ℕ) (known : Option (List ℕ)) → Refuses (JournalFault most) known error →
        IfOk result (IsAtFault most known) }
    ensures failures { (old new : ℕ) → CountsLoadFault old new error → CountsSource old new result }
{
    match error {
        FileError::Read => Err(CommandFault::Read),
        FileError::Memory => Err(CommandFault::Memory),
        _ => Ok(error),
    }
}

/// Loads the journal from a file, or returns why the file is not a journal. Its messages must fit packets of the
/// order's limit. A failed read and a failed allocation are faults, not file errors.
pub fn load_journal<S: Source>(
    alloc: Global,
    order: &ServeOrder,
    source: &mut S,
) -> Result<Result<Journal, FileError>, CommandFault>
    ensures longest { IfOk result (λ loaded. IfOk loaded (λ journal.
        journal.max_message ≡ order.now.limit - MESSAGE_OVERHEAD)) }
    ensures whole { IfOk result (λ loaded. IfOk loaded (λ journal. IfSome (S.left source.old) (SpellsFile journal))) }
    ensures refused { IfOk result (λ loaded.
        IfErr loaded (IsAtFault (order.now.limit - MESSAGE_OVERHEAD) (S.left source.old))) }
    ensures failures { CountsSource (S.failed source.old) (S.failed source.new) result }
{
    match Journal::load(alloc, longest_message(order.limit), source) {
        Ok(journal) => Ok(Ok(journal)),
        Err(error) => match refusal_of(error) {
            Ok(error) => Ok(Err(error)),
            Err(fault) => Err(fault),
        },
    }
}

/// Prints why a file is not a journal, and returns the status, which is 2.
pub fn print_file_refusal<K: Sink>(
    alloc: Global,
    error: FileError,
    sink: &mut K,
) -> Result<u8, CommandFault>
    ensures told { IfOk result (λ status.
        Appends (K.held sink.old) (K.held sink.new) (refused_line (file_fault_words error)) × (status ≡ 2)) }
    ensures front { AppendsPrefix (K.held sink.old) (K.held sink.new) (refused_line (file_fault_words error)) }
    ensures nothing { IfErr result (λ fault. fault ≡ CommandFault.Memory → sink.new ≡ sink.old) }
    ensures sink { CountsSink (K.failed sink.old) (K.failed sink.new) result }
{
    let mut text = Vec::new(alloc);
    push_file_refusal(&mut text, error)?;
    send(sink, &mut text)?;
    Ok(2)
}

/// Returns the server that the order asks for. The numbers of an order are in range, so an error means out of memory.
pub fn make_server(alloc: Global, order: &ServeOrder) -> Result<Server, AllocError>
    ensures { IfOk result (λ server. server ≡ server_of order.now) }
{
    let longest = longest_message(order.limit);
    match Server::new(alloc, order.limit, longest, order.burst) {
        Ok(server) => Ok(server),
        Err(_) => Err(AllocError),
    }
}
