//! `mold pack --journal`: saves the messages of an input as a closed journal, and prints no packets.

ghost use Rattle.std.specs.Prelude.{◌≡◌, true, IfErr, IfOk, IfSome, Ok, OnErr, OnOk, Result};
ghost use Rattle.mold_devices.specs.Devices.{Counts};
ghost use Rattle.mold_devices.specs.Faults.{CountsRead};
ghost use Rattle.mold_devices.specs.declared.fault.CommandFault.{CommandFault};
ghost use Rattle.mold_input.specs.Entries.{known_input};
ghost use Rattle.mold_publish.specs.Publishing.{entry_outcome, input_published};
ghost use Rattle.mold_session.specs.File.{AppendsFile, AppendsFilePrefix};
ghost use Rattle.mold_session.specs.Publisher.{fresh_publisher};
ghost use Rattle.mold_show.specs.PackJournal.{AppendsEntry, CountsSaving, EndsSaving, FailsToSave, PrintsLine};
ghost use Rattle.mold_show.specs.PackJournal.{PrintsSaved, SavesInput};
ghost use Rattle.mold_show.specs.declared.save_outcome.SaveOutcome.{SaveOutcome};

use crate::pack_options::PackOptions;
use crate::save_outcome::{SaveOutcome, push_outcome};
use mold_devices::{CommandFault, ReadFault, Sink, Source, send};
use mold_input::{InputKind, MessageReader, Next};
use mold_publish::{MessageRefusal, RefusalReason};
use mold_session::{AppendError, Journal};
use mold_wire::MESSAGE_OVERHEAD;
use std::alloc::{AllocError, Global};

// Appends a message of an input of this kind. Returns the refusal if the journal refuses it. An error means out of
// memory; nothing was then appended.
fn append_message(
    journal: &mut Journal,
    kind: InputKind,
    message: &[u8],
) -> Result<Option<MessageRefusal>, AllocError>
    ensures { IfOk result
        (AppendsEntry journal.old journal.new (entry_outcome kind journal.old (Ok message.now))) }
{
    match journal.append(message) {
        Ok(_) => Ok(None),
        Err(AppendError::Memory) => Err(AllocError),
        Err(why) => {
            let why = RefusalReason::NotTaken(why);
            Ok(Some(MessageRefusal { kind, why }))
        }
    }
}

// Appends the messages of the source one by one, until the input ends or an entry is refused. Returns the refusal.
fn append_messages<M: MessageReader, S: Source>(
    alloc: Global,
    journal: &mut Journal,
    source: &mut S,
) -> Result<Option<MessageRefusal>, ReadFault>
    ensures input { IfOk result (λ refused.
        IfSome (known_input M.input_kind M.entries (S.left source.old)) (λ input.
        input_published journal.old input ≡ record { journal = journal.new; refused = refused })) }
    ensures failures { CountsRead (S.failed source.old) (S.failed source.new) result }
{
    let kind = M::kind();
    let mut messages = M::new(alloc)?;
    'messages: loop {
        match messages.advance(source)? {
            Next::Message => {}
            Next::Fault { why } => {
                let why = RefusalReason::from_fault(why, journal.is_closed());
                return Ok(Some(MessageRefusal { kind, why }));
            }
            Next::End => return Ok(None),
        }
        if let Some(refusal) = append_message(journal, kind, messages.message())? {
            return Ok(Some(refusal));
        }
    }
}

// Closes the journal and writes its file.
fn save_closed<J: Sink>(journal: &mut Journal, file: &mut J) -> Result<(), CommandFault>
    ensures whole { OnOk result (AppendsFile (J.held file.old) (J.held file.new)
        journal.old.session journal.old.messages true) }
    ensures front { OnErr result (AppendsFilePrefix (J.held file.old) (J.held file.new)
        journal.old.session journal.old.messages true) }
    ensures same { journal.new ≡ record journal.old { closed = true } }
    ensures fault { IfErr result (λ fault. fault ≡ CommandFault.Write) }
    ensures failures { Counts (J.failed file.old) (J.failed file.new) result }
{
    journal.close();
    match journal.save(file) {
        Ok(()) => Ok(()),
        Err(_) => Err(CommandFault::Write),
    }
}

// Reads the messages of the source, which `M` reads, and saves them as a closed journal in the file. If an entry is
// refused, the file is not written.
fn save_messages<M: MessageReader, S: Source, J: Sink>(
    alloc: Global,
    options: PackOptions,
    source: &mut S,
    file: &mut J,
) -> Result<SaveOutcome, CommandFault>
    ensures whole { IfOk result (SavesInput (fresh_publisher options.session options.limit).journal
        (known_input M.input_kind M.entries (S.left source.old)) J.held file.old file.new) }
    ensures fails { IfErr result (FailsToSave (fresh_publisher options.session options.limit).journal
        (known_input M.input_kind M.entries (S.left source.old)) J.held file.old file.new) }
    ensures counts { CountsSaving (S.failed source.old) (S.failed source.new)
        (J.failed file.old) (J.failed file.new) result }
{
    let max_message = (options.limit - MESSAGE_OVERHEAD) as u16;
    let mut journal = Journal::new(alloc, options.session, max_message);
    match append_messages::<M, S>(alloc, &mut journal, source)? {
        Some(refusal) => Ok(SaveOutcome::Refused {
            number: journal.next(),
            refusal,
        }),
        None => {
            save_closed(&mut journal, file)?;
            Ok(SaveOutcome::Saved {
                messages: journal.next() - 1,
            })
        }
    }
}

// Prints the line that reports an outcome, and returns its status.
fn print_outcome<K: Sink>(
    alloc: Global,
    outcome: SaveOutcome,
    sink: &mut K,
) -> Result<u8, CommandFault>
    ensures { PrintsLine K.held K.failed sink.old sink.new outcome result }
{
    let mut text = Vec::new(alloc);
    let Ok(status) = push_outcome(&mut text, outcome) else {
        return Err(CommandFault::Memory);
    };
    let Ok(()) = send(sink, &mut text) else {
        return Err(CommandFault::Write);
    };
    Ok(status)
}

/// Saves the messages of the source, which `M` reads, as a closed journal in `file`, in version 2. Then it prints the
/// number of messages and returns the status 0. The file is the one that publishing the input saves.
///
/// If an entry is refused, nothing is written to `file`. The line of the refusal is printed, and the status is 2.
///
/// A fault of the source, of `file` or of memory is returned, and nothing is printed. A fault while the line is printed
/// leaves `file` as it is.
pub fn pack_into_journal<M: MessageReader, S: Source, J: Sink, K: Sink>(
    alloc: Global,
    options: PackOptions,
    source: &mut S,
    file: &mut J,
    sink: &mut K,
) -> Result<u8, CommandFault>
    ensures packed { (outcome : Result SaveOutcome CommandFault)
        × EndsSaving (fresh_publisher options.session options.limit).journal
        (known_input M.input_kind M.entries (S.left source.old)) (S.failed source.old) (S.failed source.new)
        J.held J.failed file.old file.new outcome
        × PrintsSaved K.held K.failed sink.old sink.new outcome result }
{
    let outcome = save_messages::<M, S, J>(alloc, options, source, file)?;
    print_outcome(alloc, outcome, sink)
}
