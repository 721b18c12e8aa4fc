//! `mold dump`: writes the messages of a journal's file as lines of hexadecimal digits or as message blocks.

ghost use Rattle.std.specs.Prelude.{◌≡◌, ◌<◌, ◌++◌, ◌∷◌, ◌⊎◌, ℕ, [], length, take, IfErr, IfOk, IfSome, IsErr};
ghost use Rattle.std.specs.Prelude.{OnErr, OnOk, None, Some};
ghost use Rattle.std.specs.Bool.{OnFalse, OnTrue};
ghost use Rattle.std.specs.Io.KnownBytes.{Appends, prepend_known};
ghost use Rattle.mold_devices.specs.Devices.{AppendsPrefix};
ghost use Rattle.mold_devices.specs.Faults.{CountsCommand, CountsFault};
ghost use Rattle.mold_session.specs.Contents.{FileContents};
ghost use Rattle.mold_session.specs.Loading.{work_left};
ghost use Rattle.mold_session.specs.Reader.{EndsWith, ReadsNext, TakesBlocks};
ghost use Rattle.mold_show.specs.Dump.{CountsDump, CountsEither, CountsEnd, CountsNext, HasContents, IsTold, PassesNext};
ghost use Rattle.mold_show.specs.Dump.{RefusesNext, blocks_left};
ghost use Rattle.mold_show.specs.Dump.{dump_errors, dump_fault_words, dump_status, dump_text, ended_errors, ended_line};
ghost use Rattle.mold_show.specs.Dump.{ended_text, fault_status, has_unprintable, is_dumped, is_to_last, last_text};
ghost use Rattle.mold_show.specs.Dump.{message_text, next_text, reaches_end};
ghost use Rattle.mold_show.specs.declared.dump_fault.DumpFault.TheVariants.{File};
ghost use Rattle.mold_text.specs.Text.{refused_line};
ghost use Rattle.mold_wire.specs.Block.{be16, block};

use crate::dump_fault::{DumpFault, push_dump_fault};
use crate::dump_options::DumpOptions;
use mold_devices::{CommandFault, Sink, Source, send, send_large};
use mold_input::MessageFormat;
use mold_session::laws::{contents_law, one_file_law, reader_law};
use mold_session::{FileError, JournalReader};
use mold_text::{Word, push_line};
use std::alloc::{AllocError, Global};

/// Whether the message that follows `before` others is asked for.
pub(crate) fn is_dumped(options: DumpOptions, before: u64) -> bool
    ensures { result ≡ is_dumped options before }
{
    let skipped = options.from.saturating_sub(1);
    skipped <= before && before - skipped < options.count
}

// Whether the last one of `total` messages is asked for, or a range after it.
fn is_to_last(options: DumpOptions, total: u64) -> bool
    ensures { result ≡ is_to_last options total }
{
    total.saturating_sub(options.from.saturating_sub(1)) <= options.count
}

/// Whether the message cannot be printed: it is empty, and an empty block would mark the end.
pub(crate) fn is_unprintable(format: MessageFormat, message: &[u8]) -> bool
    ensures { result ≡ has_unprintable format (message.now ∷ []) }
{
    match format {
        MessageFormat::Lines | MessageFormat::Blocks => false,
        MessageFormat::BlocksToEmpty => message.is_empty(),
    }
}

// The length field of a message's block.
fn length_of(message: &[u8]) -> [u8; 2]
    ensures { result ≡ be16 (length message.now) }
{
    let len = message.len();
    [(len / 256 % 256) as u8, (len % 256) as u8]
}

// Appends the block of a message. If an allocation fails, a part of the block may follow the earlier text.
fn push_block(text: &mut Vec<u8>, message: &[u8]) -> Result<(), AllocError>
    ensures block { OnOk result (text.new.items ≡ text.old.items ++ block message.now) }
    ensures kept { OnErr result (take (length text.old.items) text.new.items ≡ text.old.items) }
{
    text.extend_from_slice(&length_of(message))?;
    text.extend_from_slice(message)
}

// Appends a message in the format. If an allocation fails, a part of it may follow the earlier text.
fn push_text(text: &mut Vec<u8>, format: MessageFormat, message: &[u8]) -> Result<(), AllocError>
    ensures message { OnOk result (text.new.items ≡ text.old.items ++ message_text format message.now) }
    ensures kept { OnErr result (take (length text.old.items) text.new.items ≡ text.old.items) }
{
    match format {
        MessageFormat::Lines => push_line(text, &[Word::Digits(message)]),
        MessageFormat::Blocks | MessageFormat::BlocksToEmpty => push_block(text, message),
    }
}

/// Appends a message in the format. If an allocation fails, which is the only error, the text is unchanged.
pub(crate) fn push_message(
    text: &mut Vec<u8>,
    format: MessageFormat,
    message: &[u8],
) -> Result<(), FileError>
    ensures message { OnOk result (text.new.items ≡ text.old.items ++ message_text format message.now) }
    ensures kept { OnErr result (text.new.items ≡ text.old.items) }
    ensures fault { IfErr result (λ error. error ≡ FileError.Memory) }
{
    let told = text.len();
    let Ok(()) = push_text(text, format, message) else {
        text.truncate(told);
        return Err(FileError::Memory);
    };
    Ok(())
}

/// Appends the mark of the end if a session of `total` messages is dumped to its end. If an allocation fails, which is
/// the only error, the text is unchanged.
pub fn push_end(
    text: &mut Vec<u8>,
    options: DumpOptions,
    closed: bool,
    total: u64,
) -> Result<(), FileError>
    ensures end { OnOk result (text.new.items
        ≡ text.old.items ++ last_text options.format None (reaches_end options closed total)) }
    ensures kept { OnErr result (text.new.items ≡ text.old.items) }
    ensures fault { IfErr result (λ error. error ≡ FileError.Memory) }
{
    match options.format {
        MessageFormat::BlocksToEmpty if closed && is_to_last(options, total) => {
            push_message(text, options.format, &[])
        }
        _ => Ok(()),
    }
}

// Reads the next message and appends it if it is asked for. If no message remains, it appends the mark of the end if
// that is to be written, and returns false.
fn dump_next<S: Source>(
    reader: &mut JournalReader,
    source: &mut S,
    options: DumpOptions,
    text: &mut Vec<u8>,
) -> Result<bool, DumpFault>
    ensures next { IfOk result (λ more. OnTrue more (ReadsNext
        (prepend_known reader.old.rest (S.left source.old))
        (prepend_known reader.new.rest (S.left source.new)) reader.old reader.new)) }
    ensures text { IfOk result (λ more. OnTrue more
        (text.new.items ≡ text.old.items ++ next_text options reader.old.count reader.new.message)) }
    ensures passes { IfOk result (λ more. OnTrue more (PassesNext options reader.old.count reader.new.message)) }
    ensures end { IfOk result (λ more. OnFalse more (EndsWith
        (prepend_known reader.old.rest (S.left source.old)) reader.old reader.new.head)) }
    ensures mark { IfOk result (λ more. OnFalse more (text.new.items ≡ text.old.items
        ++ last_text options.format None (reaches_end options reader.new.head.closed reader.old.count))) }
    ensures refused { IfErr result (λ fault. RefusesNext options
        (prepend_known reader.old.rest (S.left source.old))
        (prepend_known reader.new.rest (S.left source.new)) reader.old reader.new fault) }
    ensures kept { OnErr result (text.new.items ≡ text.old.items) }
    ensures work { IfOk result (λ more. OnTrue more
        (work_left (S.bound source.new) reader.new.rest < work_left (S.bound source.old) reader.old.rest)) }
    ensures failures { CountsNext (S.failed source.old) (S.failed source.new) result }
{
    let before = reader.count();
    if !reader.advance(source)? {
        push_end(text, options, reader.head().closed, before)?;
        return Ok(false);
    }
    if is_dumped(options, before) {
        if is_unprintable(options.format, reader.message()) {
            return Err(DumpFault::Empty {
                number: reader.count(),
            });
        }
        push_message(text, options.format, reader.message())?;
    }
    Ok(true)
}

// The maximum number of messages that may be appended as the blocks that the file has, after `before` messages.
fn blocks_left(options: DumpOptions, before: u64) -> u64
    ensures { result ≡ blocks_left options before }
{
    let skipped = options.from.saturating_sub(1);
    match options.format {
        MessageFormat::Blocks if skipped <= before => {
            options.count.saturating_sub(before - skipped)
        }
        _ => 0,
    }
}

// Appends the next blocks as the file has them, if the output has plain blocks and they are asked for. They are those
// that the last read got whole. If an allocation fails, nothing changes, and `dump_next` appends them one by one.
fn dump_blocks(reader: &mut JournalReader, options: DumpOptions, text: &mut Vec<u8>)
    ensures { TakesBlocks (blocks_left options reader.old.count) reader.old reader.new text.old.items text.new.items }
{
    reader.take_blocks(blocks_left(options, reader.count()), text);
}

// Sends the text and returns the fault that ended the command, or `Write` if the text could not be sent.
fn end_with<K: Sink>(
    text: &mut Vec<u8>,
    fault: CommandFault,
    sink: &mut K,
) -> Result<u8, CommandFault>
    ensures fails { IsErr result }
    ensures front { AppendsPrefix (K.held sink.old) (K.held sink.new) text.old.items }
    ensures kept { IfErr result (λ last. (last ≡ CommandFault.Write)
        ⊎ Appends (K.held sink.old) (K.held sink.new) text.old.items) }
    ensures failures { (old new : ℕ) → CountsFault old new (K.failed sink.old) (K.failed sink.old) fault →
        CountsCommand old new (K.failed sink.old) (K.failed sink.new) result }
{
    send(sink, text)?;
    Err(fault)
}

// Sends the text and a line with the fault, and returns the status.
fn print_refusal<K: Sink>(
    text: &mut Vec<u8>,
    fault: DumpFault,
    sink: &mut K,
) -> Result<u8, CommandFault>
    ensures whole { IfOk result (λ status. Appends (K.held sink.old) (K.held sink.new)
        (text.old.items ++ refused_line (dump_fault_words fault)) × (status ≡ 2)) }
    ensures front { AppendsPrefix (K.held sink.old) (K.held sink.new)
        (text.old.items ++ refused_line (dump_fault_words fault)) }
    ensures kept { IfErr result (λ last. (last ≡ CommandFault.Write)
        ⊎ Appends (K.held sink.old) (K.held sink.new) text.old.items) }
    ensures failures { (count : ℕ) → CountsCommand count count (K.failed sink.old) (K.failed sink.new) result }
{
    let told = text.len();
    let Ok(()) = push_dump_fault(text, fault) else {
        text.truncate(told);
        return end_with(text, CommandFault::Memory, sink);
    };
    send(sink, text)?;
    Ok(2)
}

// Sends the text and a line with the fault of the file. After a failed read or a failed allocation, it sends the text
// alone and returns the fault.
fn end_file<K: Sink>(text: &mut Vec<u8>, error: FileError, sink: &mut K) -> Result<u8, CommandFault>
    ensures whole { IfOk result (λ status. Appends (K.held sink.old) (K.held sink.new)
        (text.old.items ++ ended_line (Some (File error))) × (status ≡ 2)) }
    ensures told { OnOk result (IsTold (Some (File error))) }
    ensures front { AppendsPrefix (K.held sink.old) (K.held sink.new)
        (text.old.items ++ ended_line (Some (File error))) }
    ensures kept { IfErr result (λ last. (last ≡ CommandFault.Write)
        ⊎ Appends (K.held sink.old) (K.held sink.new) text.old.items) }
    ensures failures { (old new : ℕ) → CountsEnd old new (Some (File error)) →
        CountsCommand old new (K.failed sink.old) (K.failed sink.new) result }
{
    match error {
        FileError::Read => end_with(text, CommandFault::Read, sink),
        FileError::Memory => end_with(text, CommandFault::Memory, sink),
        _ => print_refusal(text, DumpFault::File(error), sink),
    }
}

// Sends the text and a line with the fault, unless that is a failed read or a failed allocation.
fn end_refused<K: Sink>(
    text: &mut Vec<u8>,
    fault: DumpFault,
    sink: &mut K,
) -> Result<u8, CommandFault>
    ensures whole { IfOk result (λ status. Appends (K.held sink.old) (K.held sink.new)
        (text.old.items ++ ended_line (Some fault)) × (status ≡ 2)) }
    ensures told { OnOk result (IsTold (Some fault)) }
    ensures front { AppendsPrefix (K.held sink.old) (K.held sink.new) (text.old.items ++ ended_line (Some fault)) }
    ensures kept { IfErr result (λ last. (last ≡ CommandFault.Write)
        ⊎ Appends (K.held sink.old) (K.held sink.new) text.old.items) }
    ensures failures { (old new : ℕ) → CountsEnd old new (Some fault) →
        CountsCommand old new (K.failed sink.old) (K.failed sink.new) result }
{
    match fault {
        DumpFault::Empty { .. } => print_refusal(text, fault, sink),
        DumpFault::File(error) => end_file(text, error, sink),
    }
}

// Sends the text, then a line that reports the fault of the dump, if there is one. Returns the status, or the fault
// that ended reading.
fn end_lines<K: Sink>(
    text: &mut Vec<u8>,
    ended: Option<DumpFault>,
    sink: &mut K,
) -> Result<u8, CommandFault>
    ensures whole { IfOk result (λ status. Appends (K.held sink.old) (K.held sink.new)
        (text.old.items ++ ended_line ended) × (status ≡ fault_status ended)) }
    ensures told { OnOk result (IsTold ended) }
    ensures front { AppendsPrefix (K.held sink.old) (K.held sink.new) (text.old.items ++ ended_line ended) }
    ensures kept { IfErr result (λ last. (last ≡ CommandFault.Write)
        ⊎ Appends (K.held sink.old) (K.held sink.new) text.old.items) }
    ensures failures { (old new : ℕ) → CountsEnd old new ended →
        CountsCommand old new (K.failed sink.old) (K.failed sink.new) result }
{
    match ended {
        None => {
            send(sink, text)?;
            Ok(0)
        }
        Some(fault) => end_refused(text, fault, sink),
    }
}

// Sends the text, then a line among the errors that reports the fault of the dump, if there is one. Returns the status,
// or the fault that ended reading.
#[tactic(auto, using(crate::proofs::EndLemmas::counts_unsent, crate::proofs::DumpLemmas::nothing_written))]
fn end_blocks<K: Sink, E: Sink>(
    text: &mut Vec<u8>,
    ended: Option<DumpFault>,
    sink: &mut K,
    errors: &mut E,
) -> Result<u8, CommandFault>
    ensures whole { IfOk result (λ status. Appends (K.held sink.old) (K.held sink.new) text.old.items
        × (status ≡ fault_status ended)) }
    ensures report { OnOk result (Appends (E.held errors.old) (E.held errors.new) (ended_line ended)) }
    ensures told { OnOk result (IsTold ended) }
    ensures front { AppendsPrefix (K.held sink.old) (K.held sink.new) text.old.items }
    ensures errors { AppendsPrefix (E.held errors.old) (E.held errors.new) (ended_line ended) }
    ensures kept { IfErr result (λ last. (last ≡ CommandFault.Write)
        ⊎ Appends (K.held sink.old) (K.held sink.new) text.old.items) }
    ensures failures { (old new : ℕ) → CountsEnd old new ended →
        CountsEither (old, new) (K.failed sink.old, K.failed sink.new)
        (E.failed errors.old, E.failed errors.new) result }
{
    let Ok(()) = send(sink, text) else {
        return Err(CommandFault::Write);
    };
    end_lines(text, ended, errors)
}

/// Sends the text, and reports the fault of the dump, if there is one: after the lines, or among the errors if the
/// output has blocks. Returns the status, which is 0 without a fault and otherwise 2. If the fault is that a read or an
/// allocation failed, it reports nothing and returns that fault.
pub fn end_dump<K: Sink, E: Sink>(
    text: &mut Vec<u8>,
    ended: Option<DumpFault>,
    format: MessageFormat,
    sink: &mut K,
    errors: &mut E,
) -> Result<u8, CommandFault>
    ensures whole { IfOk result (λ status. Appends (K.held sink.old) (K.held sink.new)
        (text.old.items ++ ended_text format ended) × (status ≡ fault_status ended)) }
    ensures report { OnOk result (Appends (E.held errors.old) (E.held errors.new) (ended_errors format ended)) }
    ensures told { OnOk result (IsTold ended) }
    ensures front { AppendsPrefix (K.held sink.old) (K.held sink.new) (text.old.items ++ ended_text format ended) }
    ensures errors { AppendsPrefix (E.held errors.old) (E.held errors.new) (ended_errors format ended) }
    ensures kept { IfErr result (λ last. (last ≡ CommandFault.Write)
        ⊎ Appends (K.held sink.old) (K.held sink.new) text.old.items) }
    ensures failures { (old new : ℕ) → CountsEnd old new ended →
        CountsDump format (old, new) (K.failed sink.old, K.failed sink.new)
        (E.failed errors.old, E.failed errors.new) result }
{
    match format {
        MessageFormat::Lines => end_lines(text, ended, sink),
        MessageFormat::Blocks => end_blocks(text, ended, sink, errors),
        MessageFormat::BlocksToEmpty => end_blocks(text, ended, sink, errors),
    }
}

/// Reads the file of a journal, of any version, and writes the messages that the options ask for to `sink`. Each is
/// a line of lower-case hexadecimal digits, or a message block.
///
/// If the file isn't valid, the messages before the fault are written, and then a line with the fault. If the output
/// has blocks, that line is written to `errors`. The status is 0 for a valid file, otherwise 2.
///
/// With `BlocksToEmpty`, an empty block follows the messages if the session is closed and no message follows the range.
/// An empty message in the range ends the dump as a fault of the file does: with a line in `errors` and status 2.
///
/// It keeps at most the longest message, the bytes of one read, and the unwritten text. The text is written in pieces
/// of 65,536 bytes or more, and the rest at the end. If a read or an allocation fails, the messages gathered so far are
/// written first. After a fault, a prefix of the text was written. `Read` and `Write` are returned only if the source
/// or a sink failed, `Memory` only if an allocation failed.
pub fn dump_file<S: Source, K: Sink, E: Sink>(
    alloc: Global,
    source: &mut S,
    options: DumpOptions,
    sink: &mut K,
    errors: &mut E,
) -> Result<u8, CommandFault>
    ensures contents { IfOk result (λ status. IfSome (S.left source.old) (λ bytes. HasContents options bytes status)) }
    ensures whole { IfOk result (λ status. IfSome (S.left source.old) (λ bytes. (contents : FileContents bytes) →
        Appends (K.held sink.old) (K.held sink.new) (dump_text options contents)
        × (status ≡ dump_status options contents))) }
    ensures report { OnOk result (IfSome (S.left source.old) (λ bytes. (contents : FileContents bytes) →
        Appends (E.held errors.old) (E.held errors.new) (dump_errors options contents))) }
    ensures front { IfSome (S.left source.old) (λ bytes. (contents : FileContents bytes) →
        AppendsPrefix (K.held sink.old) (K.held sink.new) (dump_text options contents)) }
    ensures errors { IfSome (S.left source.old) (λ bytes. (contents : FileContents bytes) →
        AppendsPrefix (E.held errors.old) (E.held errors.new) (dump_errors options contents)) }
    ensures failures { CountsDump options.format (S.failed source.old, S.failed source.new)
        (K.failed sink.old, K.failed sink.new) (E.failed errors.old, E.failed errors.new) result }
{
    contents_law();
    reader_law();
    one_file_law();
    let mut text = Vec::new(alloc);
    let mut reader = match JournalReader::new(alloc, source) {
        Ok(reader) => reader,
        Err(error) => {
            let fault = DumpFault::File(error);
            return end_dump(&mut text, Some(fault), options.format, sink, errors);
        }
    };
    'messages: loop {
        match dump_next(&mut reader, source, options, &mut text) {
            Ok(true) => dump_blocks(&mut reader, options, &mut text),
            Ok(false) => return end_dump(&mut text, None, options.format, sink, errors),
            Err(fault) => return end_dump(&mut text, Some(fault), options.format, sink, errors),
        }
        send_large(sink, &mut text)?;
    }
}
