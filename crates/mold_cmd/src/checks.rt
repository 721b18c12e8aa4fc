//! Runs `mold check` with `--each`, `--digest` and `--journal`, and `mold extract`.

use crate::input_check::{InputCheck, read_check, read_checked_entries, read_entries};
use mold_check::{DatagramCheck, DigestCheck, Digested, EachCheck, FreshJudge, Judge};
use mold_devices::{CommandFault, DeviceFault, IntoWrite, Sink, send};
use mold_digest::DigestKey;
use mold_extract::{Extracted, NumberRange, extract_blocks, extract_lines, save_journal};
use mold_sockets::{open_replaced, unless_locked};
use mold_text::{Word, push_line};
use mold_wiring::{ProgramFault, flushed};
use mold_words::{ExtractForm, ExtractOrder, InputOrder};
use std::alloc::Global;
use std::io::Write;

// Prints what the check finds, and flushes standard output once.
fn report<J: Judge>(rt: &HostRuntime, check: &InputCheck<'_, J>) -> Result<u8, CommandFault> {
    let mut sink = IntoWrite::new(rt.stdout());
    let outcome = check.print(rt.alloc(), &mut sink);
    let status = flushed(outcome, sink.into_inner().flush())?;
    check.explain_refusal(rt);
    check.explain_verdict(rt);
    Ok(status)
}

// Adds the datagrams of the input to the judge, and reports what it finds.
fn check_over<J: Judge>(
    rt: &HostRuntime,
    input: &InputOrder,
    judge: J,
) -> Result<u8, CommandFault> {
    let entries = read_checked_entries(rt, input)?;
    let check = read_check(rt, input, entries.as_slice(), judge)?;
    report(rt, &check)
}

/// Checks each session of the input by itself.
pub(crate) fn check_each(rt: &HostRuntime, input: &InputOrder) -> Result<u8, CommandFault> {
    let judge: EachCheck<DatagramCheck> = EachCheck::new(rt.alloc());
    check_over(rt, input, judge)
}

// Checks each session of the input by itself, by digests under this key.
fn check_each_under(
    rt: &HostRuntime,
    input: &InputOrder,
    key: &DigestKey,
) -> Result<u8, CommandFault> {
    let judge: Digested<'_, EachCheck<DigestCheck>> = Digested::new(key, rt.alloc());
    check_over(rt, input, judge)
}

// Checks the input by digests under this key.
fn check_under(rt: &HostRuntime, input: &InputOrder, key: &DigestKey) -> Result<u8, CommandFault> {
    let judge: Digested<'_, DigestCheck> = Digested::new(key, rt.alloc());
    check_over(rt, input, judge)
}

/// Checks the input by digests under a new key, each session by itself if `each` is true. If the system has no random
/// bytes, the fault is `Read`.
pub(crate) fn check_by_digest(
    rt: &HostRuntime,
    input: &InputOrder,
    each: bool,
) -> Result<u8, CommandFault> {
    let Ok(key) = DigestKey::draw(rt) else {
        return Err(CommandFault::Read);
    };
    if each {
        return check_each_under(rt, input, &key);
    }
    check_under(rt, input, &key)
}

// Returns the outcome of writing to a file.
fn written<T>(outcome: Result<T, DeviceFault>) -> Result<T, CommandFault> {
    match outcome {
        Ok(value) => Ok(value),
        Err(_) => Err(CommandFault::Write),
    }
}

// Writes a line of a word and a number of messages.
fn print_messages<K: Sink>(
    alloc: Global,
    word: &[u8],
    messages: u64,
    sink: &mut K,
) -> Result<(), CommandFault> {
    let mut text = Vec::new(alloc);
    push_line(&mut text, &[Word::Text(word), Word::Number(messages)])?;
    send(sink, &mut text)
}

// Writes the journal of the session to the file, if the session is whole and no capture is at fault. Then writes the
// report, and the number of messages if they were saved.
fn save<J: Sink, K: Sink>(
    alloc: Global,
    check: &InputCheck<'_, DatagramCheck>,
    file: &mut J,
    sink: &mut K,
) -> Result<u8, CommandFault> {
    let saved = match check.accepted() {
        Some(checker) if !check.is_at_fault() => written(save_journal(checker, file))?,
        _ => Extracted::Holes,
    };
    let status = check.print(alloc, sink)?;
    if let Extracted::All { messages } = saved {
        print_messages(alloc, b"saved", messages, sink)?;
    }
    Ok(status)
}

// Saves the session of the check, and flushes standard output once.
fn save_check<J: Sink>(
    rt: &HostRuntime,
    check: &InputCheck<'_, DatagramCheck>,
    file: &mut J,
) -> Result<u8, CommandFault> {
    let mut sink = IntoWrite::new(rt.stdout());
    let outcome = save(rt.alloc(), check, file, &mut sink);
    let status = flushed(outcome, sink.into_inner().flush())?;
    check.explain_refusal(rt);
    check.explain_verdict(rt);
    Ok(status)
}

// Checks the input, and saves its session.
fn save_input<J: Sink>(
    rt: &HostRuntime,
    input: &InputOrder,
    file: &mut J,
) -> Result<u8, CommandFault> {
    let entries = read_checked_entries(rt, input)?;
    let judge = DatagramCheck::new(rt.alloc());
    let check = read_check(rt, input, entries.as_slice(), judge)?;
    save_check(rt, &check, file)
}

/// Checks the input. If its session is whole and no capture is at fault, saves it as a journal, whose file is created at
/// its first write. Flushes standard output once.
pub(crate) fn check_and_save(
    rt: &HostRuntime,
    input: &InputOrder,
    journal: &str,
) -> Result<u8, ProgramFault> {
    let mut file = open_replaced(rt, journal)?;
    let outcome = save_input(rt, input, &mut file);
    unless_locked(outcome, file)
}

// Writes the messages in the range to the file. If there are none, the file is empty.
fn write_messages<J: Sink>(
    alloc: Global,
    check: &InputCheck<'_, DatagramCheck>,
    order: &ExtractOrder,
    file: &mut J,
) -> Result<Extracted, CommandFault> {
    let Some(checker) = check.accepted() else {
        return Ok(Extracted::Holes);
    };
    let range = NumberRange {
        from: order.from,
        count: order.count,
    };
    let extracted = match order.form {
        ExtractForm::Lines => Extracted::All {
            messages: extract_lines(alloc, checker, range, file)?,
        },
        ExtractForm::Blocks => written(extract_blocks(checker, range, file))?,
    };
    if let Extracted::All { messages: 0 } = extracted {
        written(file.write(b""))?;
    }
    Ok(extracted)
}

// Writes the messages to the file, and then what was written. If a datagram is refused or a message of the blocks is
// missing, writes the report of the check only.
fn extract<J: Sink, K: Sink>(
    alloc: Global,
    check: &InputCheck<'_, DatagramCheck>,
    order: &ExtractOrder,
    file: &mut J,
    sink: &mut K,
) -> Result<u8, CommandFault> {
    let Extracted::All { messages } = write_messages(alloc, check, order, file)? else {
        return check.print(alloc, sink);
    };
    check.print_counts(alloc, sink)?;
    print_messages(alloc, b"extracted", messages, sink)?;
    if check.is_at_fault() {
        return Ok(2);
    }
    Ok(0)
}

// Extracts messages of the check, and flushes standard output once.
fn extract_check<J: Sink>(
    rt: &HostRuntime,
    check: &InputCheck<'_, DatagramCheck>,
    order: &ExtractOrder,
    file: &mut J,
) -> Result<u8, CommandFault> {
    let mut sink = IntoWrite::new(rt.stdout());
    let outcome = extract(rt.alloc(), check, order, file, &mut sink);
    let status = flushed(outcome, sink.into_inner().flush())?;
    check.explain_refusal(rt);
    Ok(status)
}

// Checks the input, and extracts its messages.
fn extract_input<J: Sink>(
    rt: &HostRuntime,
    order: &ExtractOrder,
    file: &mut J,
) -> Result<u8, CommandFault> {
    let entries = read_entries(rt, &order.input)?;
    let judge = DatagramCheck::new(rt.alloc());
    let check = read_check(rt, &order.input, entries.as_slice(), judge)?;
    extract_check(rt, &check, order, file)
}

/// Extracts messages of the input to a file, which is created at its first write. Flushes standard output once.
pub(crate) fn run_extract(rt: &HostRuntime, order: &ExtractOrder) -> Result<u8, ProgramFault> {
    let mut file = open_replaced(rt, order.to.as_str())?;
    let outcome = extract_input(rt, order, &mut file);
    unless_locked(outcome, file)
}
