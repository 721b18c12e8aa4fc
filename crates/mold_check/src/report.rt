//! Writes the report of a check.

ghost use Rattle.std.specs.Prelude.{◌≡◌, ◌<◌, ◌++◌, ◌∷◌, [], length, take, IfErr, IfOk, OnErr, OnOk};
ghost use Rattle.std.specs.Io.KnownBytes.{Appends};
ghost use Rattle.mold_capture.specs.Outcome.{incomplete, outcome_in, whole};
ghost use Rattle.mold_capture.specs.Verdict.{ranges_of};
ghost use Rattle.mold_check.specs.Entries.{NamesDiffer};
ghost use Rattle.mold_check.specs.Report.{Checked, Keeps, Printed, counts_line, incomplete_line, missing_line};
ghost use Rattle.mold_check.specs.Report.{missing_text, outcome_status, outcome_text, report};
ghost use Rattle.mold_devices.specs.Devices.{AppendsPrefix};
ghost use Rattle.mold_devices.specs.Faults.{CountsSink};
ghost use Rattle.mold_devices.specs.Writing.{Moves};
ghost use Rattle.mold_devices.specs.declared.output.TheConstants.{LARGE};
ghost use Rattle.mold_rule.specs.Ranges as lacking;
ghost use Rattle.mold_text.specs.Text.{refusal_words, refused_line};

use crate::datagrams::{lend_bytes, sorted_datagrams};
use crate::entry::Entry;
use crate::printing::print_pushed;
use mold_capture::laws::outcome_law;
use mold_capture::{Range, Refusal, Verdict, check};
use mold_devices::{CommandFault, Sink, end_with, send, send_large};
use mold_text::{Word, push_line, push_refusal};
use std::alloc::{AllocError, Global};

/// Appends the line with the number of datagrams and the number of other entries. If an allocation fails, a part of the
/// line may follow the text.
pub(crate) fn push_counts(
    text: &mut Vec<u8>,
    files: usize,
    skipped: usize,
) -> Result<(), AllocError>
    ensures { OnOk result (text.new.items ≡ text.old.items ++ counts_line files skipped) }
{
    push_line(
        text,
        &[
            Word::Text(b"files"),
            Word::Number(files as u64),
            Word::Text(b"skipped"),
            Word::Number(skipped as u64),
        ],
    )
}

fn push_whole(text: &mut Vec<u8>, messages: u64) -> Result<(), AllocError>
    ensures line { OnOk result (text.new.items ≡ text.old.items ++ outcome_text [] (whole messages)) }
    ensures kept { OnErr result (take (length text.old.items) text.new.items ≡ text.old.items) }
{
    push_line(text, &[Word::Text(b"whole"), Word::Number(messages)])
}

// Appends the first line of an incomplete session, without the lines of the missing ranges.
fn push_incomplete(text: &mut Vec<u8>, end: Option<u64>) -> Result<(), AllocError>
    ensures line { OnOk result (text.new.items ≡ text.old.items ++ incomplete_line end) }
    ensures kept { OnErr result (take (length text.old.items) text.new.items ≡ text.old.items) }
{
    let end = match end {
        Some(number) => Word::Number(number),
        None => Word::Text(b"none"),
    };
    push_line(text, &[Word::Text(b"incomplete"), Word::Text(b"end"), end])
}

fn push_missing(text: &mut Vec<u8>, range: Range) -> Result<(), AllocError>
    ensures line { OnOk result
        (text.new.items ≡ text.old.items ++ missing_line (lacking.range range.first range.last)) }
    ensures kept { OnErr result (take (length text.old.items) text.new.items ≡ text.old.items) }
{
    push_line(
        text,
        &[
            Word::Text(b"missing"),
            Word::Number(range.first),
            Word::Number(range.last),
        ],
    )
}

// Appends the line of a missing range. Then writes the text if it has at least 65,536 bytes. If an allocation fails,
// writes the text before that line.
fn print_missing<K: Sink>(
    sink: &mut K,
    text: &mut Vec<u8>,
    range: Range,
) -> Result<(), CommandFault>
    ensures moved { OnOk result (Moves (K.held sink.old) (K.held sink.new)
        (text.old.items ++ missing_line (lacking.range range.first range.last)) text.new.items) }
    ensures short { OnOk result (length text.new.items < LARGE) }
    ensures kept { IfErr result (λ fault. fault ≡ CommandFault.Memory →
        Appends (K.held sink.old) (K.held sink.new) text.old.items) }
    ensures front { AppendsPrefix (K.held sink.old) (K.held sink.new)
        (text.old.items ++ missing_line (lacking.range range.first range.last)) }
    ensures failures { CountsSink (K.failed sink.old) (K.failed sink.new) result }
{
    let told = text.len();
    match push_missing(text, range) {
        Ok(()) => {
            send_large(sink, text)?;
            Ok(())
        }
        Err(_) => Err(end_with(sink, text, told, CommandFault::Memory)),
    }
}

// Writes the text and the lines of the missing ranges, in pieces of 65,536 bytes or more. If an allocation fails,
// writes the text and the lines before that.
fn send_missing<K: Sink>(
    sink: &mut K,
    text: &mut Vec<u8>,
    missing: &[Range],
) -> Result<(), CommandFault>
    ensures whole { OnOk result (Appends (K.held sink.old) (K.held sink.new)
        (text.old.items ++ missing_text (ranges_of missing.now))) }
    ensures front { AppendsPrefix (K.held sink.old) (K.held sink.new)
        (text.old.items ++ missing_text (ranges_of missing.now)) }
    ensures kept { IfErr result (λ fault. fault ≡ CommandFault.Memory →
        Keeps (K.held sink.old) (K.held sink.new) text.old.items) }
    ensures failures { CountsSink (K.failed sink.old) (K.failed sink.new) result }
{
    for range in missing {
        print_missing(sink, text, *range)?;
    }
    send(sink, text)
}

// Writes the text and that the session is whole, and returns the exit status. If an allocation fails, writes the text.
fn print_whole<K: Sink>(sink: &mut K, text: &mut Vec<u8>, messages: u64) -> Result<u8, CommandFault>
    ensures { Printed (K.held sink.old) (K.held sink.new) (K.failed sink.old) (K.failed sink.new) text.old.items
        (outcome_text [] (whole messages)) 0 text.new.items result }
{
    let len = text.len();
    let pushed = push_whole(text, messages);
    print_pushed(sink, text, len, pushed, 0)
}

// Writes the text and the missing ranges, and returns the exit status. If an allocation fails, writes the text and the
// lines before that.
fn print_incomplete<K: Sink>(
    sink: &mut K,
    text: &mut Vec<u8>,
    missing: &[Range],
    end: Option<u64>,
) -> Result<u8, CommandFault>
    ensures whole { IfOk result (λ status. Appends (K.held sink.old) (K.held sink.new)
        (text.old.items ++ outcome_text [] (incomplete (ranges_of missing.now) end)) × (status ≡ 1)) }
    ensures front { AppendsPrefix (K.held sink.old) (K.held sink.new)
        (text.old.items ++ outcome_text [] (incomplete (ranges_of missing.now) end)) }
    ensures kept { IfErr result (λ fault. fault ≡ CommandFault.Memory →
        Keeps (K.held sink.old) (K.held sink.new) text.old.items) }
    ensures failures { CountsSink (K.failed sink.old) (K.failed sink.new) result }
{
    let told = text.len();
    match push_incomplete(text, end) {
        Ok(()) => {
            send_missing(sink, text, missing)?;
            Ok(1)
        }
        Err(_) => Err(end_with(sink, text, told, CommandFault::Memory)),
    }
}

/// Writes the text and what the verdict reports, and returns the exit status. If an allocation fails, writes the text
/// and the lines before that.
pub(crate) fn print_verdict<K: Sink>(
    sink: &mut K,
    text: &mut Vec<u8>,
    verdict: &Verdict,
) -> Result<u8, CommandFault>
    ensures whole { IfOk result (λ status. Appends (K.held sink.old) (K.held sink.new)
        (text.old.items ++ outcome_text [] (outcome_in verdict.now))
        × (status ≡ outcome_status (outcome_in verdict.now))) }
    ensures front { AppendsPrefix (K.held sink.old) (K.held sink.new)
        (text.old.items ++ outcome_text [] (outcome_in verdict.now)) }
    ensures kept { IfErr result (λ fault. fault ≡ CommandFault.Memory →
        Keeps (K.held sink.old) (K.held sink.new) text.old.items) }
    ensures failures { CountsSink (K.failed sink.old) (K.failed sink.new) result }
{
    match verdict {
        Verdict::Whole { messages } => print_whole(sink, text, *messages),
        Verdict::Incomplete { missing, end } => {
            print_incomplete(sink, text, missing.as_slice(), *end)
        }
    }
}

// Writes the text and the reason why the entry with this name is refused, and returns the exit status. If an allocation
// fails, writes the text.
fn print_refusal<K: Sink>(
    sink: &mut K,
    text: &mut Vec<u8>,
    name: &[u8],
    reason: Refusal,
) -> Result<u8, CommandFault>
    ensures { Printed (K.held sink.old) (K.held sink.new) (K.failed sink.old) (K.failed sink.new) text.old.items
        (refused_line (name.now ∷ refusal_words reason)) 2 text.new.items result }
{
    let len = text.len();
    let pushed = push_refusal(text, &[Word::Text(b"refused"), Word::Text(name)], reason);
    print_pushed(sink, text, len, pushed, 2)
}

/// Checks the entries that are datagrams, in ascending order of the bytes of their names. It writes the outcome
/// to the sink and returns the exit status: 0 whole, 1 incomplete, 2 a datagram is refused.
///
/// It copies no entry, only the messages that the checker stores. After a fault, a prefix of the text was
/// written; the contract states this only if no two entries have the same name. After `Memory` this prefix is all
/// text made so far. `Write` is returned only if the sink failed, `Memory` only if an allocation failed, and `Read`
/// never.
pub fn check_entries<K: Sink>(
    alloc: Global,
    entries: &[Entry],
    sink: &mut K,
) -> Result<u8, CommandFault>
    ensures whole { IfOk result (λ status. (checked : Checked entries.now)
        × (Appends (K.held sink.old) (K.held sink.new) (report checked)
        × (status ≡ outcome_status checked.outcome))) }
    ensures front { NamesDiffer entries.now → (checked : Checked entries.now) →
        AppendsPrefix (K.held sink.old) (K.held sink.new) (report checked) }
    ensures failures { CountsSink (K.failed sink.old) (K.failed sink.new) result }
{
    outcome_law();
    let order = sorted_datagrams(alloc, entries)?;
    let datagrams = lend_bytes(alloc, order.as_slice())?;
    let files = order.len();
    let skipped = entries.len() - files;
    let mut text = Vec::new(alloc);
    // The first line is made after the check, which may run out of memory.
    match check(alloc, datagrams.as_slice()) {
        Ok(verdict) => {
            push_counts(&mut text, files, skipped)?;
            print_verdict(sink, &mut text, &verdict)
        }
        Err((_, Refusal::Memory)) => Err(CommandFault::Memory),
        Err((index, reason)) => {
            push_counts(&mut text, files, skipped)?;
            let name = order[index].name.as_str().as_bytes();
            print_refusal(sink, &mut text, name, reason)
        }
    }
}
