//! The last lines that a listener prints: reports of lines A and B, and then its status line.

ghost use Rattle.std.specs.Prelude.{◌≡◌, IfOk, OnOk};
ghost use Rattle.mold_listen.specs.Listening.{is_finished, last_lines, last_side, listener_status, progress};
ghost use Rattle.mold_turns.specs.Outgoing.{KeepsSide, with_both, with_more, with_note};
ghost use Rattle.mold_turns.specs.Runs.{Begins};
ghost use Rattle.mold_listen.specs.Text.{line_name, mark_text, report_line, reports_text, stop_line};
ghost use Rattle.mold_receiver.specs.Arbiter.{report_on};

use crate::listening::push_last;
use mold_input::MessageFormat;
use mold_receiver::{Arbiter, Line};
use mold_text::Word;
use mold_turns::Outgoing;
use std::alloc::AllocError;

// The name of a line as it is printed.
fn name(line: Line) -> &'static [u8]
    ensures { result.now ≡ line_name line }
{
    match line {
        Line::A => b"a",
        Line::B => b"b",
    }
}

// Appends the report of a line: what was received on it, and its lag.
fn push_report(arbiter: &Arbiter, line: Line, outgoing: &mut Outgoing) -> Result<(), AllocError>
    ensures line { OnOk result (outgoing.new ≡ with_note
        (report_line line (report_on line arbiter.now.reports) arbiter.now.view.known) outgoing.old) }
    ensures prints { Begins outgoing.old.text outgoing.new.text }
    ensures keeps { KeepsSide outgoing.old outgoing.new }
{
    let report = arbiter.report(line);
    let words = [
        Word::Text(b"line"),
        Word::Text(name(line)),
        Word::Text(b"datagrams"),
        Word::Number(report.datagrams),
        Word::Text(b"refused"),
        Word::Number(report.refused),
        Word::Text(b"front"),
        Word::Number(report.front),
        Word::Text(b"lag"),
        Word::Number(arbiter.lag(line)),
    ];
    outgoing.push_note(&words)
}

// Appends the reports of both lines if `reporting` is set.
fn push_reports(
    arbiter: &Arbiter,
    reporting: bool,
    outgoing: &mut Outgoing,
) -> Result<(), AllocError>
    ensures lines { OnOk result (outgoing.new ≡ with_note
        (reports_text reporting arbiter.now.reports arbiter.now.view.known) outgoing.old) }
    ensures prints { Begins outgoing.old.text outgoing.new.text }
    ensures keeps { KeepsSide outgoing.old outgoing.new }
{
    if !reporting {
        return Ok(());
    }
    push_report(arbiter, Line::A, outgoing)?;
    push_report(arbiter, Line::B, outgoing)
}

// Appends the line of the empty message `number`, which cannot be printed.
fn push_stop(outgoing: &mut Outgoing, number: u64) -> Result<(), AllocError>
    ensures line { OnOk result (outgoing.new ≡ with_note (stop_line number) outgoing.old) }
    ensures prints { Begins outgoing.old.text outgoing.new.text }
    ensures keeps { KeepsSide outgoing.old outgoing.new }
{
    let line = [
        Word::Text(b"refused"),
        Word::Text(b"Empty"),
        Word::Number(number),
    ];
    outgoing.push_note(&line)
}

// Appends the mark of the end if the format has one and the listener has finished.
fn push_mark(arbiter: &Arbiter, outgoing: &mut Outgoing) -> Result<(), AllocError>
    ensures mark { OnOk result (outgoing.new ≡ with_more
        (mark_text outgoing.old.format (is_finished (progress arbiter.now outgoing.old))) outgoing.old) }
    ensures prints { Begins outgoing.old.text outgoing.new.text }
    ensures keeps { KeepsSide outgoing.old outgoing.new }
{
    match outgoing.format() {
        MessageFormat::BlocksToEmpty if arbiter.receiver().finished() => {
            outgoing.text.extend_from_slice(&[0, 0])
        }
        _ => Ok(()),
    }
}

/// Appends the last lines to the text: the reports of both lines if `reporting` is set, and then what `push_last`
/// appends. In the format `BlocksToEmpty` an empty block follows the messages if the listener has finished. Returns the
/// status: 0 finished, 1 open.
///
/// If printing stopped before an empty message, appends only the line that reports this, and returns the status 2. An
/// error means out of memory.
pub fn push_end(
    arbiter: &Arbiter,
    reporting: bool,
    outgoing: &mut Outgoing,
) -> Result<u8, AllocError>
    ensures status { IfOk result (λ status. status ≡ listener_status (progress arbiter.now outgoing.old)) }
    ensures lines { OnOk result (outgoing.new ≡ with_both
        (last_lines reporting (progress arbiter.now outgoing.old))
        (last_side reporting (progress arbiter.now outgoing.old)) outgoing.old) }
    ensures prints { Begins outgoing.old.text outgoing.new.text }
    ensures keeps { KeepsSide outgoing.old outgoing.new }
{
    if let Some(number) = outgoing.stopped {
        push_stop(outgoing, number)?;
        return Ok(2);
    }
    push_reports(arbiter, reporting, outgoing)?;
    let status = push_last(arbiter, outgoing)?;
    push_mark(arbiter, outgoing)?;
    Ok(status)
}
