//! A check of the datagrams of an input: lines, a folder or captures.

use crate::captures::{explain_refusal, explain_verdict, read_capture_check};
use crate::progress::Progress;
use crate::watched_lines::WatchedLines;
use mold_capture::Checker;
use mold_capture_commands::{CaptureCheck, begins_as_capture};
use mold_check::{DatagramCheck, Entry, EntryCheck, Judge, LineCheck, read_lines_over};
use mold_commands::read_folder;
use mold_devices::{CommandFault, FromRead, Sink};
use mold_words::InputOrder;
use std::alloc::Global;
use std::fs;
use std::fs::File;
use std::io::Read;

const IS_IT_A_CAPTURE: &str = "is it a capture? mold check --capture ";

/// A check of the datagrams of an input, which were judged by `J`.
#[derive(Drop)]
pub(crate) enum InputCheck<'a, J> {
    Lines(LineCheck<J>),
    Folder(EntryCheck<'a, J>),
    Captures(CaptureCheck<J>),
}

// Returns whether this is a file that begins as a capture.
fn is_capture(rt: &HostRuntime, name: &str) -> bool {
    match fs::metadata(rt, name) {
        Ok(found) if found.is_file() => {}
        _ => return false,
    }
    let Ok(mut file) = File::open(rt, name) else {
        return false;
    };
    let mut start = [0; 4];
    match file.read_exact(&mut start) {
        Ok(()) => begins_as_capture(&start),
        Err(_) => false,
    }
}

/// If this is not a folder but a file that begins as a capture, states on standard error how it is checked.
pub(crate) fn ask_for_capture(rt: &HostRuntime, name: &str) {
    if is_capture(rt, name) {
        let _ = rt.eprint(IS_IT_A_CAPTURE);
        let _ = rt.eprint(name);
        let _ = rt.eprint("\n");
    }
}

/// Reads the entries of the folder. Another input has no entries.
pub(crate) fn read_entries(
    rt: &HostRuntime,
    input: &InputOrder,
) -> Result<Vec<Entry>, CommandFault> {
    let InputOrder::Folder(folder) = input else {
        return Ok(Vec::new(rt.alloc()));
    };
    let mut progress = Progress::of_unknown(rt);
    let entries = read_folder(rt, folder.as_str(), &mut progress);
    progress.end();
    entries
}

/// The same for `check`. If the folder is a file that begins as a capture, states on standard error how it is checked.
pub(crate) fn read_checked_entries(
    rt: &HostRuntime,
    input: &InputOrder,
) -> Result<Vec<Entry>, CommandFault> {
    let entries = read_entries(rt, input);
    if let (InputOrder::Folder(folder), Err(CommandFault::Read)) = (input, &entries) {
        ask_for_capture(rt, folder.as_str());
    }
    entries
}

// Checks the lines on standard input.
fn read_line_check<J: Judge>(rt: &HostRuntime, judge: J) -> Result<LineCheck<J>, CommandFault> {
    let mut source = WatchedLines::new(FromRead::new(rt.stdin()), Progress::of_unknown(rt));
    let check = read_lines_over(rt.alloc(), &mut source, judge);
    source.end();
    Ok(check?)
}

/// Adds the datagrams of the input to the judge. Those of a folder are in the entries.
pub(crate) fn read_check<'a, J: Judge>(
    rt: &HostRuntime,
    input: &InputOrder,
    entries: &'a [Entry],
    judge: J,
) -> Result<InputCheck<'a, J>, CommandFault> {
    match input {
        InputOrder::Lines => Ok(InputCheck::Lines(read_line_check(rt, judge)?)),
        InputOrder::Folder(_) => Ok(InputCheck::Folder(EntryCheck::over(
            rt.alloc(),
            entries,
            judge,
        )?)),
        InputOrder::Captures(order) => Ok(InputCheck::Captures(read_capture_check(
            rt, order, judge,
        )?)),
    }
}

impl<'a, J: Judge> InputCheck<'a, J> {
    /// Writes the lines of the report that precede the outcome.
    pub(crate) fn print_counts<K: Sink>(
        &self,
        alloc: Global,
        sink: &mut K,
    ) -> Result<(), CommandFault> {
        match self {
            InputCheck::Lines(check) => check.print_counts(alloc, sink),
            InputCheck::Folder(check) => check.print_counts(alloc, sink),
            InputCheck::Captures(check) => check.print_counts(sink),
        }
    }

    /// Writes the report, and returns its status.
    pub(crate) fn print<K: Sink>(&self, alloc: Global, sink: &mut K) -> Result<u8, CommandFault> {
        match self {
            InputCheck::Lines(check) => check.print(alloc, sink),
            InputCheck::Folder(check) => check.print(alloc, sink),
            InputCheck::Captures(check) => check.print(sink),
        }
    }

    /// Explains a refusal of captures on standard error.
    pub(crate) fn explain_refusal(&self, rt: &HostRuntime) {
        if let InputCheck::Captures(check) = self {
            explain_refusal(rt, check);
        }
    }

    /// States on standard error how captures of several sessions are checked, and what a verdict `whole` of captures
    /// leaves out.
    pub(crate) fn explain_verdict(&self, rt: &HostRuntime) {
        if let InputCheck::Captures(check) = self {
            explain_verdict(rt, check);
        }
    }

    /// Returns whether a capture is at fault.
    pub(crate) fn is_at_fault(&self) -> bool {
        match self {
            InputCheck::Captures(check) => check.is_at_fault(),
            _ => false,
        }
    }
}

impl<'a> InputCheck<'a, DatagramCheck> {
    /// Returns the checker of the datagrams. If a datagram is refused, or a line is not hexadecimal, there is none.
    pub(crate) fn accepted(&self) -> Option<&Checker> {
        let judge = match self {
            InputCheck::Lines(check) if check.not_hex().is_some() => return None,
            InputCheck::Lines(check) => check.judge(),
            InputCheck::Folder(check) => check.judge(),
            InputCheck::Captures(check) => check.judge(),
        };
        if judge.refused().is_some() {
            return None;
        }
        Some(judge.checker())
    }
}
