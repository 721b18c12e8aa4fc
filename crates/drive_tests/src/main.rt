//! A driver for tests. The first word of its input is `repair`, `durable`, or a kind of device.
//!
//! `repair` is for `tests/repair-network`. The other words of the line are the options of a repairer. The driver applies
//! the steps of the other lines to it, and prints what each call returns.
//!
//! `durable` is for `tests/durable`. The other words are `PATH GROUP REPEATS CLOSES REPORTS`, as in `WriterOptions`. PATH
//! has no space. The driver writes a journal file. Each other line is a message.
//!
//! `storage`, `file`, `set` and `port` are for `tests/devices`. The second word is `real` or `memory`, and the other words
//! state the device. Each other line is a call of the device. The driver prints what the call returns.
#![tactic(auto)]

mod calls;
mod devices;
mod driver;
mod opened;
mod options;
mod port_calls;
mod problem;
mod report;
mod setup;
mod storage_calls;
mod words;
mod writer;

use calls::Calls;
use devices::{
    real_file, real_port, real_set, real_storage, simulated_file, simulated_port, simulated_set,
    simulated_storage,
};
use driver::Driver;
use mold_devices::{FromRead, IntoWrite, Lines, send};
use mold_durable::Storage;
use opened::open_journal;
use options::{WriterOptions, read_options};
use problem::Problem;
use setup::make_repairer;
use std::io::{Stdin, Stdout};
use std::process::ExitCode;
use words::Words;
use writer::Writer;

// Applies the steps of all other lines. The text is written at each empty line, and at the end.
fn apply_steps<C: Calls>(
    calls: &mut C,
    source: &mut FromRead<Stdin>,
    lines: &mut Lines,
    text: &mut Vec<u8>,
    sink: &mut IntoWrite<Stdout>,
) -> Result<(), Problem> {
    for _ in 0..u64::MAX {
        if !lines.advance(source)? {
            break;
        }
        if lines.line().is_empty() {
            send(sink, text)?;
        } else {
            calls.apply(lines.line(), text)?;
        }
    }
    Ok(send(sink, text)?)
}

// Applies the steps of all other lines to a repairer or a device, and prints what its calls return.
fn run_steps<C: Calls + Drop>(
    rt: &HostRuntime,
    mut calls: C,
    source: &mut FromRead<Stdin>,
    lines: &mut Lines,
) -> Result<(), Problem> {
    let mut text = Vec::new(rt.alloc());
    let mut sink = IntoWrite::new(rt.stdout());
    apply_steps(&mut calls, source, lines, &mut text, &mut sink)
}

// Writes the messages of all other lines.
fn append_lines<S: Storage + Drop>(
    writer: &mut Writer<S>,
    source: &mut FromRead<Stdin>,
    lines: &mut Lines,
    sink: &mut IntoWrite<Stdout>,
) -> Result<(), Problem> {
    writer.report(sink)?;
    for _ in 0..u64::MAX {
        if !lines.advance(source)? {
            break;
        }
        writer.append(lines.line(), sink)?;
    }
    writer.finish(sink)
}

// Writes the messages of all other lines to the file at a path.
fn write_lines(
    rt: &HostRuntime,
    options: WriterOptions,
    path: &str,
    source: &mut FromRead<Stdin>,
    lines: &mut Lines,
) -> Result<(), Problem> {
    let journal = open_journal(rt, path)?;
    let mut writer = Writer::new(rt.alloc(), journal, options);
    let mut sink = IntoWrite::new(rt.stdout());
    append_lines(&mut writer, source, lines, &mut sink)
}

// Writes a journal with the options of the current line.
fn write_journal(
    rt: &HostRuntime,
    source: &mut FromRead<Stdin>,
    lines: &mut Lines,
) -> Result<(), Problem> {
    let mut path = Vec::new(rt.alloc());
    let Some(options) = read_options(Words::after_first(lines.line()), &mut path) else {
        return Err(Problem::Options);
    };
    let Ok(path) = str::from_utf8(&path) else {
        return Err(Problem::Options);
    };
    write_lines(rt, options, path, source, lines)
}

// Runs a repairer with the options of the current line.
fn run_repairer(
    rt: &HostRuntime,
    source: &mut FromRead<Stdin>,
    lines: &mut Lines,
) -> Result<(), Problem> {
    let Some(repairer) = make_repairer(rt.alloc(), Words::after_first(lines.line())) else {
        return Err(Problem::Options);
    };
    run_steps(rt, Driver::new(rt.alloc(), repairer), source, lines)
}

// Whether the current line states a real device, and the words that describe the device.
fn device_words(line: &[u8]) -> (bool, Words<'_>) {
    let mut words = Words::after_first(line);
    (words.next_word() == b"real".as_slice(), words)
}

// Runs the storage that the current line states.
fn run_storage(
    rt: &HostRuntime,
    source: &mut FromRead<Stdin>,
    lines: &mut Lines,
) -> Result<(), Problem> {
    let (is_real, words) = device_words(lines.line());
    if is_real {
        let storage = real_storage(rt, words)?;
        return run_steps(rt, storage, source, lines);
    }
    let storage = simulated_storage(rt.alloc(), words)?;
    run_steps(rt, storage, source, lines)
}

// Runs the file that the current line states.
fn run_file(
    rt: &HostRuntime,
    source: &mut FromRead<Stdin>,
    lines: &mut Lines,
) -> Result<(), Problem> {
    let (is_real, words) = device_words(lines.line());
    if is_real {
        let file = real_file(rt, words)?;
        return run_steps(rt, file, source, lines);
    }
    let file = simulated_file(rt.alloc(), words)?;
    run_steps(rt, file, source, lines)
}

// Runs the set of ports that the current line states.
fn run_set(
    rt: &HostRuntime,
    source: &mut FromRead<Stdin>,
    lines: &mut Lines,
) -> Result<(), Problem> {
    let (is_real, words) = device_words(lines.line());
    if is_real {
        let set = real_set(rt, words)?;
        return run_steps(rt, set, source, lines);
    }
    let set = simulated_set(rt.alloc(), words)?;
    run_steps(rt, set, source, lines)
}

// Runs the port that the current line states.
fn run_port(
    rt: &HostRuntime,
    source: &mut FromRead<Stdin>,
    lines: &mut Lines,
) -> Result<(), Problem> {
    let (is_real, words) = device_words(lines.line());
    if is_real {
        let port = real_port(rt, words)?;
        return run_steps(rt, port, source, lines);
    }
    let port = simulated_port(rt.alloc(), words)?;
    run_steps(rt, port, source, lines)
}

// If the input is empty, nothing is written.
fn run(rt: &HostRuntime) -> Result<(), Problem> {
    let mut source = FromRead::new(rt.stdin());
    let mut lines = Lines::new(rt.alloc())?;
    if !lines.advance(&mut source)? {
        return Ok(());
    }
    match Words::new(lines.line()).next_word() {
        b"repair" => run_repairer(rt, &mut source, &mut lines),
        b"durable" => write_journal(rt, &mut source, &mut lines),
        b"storage" => run_storage(rt, &mut source, &mut lines),
        b"file" => run_file(rt, &mut source, &mut lines),
        b"set" => run_set(rt, &mut source, &mut lines),
        b"port" => run_port(rt, &mut source, &mut lines),
        _ => Err(Problem::Options),
    }
}

fn main(rt: HostRuntime) -> ExitCode {
    match run(&rt) {
        Ok(()) => ExitCode::SUCCESS,
        Err(problem) => ExitCode::from(problem.status()),
    }
}
