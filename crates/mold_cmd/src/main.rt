//! The program `mold`: runs the order that its command line gives.
#![tactic(auto)]

ghost use Rattle.mold_commands.specs.Command.{IsStreamed};

mod broken_pipe;
mod captures;
mod checks;
mod closed_streams;
mod input_check;
mod progress;
mod watched_lines;

use broken_pipe::status_of;
use captures::{check_captures, list_sessions, show_captures};
use checks::{check_and_save, check_by_digest, check_each, run_extract};
use closed_streams::ClosedStreams;
use input_check::ask_for_capture;
use mold_check::check_lines;
use mold_commands::{
    DumpOptions, check_folder, dump_file, run_command, run_pack_journal, run_upgrade,
};
use mold_devices::{CommandFault, FromRead, IntoWrite};
use mold_feed_command::{run_close, run_feed};
use mold_loop::run_loop;
use mold_sockets::{
    open_replaced, run_follow_dump, run_listen, run_publish, run_receive, run_record, run_serve,
    unless_locked,
};
use mold_wiring::{ProgramFault, exit_code, flushed, print_fault};
use mold_words::{
    CheckOrder, DumpOrder, InputOrder, Judging, Order, PackJournalOrder, UpgradeOrder, UsageFault,
    read_words,
};
use progress::Progress;
use std::fs::File;
use std::io::{ErrorKind, Write};
use std::process::ExitCode;
use std::rt::Env;
use std::{env, io};
use watched_lines::WatchedLines;

const NOT_UTF8: &str = "error: a word is not UTF-8\n";

// Prints the text of help or of the version, or the text of a usage fault followed by the fault's line.
fn print_usage(rt: &HostRuntime, fault: UsageFault) -> ExitCode {
    let mut errors = IntoWrite::new(rt.stderr());
    match fault {
        UsageFault::Help { text } | UsageFault::Version { text } => match rt.print(text.as_str()) {
            Ok(()) => ExitCode::SUCCESS,
            Err(_) => status_of(&mut errors, Err(ProgramFault::Command(CommandFault::Write))),
        },
        UsageFault::Usage { text } => {
            let _ = rt.eprint(text.as_str());
            print_fault(&mut errors, "fault Usage\n")
        }
        UsageFault::Address { text } => {
            let _ = rt.eprint(text.as_str());
            print_fault(&mut errors, "fault Address\n")
        }
        UsageFault::Memory => exit_code(
            &mut errors,
            Err(ProgramFault::Command(CommandFault::Memory)),
        ),
    }
}

// Returns the command-line arguments, without the program's name.
fn command_words(rt: &(impl Env + AllocGlobal)) -> io::Result<Vec<String>> {
    Ok(env::args(rt)?.skip(1).collect(rt.alloc())?)
}

// Returns the order that the command-line arguments give.
fn read_order(rt: &(impl Env + AllocGlobal)) -> Result<Order, UsageFault> {
    match command_words(rt) {
        Ok(words) => read_words(rt.alloc(), words.as_slice()),
        Err(error) if error.kind() == ErrorKind::OutOfMemory => Err(UsageFault::Memory),
        Err(_) => Err(UsageFault::Usage {
            text: String::from_str(rt.alloc(), NOT_UTF8)?,
        }),
    }
}

// Runs an order that reads lines from standard input to standard output, and flushes the output once.
fn run_streamed(rt: &HostRuntime, order: &Order) -> Result<u8, CommandFault>
    requires { IsStreamed order.now }
{
    let mut source = FromRead::new(rt.stdin());
    let mut sink = IntoWrite::new(rt.stdout());
    let outcome = run_command(rt.alloc(), order, &mut source, &mut sink);
    flushed(outcome, sink.into_inner().flush())
}

// Saves the messages on standard input as a journal. Its file is created at its first write.
fn pack_file(rt: &HostRuntime, order: &PackJournalOrder) -> Result<u8, ProgramFault> {
    let mut journal = open_replaced(rt, order.journal.as_str())?;
    let mut source = FromRead::new(rt.stdin());
    let mut sink = IntoWrite::new(rt.stdout());
    let outcome = run_pack_journal(
        rt.alloc(),
        &order.pack,
        &mut source,
        &mut journal,
        &mut sink,
    );
    unless_locked(flushed(outcome, sink.into_inner().flush()), journal)
}

// Checks the lines on standard input, and flushes standard output once.
fn check_input_lines(rt: &HostRuntime) -> Result<u8, CommandFault> {
    let mut source = WatchedLines::new(FromRead::new(rt.stdin()), Progress::of_unknown(rt));
    let mut sink = IntoWrite::new(rt.stdout());
    let outcome = check_lines(rt.alloc(), &mut source, &mut sink);
    source.end();
    flushed(outcome, sink.into_inner().flush())
}

// Checks the folder, and flushes standard output once.
fn check_input_folder(rt: &HostRuntime, folder: &str) -> Result<u8, CommandFault> {
    let mut progress = Progress::of_unknown(rt);
    let mut sink = IntoWrite::new(rt.stdout());
    let outcome = check_folder(rt, folder, &mut progress, &mut sink);
    progress.end();
    if let Err(CommandFault::Read) = outcome {
        ask_for_capture(rt, folder);
    }
    flushed(outcome, sink.into_inner().flush())
}

// Checks the datagrams of the input as those of one session.
fn check_input(rt: &HostRuntime, input: &InputOrder) -> Result<u8, CommandFault> {
    match input {
        InputOrder::Lines => check_input_lines(rt),
        InputOrder::Folder(folder) => check_input_folder(rt, folder.as_str()),
        InputOrder::Captures(captures) => check_captures(rt, captures),
    }
}

fn run_check(rt: &HostRuntime, order: &CheckOrder) -> Result<u8, ProgramFault> {
    match &order.judging {
        Judging::Whole { digest: false } => Ok(check_input(rt, &order.input)?),
        Judging::Whole { digest: true } => Ok(check_by_digest(rt, &order.input, false)?),
        Judging::Each { digest: false } => Ok(check_each(rt, &order.input)?),
        Judging::Each { digest: true } => Ok(check_by_digest(rt, &order.input, true)?),
        Judging::Save { journal } => check_and_save(rt, &order.input, journal.as_str()),
    }
}

// Upgrades a journal file. The new file is created when something is written to it.
fn upgrade_files(rt: &HostRuntime, order: &UpgradeOrder) -> Result<u8, ProgramFault> {
    let Ok(file) = File::open(rt, order.journal.as_str()) else {
        return Err(ProgramFault::Command(CommandFault::Read));
    };
    let mut source = FromRead::new(file);
    let mut journal = open_replaced(rt, order.to.as_str())?;
    let mut sink = IntoWrite::new(rt.stdout());
    let outcome = run_upgrade(
        rt.alloc(),
        &mut source,
        &mut journal,
        order.close,
        &mut sink,
    );
    unless_locked(flushed(outcome, sink.into_inner().flush()), journal)
}

// Prints the messages of a journal file to standard output, which is flushed once. If these are blocks, a refusal goes
// to standard error. If the order asks to follow a file of version 3, its messages are printed as they are added.
fn run_dump(rt: &HostRuntime, order: &DumpOrder) -> Result<u8, CommandFault> {
    if order.follow {
        if let Some(status) = run_follow_dump(rt, order)? {
            return Ok(status);
        }
    }
    let Ok(file) = File::open(rt, order.journal.as_str()) else {
        return Err(CommandFault::Read);
    };
    let mut source = FromRead::new(file);
    let options = DumpOptions {
        from: order.from,
        count: order.count,
        format: order.output,
    };
    let mut sink = IntoWrite::new(rt.stdout());
    let mut errors = IntoWrite::new(rt.stderr());
    let outcome = dump_file(rt.alloc(), &mut source, options, &mut sink, &mut errors);
    flushed(outcome, sink.into_inner().flush())
}

fn run(rt: &HostRuntime, order: &Order) -> Result<u8, ProgramFault> {
    match order {
        Order::Show { request: _ } => Ok(run_streamed(rt, order)?),
        Order::Pack(_) => Ok(run_streamed(rt, order)?),
        Order::PackJournal(order) => pack_file(rt, order),
        Order::Sim(_) => Ok(run_streamed(rt, order)?),
        Order::Check(order) => run_check(rt, order),
        Order::Extract(order) => run_extract(rt, order),
        Order::ShowCaptures(order) => Ok(show_captures(rt, order)?),
        Order::Sessions(order) => Ok(list_sessions(rt, order)?),
        Order::Publish(order) => run_publish(rt, order),
        Order::Feed(order) => run_feed(rt, order),
        Order::Serve(order) => run_serve(rt, order),
        Order::Listen(order) => run_listen(rt, order),
        Order::Receive(order) => run_receive(rt, order),
        Order::Record(order) => run_record(rt, order),
        Order::Loop(order) => run_loop(rt, order),
        Order::Upgrade(files) => upgrade_files(rt, files),
        Order::Close(order) => run_close(rt, order),
        Order::Dump(order) => Ok(run_dump(rt, order)?),
    }
}

// Runs the order, unless it would write a file and needs a standard stream that was closed.
fn run_unless_closed(
    rt: &HostRuntime,
    order: &Order,
    closed: ClosedStreams,
) -> Result<u8, ProgramFault> {
    match closed.fault_of(order) {
        Some(fault) => Err(ProgramFault::Command(fault)),
        None => run(rt, order),
    }
}

fn main(rt: HostRuntime) -> ExitCode {
    let mut errors = IntoWrite::new(rt.stderr());
    let closed = match ClosedStreams::open(&rt) {
        Ok(closed) => closed,
        Err(fault) => return exit_code(&mut errors, Err(ProgramFault::Command(fault))),
    };
    let order = match read_order(&rt) {
        Ok(order) => order,
        Err(fault) => return print_usage(&rt, fault),
    };
    status_of(&mut errors, run_unless_closed(&rt, &order, closed))
}
