//! Runs the orders over captures: opens the files, and reads standard input for `-`.

use crate::progress::Progress;
use mold_capture_commands::{CaptureCheck, CaptureFilter, CaptureShow, CountedSource, Sessions};
use mold_check::{DatagramCheck, FreshJudge, Judge};
use mold_devices::{CommandFault, FromRead, IntoWrite, Source};
use mold_wire::Session;
use mold_wiring::flushed;
use mold_words::CaptureOrder;
use std::alloc::{AllocError, Global};
use std::fs::File;
use std::io::{ErrorKind, Stdout, Write};

const SEE_SESSIONS: &str = "see mold sessions\n";

const ADD_EACH: &str = "the input has several sessions: add --each or --session SESSION\n";

const WITHOUT_PARTIAL: &str = "the verdict does not include the partial datagrams\n";

/// A command that reads captures one after the other.
trait CaptureCommand {
    /// Reads the capture of this name.
    fn read_next<S: Source>(
        &mut self,
        name: &str,
        filter: &CaptureFilter,
        source: &mut S,
        progress: &mut Progress<'_>,
    ) -> Result<(), CommandFault>;

    /// Notes that the capture of this name can't be read from this byte on.
    fn note_unread(&mut self, name: &str, at: u64) -> Result<(), AllocError>;
}

impl<J: Judge> CaptureCommand for CaptureCheck<J> {
    fn read_next<S: Source>(
        &mut self,
        name: &str,
        filter: &CaptureFilter,
        source: &mut S,
        progress: &mut Progress<'_>,
    ) -> Result<(), CommandFault> {
        Ok(self.read(name.as_bytes(), filter, source, progress)?)
    }

    fn note_unread(&mut self, name: &str, at: u64) -> Result<(), AllocError> {
        self.add_unread(name.as_bytes(), at)
    }
}

impl CaptureCommand for Sessions {
    fn read_next<S: Source>(
        &mut self,
        name: &str,
        filter: &CaptureFilter,
        source: &mut S,
        progress: &mut Progress<'_>,
    ) -> Result<(), CommandFault> {
        Ok(self.read(name.as_bytes(), filter, source, progress)?)
    }

    fn note_unread(&mut self, name: &str, at: u64) -> Result<(), AllocError> {
        self.add_unread(name.as_bytes(), at)
    }
}

/// The command `show --capture`, which prints while it reads.
#[derive(Drop)]
struct Shown {
    show: CaptureShow,
    sink: IntoWrite<Stdout>,
}

impl CaptureCommand for Shown {
    // The output is its progress.
    fn read_next<S: Source>(
        &mut self,
        name: &str,
        filter: &CaptureFilter,
        source: &mut S,
        _progress: &mut Progress<'_>,
    ) -> Result<(), CommandFault> {
        self.show
            .read(name.as_bytes(), filter, source, &mut self.sink)
    }

    fn note_unread(&mut self, name: &str, at: u64) -> Result<(), AllocError> {
        self.show.add_unread(name.as_bytes(), at)
    }
}

// Returns the filter of an order.
fn filter_of(alloc: Global, order: &CaptureOrder) -> Result<CaptureFilter, AllocError> {
    let mut filter = CaptureFilter {
        ports: Vec::new(alloc),
        groups: Vec::new(alloc),
        session: order.session.map(|name| Session(name)),
    };
    filter.ports.extend_from_slice(order.ports.as_slice())?;
    filter.groups.extend_from_slice(order.groups.as_slice())?;
    Ok(filter)
}

// Reads the capture of this name from the source. If a read fails, what was read before counts, and the command notes
// how many bytes that was.
fn read_source<C: CaptureCommand, S: Source + Drop>(
    name: &str,
    filter: &CaptureFilter,
    source: S,
    command: &mut C,
    progress: &mut Progress<'_>,
) -> Result<(), CommandFault> {
    let mut source = CountedSource::new(source);
    match command.read_next(name, filter, &mut source, progress) {
        Err(CommandFault::Read) => Ok(command.note_unread(name, source.count())?),
        outcome => outcome,
    }
}

// Reads one capture. A name other than `-` is that of a file. The command notes a file that can't be opened.
fn read_capture<C: CaptureCommand>(
    rt: &HostRuntime,
    name: &str,
    filter: &CaptureFilter,
    command: &mut C,
    progress: &mut Progress<'_>,
) -> Result<(), CommandFault> {
    progress.begin();
    if name == "-" {
        let source = FromRead::new(rt.stdin());
        return read_source(name, filter, source, command, progress);
    }
    match File::open(rt, name) {
        Ok(file) => read_source(name, filter, FromRead::new(file), command, progress),
        Err(error) if error.kind() == ErrorKind::OutOfMemory => Err(CommandFault::Memory),
        Err(_) => Ok(command.note_unread(name, 0)?),
    }
}

// Reads the captures of the order one after the other. One that can't be read does not end the command.
fn read_captures<C: CaptureCommand>(
    rt: &HostRuntime,
    order: &CaptureOrder,
    command: &mut C,
    progress: &mut Progress<'_>,
) -> Result<(), CommandFault> {
    let filter = filter_of(rt.alloc(), order)?;
    for name in &order.captures {
        read_capture(rt, name.as_str(), &filter, command, progress)?;
    }
    Ok(())
}

// Reads the captures of the order. Meanwhile, a line on a terminal states how far they are read.
fn read_watched<C: CaptureCommand>(
    rt: &HostRuntime,
    order: &CaptureOrder,
    command: &mut C,
) -> Result<(), CommandFault> {
    let mut progress = Progress::of_captures(rt, order.captures.as_slice());
    let outcome = read_captures(rt, order, command, &mut progress);
    progress.end();
    outcome
}

/// Reads the captures of the order, and adds their datagrams to the judge.
pub(crate) fn read_capture_check<J: Judge>(
    rt: &HostRuntime,
    order: &CaptureOrder,
    judge: J,
) -> Result<CaptureCheck<J>, CommandFault> {
    let mut check = CaptureCheck::over(rt.alloc(), judge);
    read_watched(rt, order, &mut check)?;
    Ok(check)
}

/// States on standard error where the refused datagram is. If a request to a server may have been taken for a packet,
/// it refers to `mold sessions`.
pub(crate) fn explain_refusal<J: Judge>(rt: &HostRuntime, check: &CaptureCheck<J>) {
    let _ = rt.stderr().write_all(check.place());
    if check.sees_other_target() {
        let _ = rt.eprint(SEE_SESSIONS);
    }
}

/// States on standard error how the input is checked if it has several sessions, and what a verdict `whole` leaves out.
pub(crate) fn explain_verdict<J: Judge>(rt: &HostRuntime, check: &CaptureCheck<J>) {
    if check.sees_several_sessions() {
        let _ = rt.eprint(ADD_EACH);
    }
    if let Ok(true) = check.leaves_out_partial() {
        let _ = rt.eprint(WITHOUT_PARTIAL);
    }
}

/// Checks the datagrams of the captures, and flushes standard output once. A refusal is explained on standard error.
pub(crate) fn check_captures(rt: &HostRuntime, order: &CaptureOrder) -> Result<u8, CommandFault> {
    let check = read_capture_check(rt, order, DatagramCheck::new(rt.alloc()))?;
    let mut sink = IntoWrite::new(rt.stdout());
    let outcome = check.print(&mut sink);
    let status = flushed(outcome, sink.into_inner().flush())?;
    explain_refusal(rt, &check);
    explain_verdict(rt, &check);
    Ok(status)
}

/// Lists the sessions of the captures, and flushes standard output once.
pub(crate) fn list_sessions(rt: &HostRuntime, order: &CaptureOrder) -> Result<u8, CommandFault> {
    let mut sessions = Sessions::new(rt.alloc());
    read_watched(rt, order, &mut sessions)?;
    let mut sink = IntoWrite::new(rt.stdout());
    let outcome = sessions.print(&mut sink);
    flushed(outcome, sink.into_inner().flush())
}

/// Prints the datagrams of the captures as they are read, and flushes standard output once.
pub(crate) fn show_captures(rt: &HostRuntime, order: &CaptureOrder) -> Result<u8, CommandFault> {
    let mut shown = Shown {
        show: CaptureShow::new(rt.alloc()),
        sink: IntoWrite::new(rt.stdout()),
    };
    let outcome = read_watched(rt, order, &mut shown);
    let Shown { show, sink } = shown;
    let mut sink = sink;
    let outcome = match outcome {
        Ok(()) => show.end(&mut sink),
        Err(fault) => Err(fault),
    };
    flushed(outcome, sink.into_inner().flush())
}
