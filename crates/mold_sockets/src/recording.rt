//! The command `receive` with a journal, over UDP sockets.

ghost use Rattle.std.specs.Prelude.{◌≡◌, [], None, false, IfOk};

use crate::receiving::{open_ports, open_session, receive_options, start_of};
use crate::replacing::fault_of;
use crate::unsynced_file::UnsyncedFile;
use mold_devices::{CommandFault, IntoWrite, write_all};
use mold_durable::{DurableJournal, OpenError, Storage, create_file, open_file, sync_folder};
use mold_follow::{device_fault, load_error};
use mold_input::MessageFormat;
use mold_port_set::{PortSet, UdpPortSet};
use mold_receive::{Opened, ReceiveOptions, ReceiveParts, Unopened, end_unopened};
use mold_recorder::record_loop;
use mold_session::FileError;
use mold_text::{Word, push_line};
use mold_wire::Session;
use mold_wiring::{ProgramFault, flushed, make_repairer, print_file_refusal};
use mold_words::RecordOrder;
use std::alloc::Global;
use std::io::{Stderr, Write};
use std::net::SocketAddrV4;

/// The greatest length of a message that a journal keeps, which is that of a packet.
const MAX_KEPT: u16 = u16::MAX;

/// The number at which a new journal starts.
const FIRST: u64 = 1;

/// The status of a command that refuses its journal file.
const REFUSED: u8 = 2;

// A session that is received and kept.
#[derive(Drop)]
struct Recording<S> {
    journal: DurableJournal<S>,
    // The ports, and a packet that they gave before, which is taken first.
    opened: Opened<UdpPortSet>,
}

// Prints a line of words on standard error.
fn print_words(
    alloc: Global,
    words: &[Word<'_>],
    errors: &mut IntoWrite<Stderr>,
) -> Result<(), CommandFault> {
    let mut text = Vec::new(alloc);
    push_line(&mut text, words)?;
    match write_all(errors, &text) {
        Ok(()) => Ok(()),
        Err(_) => Err(CommandFault::Write),
    }
}

// Prints why the file is refused, and returns the status, unless a device or an allocation failed.
fn refuse(
    alloc: Global,
    error: FileError,
    errors: &mut IntoWrite<Stderr>,
) -> Result<u8, CommandFault> {
    match device_fault(error) {
        Some(fault) => Err(fault),
        None => print_file_refusal(alloc, error, errors),
    }
}

// Prints that the file has another session, and returns the status.
fn refuse_session(alloc: Global, errors: &mut IntoWrite<Stderr>) -> Result<u8, CommandFault> {
    let words = [Word::Text(b"refused"), Word::Text(b"WrongSession")];
    print_words(alloc, &words, errors)?;
    Ok(REFUSED)
}

// Prints the last line for a session that is kept to its end, and returns the status.
fn end_closed(
    alloc: Global,
    next: u64,
    errors: &mut IntoWrite<Stderr>,
) -> Result<u8, CommandFault> {
    let words = [
        Word::Text(b"finished"),
        Word::Text(b"next"),
        Word::Number(next),
        Word::Text(b"lost"),
        Word::Number(0),
        Word::Text(b"failed"),
        Word::Number(0),
    ];
    print_words(alloc, &words, errors)?;
    Ok(0)
}

// Returns the options of the loop, by which all text is printed on standard error.
fn options_of(
    alloc: Global,
    order: &RecordOrder,
) -> Result<ReceiveOptions<SocketAddrV4>, CommandFault> {
    Ok(receive_options(alloc, &order.receive, MessageFormat::Blocks)?)
}

// Receives the session from the ports, and keeps it in the journal.
fn record_in<S: Storage + Drop>(
    alloc: Global,
    order: &RecordOrder,
    journal: &mut DurableJournal<S>,
    opened: Opened<UdpPortSet>,
    errors: &mut IntoWrite<Stderr>,
) -> Result<u8, CommandFault>
    requires open { journal.old.closed ≡ false }
    requires none { journal.old.waiting ≡ [] }
{
    let options = options_of(alloc, order)?;
    let repairer = make_repairer(alloc, &order.receive, journal.session(), journal.next())?;
    let parts = ReceiveParts {
        ports: opened.ports,
        repairer,
        first: opened.first,
    };
    Ok(record_loop(alloc, parts, &options, journal, errors)?.status)
}

// Receives the session, and keeps it in the journal. The name of its file is durable before the first message is.
fn keep<S: Storage + Drop>(
    rt: &HostRuntime,
    order: &RecordOrder,
    recording: Recording<S>,
    errors: &mut IntoWrite<Stderr>,
) -> Result<u8, ProgramFault>
    requires open { recording.journal.closed ≡ false }
    requires none { recording.journal.waiting ≡ [] }
{
    if order.sync {
        let path = order.journal.as_str();
        if let Err(error) = sync_folder(rt, path) {
            return Err(fault_of(rt, path, error));
        }
    }
    let Recording {
        mut journal,
        opened,
    } = recording;
    Ok(record_in(rt.alloc(), order, &mut journal, opened, errors)?)
}

// Prints what is known of a journal that was opened: that it is of another session, or how many messages it has and
// whether the session is finished. Returns the status if the command ends with that.
fn begin_resumed<S: Storage + Drop>(
    alloc: Global,
    order: &RecordOrder,
    journal: &DurableJournal<S>,
    errors: &mut IntoWrite<Stderr>,
) -> Result<Option<u8>, CommandFault>
    ensures { IfOk result (λ ended. ended ≡ None → journal.now.closed ≡ false) }
{
    match order.receive.session {
        Some(name) if Session(name) != journal.session() => {
            return Ok(Some(refuse_session(alloc, errors)?));
        }
        _ => {}
    }
    let words = [Word::Text(b"resumed"), Word::Number(journal.committed())];
    print_words(alloc, &words, errors)?;
    if journal.is_closed() {
        return Ok(Some(end_closed(alloc, journal.next(), errors)?));
    }
    Ok(None)
}

// Continues the journal in the storage, if it is one of the order's session.
fn resume<S: Storage + Drop>(
    rt: &HostRuntime,
    order: &RecordOrder,
    storage: S,
    errors: &mut IntoWrite<Stderr>,
) -> Result<u8, ProgramFault> {
    let alloc = rt.alloc();
    let journal = match DurableJournal::open(alloc, MAX_KEPT, storage) {
        Ok(journal) => journal,
        Err(fault) => return Ok(refuse(alloc, load_error(fault.error), errors)?),
    };
    if let Some(status) = begin_resumed(alloc, order, &journal, errors)? {
        return Ok(status);
    }
    let ports = open_ports(rt, &order.receive)?;
    let recording = Recording {
        journal,
        opened: Opened { ports, first: None },
    };
    keep(rt, order, recording, errors)
}

// Keeps the session in the storage, which has a new journal.
fn start<S: Storage + Drop>(
    rt: &HostRuntime,
    order: &RecordOrder,
    storage: S,
    opened: Opened<UdpPortSet>,
    errors: &mut IntoWrite<Stderr>,
) -> Result<u8, ProgramFault> {
    let journal = match DurableJournal::open(rt.alloc(), MAX_KEPT, storage) {
        Ok(journal) if !journal.is_closed() => journal,
        Err(fault) if fault.error == OpenError::Memory => {
            return Err(ProgramFault::Command(CommandFault::Memory));
        }
        // Only this process writes the file, so a read or the sync failed.
        _ => return Err(ProgramFault::Command(CommandFault::Write)),
    };
    keep(rt, order, Recording { journal, opened }, errors)
}

// Prints the last line of a receiver that received no first packet, and returns the status.
fn end_unlearned(
    rt: &HostRuntime,
    failures: u64,
    options: &ReceiveOptions<SocketAddrV4>,
    errors: &mut IntoWrite<Stderr>,
) -> Result<u8, CommandFault> {
    let numbers = Unopened {
        next: FIRST,
        failures,
    };
    let mut sink = IntoWrite::new(rt.stdout());
    end_unopened(rt.alloc(), numbers, options, &mut sink, errors)
}

// Keeps the session in a new file. If the order does not name the session, the file is created when it is known.
fn begin(
    rt: &HostRuntime,
    order: &RecordOrder,
    errors: &mut IntoWrite<Stderr>,
) -> Result<u8, ProgramFault> {
    let ports = open_ports(rt, &order.receive)?;
    let options = options_of(rt.alloc(), order)?;
    let opened = open_session(rt.alloc(), &order.receive, ports, &options, errors)?;
    let Some((session, _)) = start_of(&order.receive, &opened.first) else {
        return Ok(end_unlearned(rt, opened.ports.failures(), &options, errors)?);
    };
    let path = order.journal.as_str();
    let created = match create_file(rt, path, session, MAX_KEPT) {
        Ok(created) => created,
        Err(error) => return Err(fault_of(rt, path, error)),
    };
    // Another process has created the file since it was looked for.
    let Some(journal) = created else {
        return Err(ProgramFault::Locked);
    };
    let storage = journal.into_storage();
    if order.sync {
        start(rt, order, storage, opened, errors)
    } else {
        start(rt, order, UnsyncedFile::new(storage), opened, errors)
    }
}

// Keeps the session in the order's file, which is created if it does not exist.
fn record(
    rt: &HostRuntime,
    order: &RecordOrder,
    errors: &mut IntoWrite<Stderr>,
) -> Result<u8, ProgramFault> {
    let path = order.journal.as_str();
    match open_file(rt, path) {
        Ok(Some(storage)) if order.sync => resume(rt, order, storage, errors),
        Ok(Some(storage)) => resume(rt, order, UnsyncedFile::new(storage), errors),
        Ok(None) => begin(rt, order, errors),
        Err(error) => Err(fault_of(rt, path, error)),
    }
}

/// Receives a session on one or two lines, requests what is missing, and keeps the messages in a journal file. All text
/// is printed on standard error. A file that exists is continued, unless it is not a journal of the session.
pub fn run_record(rt: &HostRuntime, order: &RecordOrder) -> Result<u8, ProgramFault> {
    let mut errors = IntoWrite::new(rt.stderr());
    let status = record(rt, order, &mut errors)?;
    Ok(flushed(Ok(status), errors.into_inner().flush())?)
}
