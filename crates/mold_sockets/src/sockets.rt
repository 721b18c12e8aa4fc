//! The commands whose ports are UDP sockets.

ghost use Rattle.mold_wire.specs.declared.limits.TheConstants.{MESSAGE_OVERHEAD};
ghost use Rattle.std.specs.Prelude.{◌≡◌, ◌-◌};
ghost use Rattle.mold_session.specs.Journal.{JournalState};
ghost use Rattle.mold_input.specs.Formats.{entries_of, kind_of};
ghost use Rattle.mold_wiring.specs.Addresses.{IsSocketOf};

use crate::following::{end_unserved, open_served, serve_followed};
use crate::options::{listen_options, publish_options, serve_turns};
use crate::replacing::{open_replaced, unless_locked};
use crate::streams::{standard_output, tell_refused};
use mold_devices::{CommandFault, FromRead, IntoWrite};
use mold_durable::{FollowedFile, ReplacedFile};
use mold_indexed_file::open_indexed;
use mold_input::{BlocksToEmpty, HexLines, MessageBlocks, MessageFormat, MessageReader};
use mold_listen::{ListenPorts, listen};
use mold_ports::UdpPort;
use mold_send::{PublishDevices, publish};
use mold_serve::serve_loop;
use mold_session::ServedJournal;
use mold_wiring::{
    ProgramFault, flushed, load_journal, longest_message, make_arbiter, make_publisher,
    make_server, open_port,
};
use mold_words::{Address, ListenOrder, PublishOrder, ServeOrder};
use std::fs::File;
use std::io::Write;

/// An address at which the system chooses the port, on every address of the machine.
const ANY: Address = Address {
    host: [0; 4],
    port: 0,
};

/// The greatest length of a regular file that is loaded into memory, in bytes. A response from memory takes less time.
const MOST_LOADED: u64 = 1 << 24;

/// Serves a journal over a port, which is opened after the journal was read. The messages of a regular file of more than
/// 16,777,216 bytes stay in the file. The journal of any other file, such as a pipe, is loaded into memory. If the order
/// asks to follow a file of version 3, new records are read while it serves. If the file cannot be opened, the fault is
/// `Read`.
pub fn run_serve(rt: &HostRuntime, order: &ServeOrder) -> Result<u8, ProgramFault> {
    if order.follow {
        if let Some(follower) = open_served(rt, order)? {
            return serve_followed(rt, order, follower);
        }
    }
    let Ok(file) = File::open(rt, order.journal.as_str()) else {
        return Err(ProgramFault::Command(CommandFault::Read));
    };
    match file.metadata() {
        Ok(found) if found.is_file() && found.len() > MOST_LOADED => serve_file(rt, order, file),
        _ => serve_loaded(rt, order, file),
    }
}

// Serves the journal in a large regular file. Only the index of its messages is in memory.
fn serve_file(rt: &HostRuntime, order: &ServeOrder, file: File) -> Result<u8, ProgramFault> {
    let Ok(served) = file.try_clone() else {
        return Err(ProgramFault::Command(CommandFault::Read));
    };
    let most = longest_message(order.limit);
    let served = FollowedFile::new(served);
    match open_indexed(rt.alloc(), most, served, &mut FromRead::new(file)) {
        Ok(mut journal) => serve_journal(rt, order, &mut journal),
        Err(error) => Ok(end_unserved(rt, error)?),
    }
}

// Serves the journal in a small file, or in one that can be read only once. All its messages are in memory.
fn serve_loaded(rt: &HostRuntime, order: &ServeOrder, file: File) -> Result<u8, ProgramFault> {
    match load_journal(rt.alloc(), order, &mut FromRead::new(file))? {
        Ok(journal) => {
            let mut journal = &journal;
            serve_journal(rt, order, &mut journal)
        }
        Err(error) => Ok(tell_refused(rt, error)?),
    }
}

// Opens the port at the order's address, and serves the journal over it.
fn serve_journal<J: ServedJournal>(
    rt: &HostRuntime,
    order: &ServeOrder,
    journal: &mut J,
) -> Result<u8, ProgramFault>
    requires { (shown : JournalState) → J.shows journal.old shown →
        shown.max_message ≡ order.now.limit - MESSAGE_OVERHEAD }
{
    let mut port = open_port(rt, order.bind)?;
    Ok(serve_on(rt, order, &mut port, journal)?)
}

// Serves the journal over the port, which was opened at the order's address.
fn serve_on<J: ServedJournal>(
    rt: &HostRuntime,
    order: &ServeOrder,
    port: &mut UdpPort,
    journal: &mut J,
) -> Result<u8, CommandFault>
    requires bound { IsSocketOf order.now.bind port.old.bound }
    requires longest { (shown : JournalState) → J.shows journal.old shown →
        shown.max_message ≡ order.now.limit - MESSAGE_OVERHEAD }
{
    let mut server = make_server(rt.alloc(), order)?;
    let mut sink = standard_output(rt, order.live);
    let outcome = serve_loop(
        rt.alloc(),
        port,
        &mut server,
        journal,
        serve_turns(order),
        &mut sink,
    );
    flushed(outcome, sink.into_inner().flush())
}

/// Listens on two ports, and sends requests from a third one. A wait on a line also ends when the other line has a
/// datagram, and a wait for a response when either line has one. A response does not end a wait on a line. If it did, a
/// late response, which stays at its port, would end every such wait.
pub fn run_listen(rt: &HostRuntime, order: &ListenOrder) -> Result<u8, ProgramFault> {
    let mut a = open_port(rt, order.a)?;
    let mut b = open_port(rt, order.b)?;
    let mut requests = open_port(rt, ANY)?;
    a.stand_beside(&b);
    b.stand_beside(&a);
    requests.stand_beside(&a);
    requests.stand_beside(&b);
    Ok(listen_on(rt, order, &mut ListenPorts { a, b, requests })?)
}

// Listens on the ports. Those of the lines were opened at the order's addresses.
fn listen_on(
    rt: &HostRuntime,
    order: &ListenOrder,
    ports: &mut ListenPorts<UdpPort>,
) -> Result<u8, CommandFault>
    requires a { IsSocketOf order.now.a ports.old.a.bound }
    requires b { IsSocketOf order.now.b ports.old.b.bound }
{
    let mut arbiter = make_arbiter(rt.alloc(), order)?;
    let mut sink = standard_output(rt, order.live);
    let mut errors = IntoWrite::new(rt.stderr());
    let options = listen_options(order);
    let outcome = listen(
        rt.alloc(),
        ports,
        options,
        &mut arbiter,
        &mut sink,
        &mut errors,
    );
    let outcome = flushed(outcome, sink.into_inner().flush());
    flushed(outcome, errors.into_inner().flush())
}

/// Publishes the messages of standard input on lines A and B, from a port that the system chooses. The order states how
/// the input encodes the messages. The journal's file is locked before the port is opened if it exists, and created at
/// its first write.
pub fn run_publish(rt: &HostRuntime, order: &PublishOrder) -> Result<u8, ProgramFault> {
    let journal = open_replaced(rt, order.journal.as_str())?;
    let mut port = open_port(rt, ANY)?;
    match order.input {
        MessageFormat::Lines => publish_on::<HexLines>(rt, order, &mut port, journal),
        MessageFormat::Blocks => publish_on::<MessageBlocks>(rt, order, &mut port, journal),
        MessageFormat::BlocksToEmpty => publish_on::<BlocksToEmpty>(rt, order, &mut port, journal),
    }
}

// Publishes from the port, and saves the journal. The reader `M` reads the messages that the order's input holds.
fn publish_on<M: MessageReader>(
    rt: &HostRuntime,
    order: &PublishOrder,
    port: &mut UdpPort,
    journal: IntoWrite<ReplacedFile<'_>>,
) -> Result<u8, ProgramFault>
    requires kind { M.input_kind ≡ kind_of order.now.input }
    requires entries { M.entries ≡ entries_of order.now.input }
{
    let Ok(mut publisher) = make_publisher(rt.alloc(), order) else {
        return Err(ProgramFault::Command(CommandFault::Memory));
    };
    let mut devices = PublishDevices {
        source: FromRead::new(rt.stdin()),
        sink: IntoWrite::new(rt.stdout()),
        journal,
    };
    let options = publish_options(order);
    let outcome = publish::<M, _, _, _, _>(rt.alloc(), port, options, &mut publisher, &mut devices);
    let PublishDevices { sink, journal, .. } = devices;
    unless_locked(flushed(outcome, sink.into_inner().flush()), journal)
}
