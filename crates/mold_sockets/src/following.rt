//! The commands `serve` and `dump` over a journal file of version 3 that another process writes.

ghost use Rattle.mold_wire.specs.declared.limits.TheConstants.{MESSAGE_OVERHEAD};
ghost use Rattle.mold_wiring.specs.Addresses.{IsSocketOf};
ghost use Rattle.mold_wiring.specs.Wiring.{server_of};
ghost use Rattle.std.specs.Prelude.{◌≡◌, ◌≤◌, ◌-◌, IfOk, IfSome};

use crate::options::serve_turns;
use crate::streams::{standard_output, tell_refused};
use mold_devices::{CommandFault, IntoWrite};
use mold_durable::{FollowedFile, Follower, OpenError, RecordFollower};
use mold_follow::{
    DumpDevices, FollowingServer, catch_up, device_fault, follow_dump, follow_serve, index_followed,
};
use mold_indexed_file::IndexedFile;
use mold_port_set::UdpPortSet;
use mold_ports::UdpPort;
use mold_serve::Tally;
use mold_session::{FileError, Server};
use mold_show::DumpOptions;
use mold_wire::MAX_MESSAGE;
use mold_wiring::{ProgramFault, flushed, longest_message, make_server, open_port};
use mold_words::{DumpOrder, ServeOrder};
use std::fs::File;
use std::io::Write;

// Opens the journal in a file of version 3, or returns `None` for any other file. If the file cannot be opened, the
// fault is `Read`.
fn open_follower(
    rt: &HostRuntime,
    path: &str,
    max_message: u16,
) -> Result<Option<Follower<FollowedFile>>, CommandFault>
    ensures { IfOk result (λ opened. IfSome opened (λ follower. follower.max_message ≡ max_message)) }
{
    let Ok(file) = File::open(rt, path) else {
        return Err(CommandFault::Read);
    };
    match Follower::open(rt.alloc(), max_message, FollowedFile::new(file)) {
        Ok(follower) => Ok(Some(follower)),
        Err(OpenError::Read) => Err(CommandFault::Read),
        Err(OpenError::Memory) => Err(CommandFault::Memory),
        Err(_) => Ok(None),
    }
}

/// Opens the journal that the order asks to serve, if its file has version 3. Returns `None` for any other file. If the
/// file cannot be opened, the fault is `Read`.
pub(crate) fn open_served(
    rt: &HostRuntime,
    order: &ServeOrder,
) -> Result<Option<Follower<FollowedFile>>, CommandFault>
    ensures { IfOk result (λ opened. IfSome opened (λ follower.
        follower.max_message ≡ order.now.limit - MESSAGE_OVERHEAD)) }
{
    open_follower(rt, order.journal.as_str(), longest_message(order.limit))
}

/// Ends the command before the port is opened, because of an error of the file.
pub(crate) fn end_unserved(rt: &HostRuntime, error: FileError) -> Result<u8, CommandFault> {
    match device_fault(error) {
        Some(fault) => Err(fault),
        None => tell_refused(rt, error),
    }
}

/// Serves the journal of the follower over a port, which is opened after the records that the file has were read.
pub(crate) fn serve_followed(
    rt: &HostRuntime,
    order: &ServeOrder,
    follower: Follower<FollowedFile>,
) -> Result<u8, ProgramFault>
    requires { follower.max_message ≡ order.now.limit - MESSAGE_OVERHEAD }
{
    let Ok((mut indexed, mut records)) = index_followed(rt.alloc(), follower) else {
        return Err(ProgramFault::Command(CommandFault::Memory));
    };
    match catch_up(&mut indexed, &mut records) {
        Ok(()) => serve_indexed(rt, order, indexed, records),
        Err(error) => Ok(end_unserved(rt, error)?),
    }
}

// A server and its port.
#[derive(Drop)]
struct ServerPort {
    server: Server,
    port: UdpPort,
}

// Opens the port at the order's address, and makes the server.
fn open_server(rt: &HostRuntime, order: &ServeOrder) -> Result<ServerPort, ProgramFault>
    ensures bound { IfOk result (λ opened. IsSocketOf order.now.bind opened.port.bound) }
    ensures server { IfOk result (λ opened. opened.server ≡ server_of order.now) }
{
    let port = open_port(rt, order.bind)?;
    match make_server(rt.alloc(), order) {
        Ok(server) => Ok(ServerPort { server, port }),
        Err(_) => Err(ProgramFault::Command(CommandFault::Memory)),
    }
}

// Serves the messages of the file that the follower returned.
fn serve_indexed(
    rt: &HostRuntime,
    order: &ServeOrder,
    indexed: IndexedFile<FollowedFile>,
    follower: RecordFollower,
) -> Result<u8, ProgramFault>
    requires { follower.max_message ≡ order.now.limit - MESSAGE_OVERHEAD }
{
    let ServerPort { server, port } = open_server(rt, order)?;
    let mut serving = FollowingServer {
        indexed,
        follower,
        server,
        port,
        tally: Tally::new(rt.alloc()),
    };
    serve_over(rt, order, &mut serving)
}

// Makes the turns of the server, whose port was opened at the order's address.
fn serve_over(
    rt: &HostRuntime,
    order: &ServeOrder,
    serving: &mut FollowingServer<FollowedFile, UdpPort>,
) -> Result<u8, ProgramFault>
    requires bound { IsSocketOf order.now.bind serving.old.port.bound }
    requires longest { serving.old.follower.max_message ≤ serving.old.server.max_message }
{
    let mut sink = standard_output(rt, order.live);
    let outcome = follow_serve(rt.alloc(), serving, serve_turns(order), &mut sink);
    Ok(flushed(outcome, sink.into_inner().flush())?)
}

// Prints the messages that the follower reads, each look's text at once.
fn dump_followed(
    rt: &HostRuntime,
    order: &DumpOrder,
    follower: &mut Follower<FollowedFile>,
) -> Result<u8, CommandFault> {
    let options = DumpOptions {
        from: order.from,
        count: order.count,
        format: order.output,
    };
    let mut devices = DumpDevices {
        clock: UdpPortSet::new(rt),
        sink: IntoWrite::live(rt.stdout()),
        errors: IntoWrite::new(rt.stderr()),
    };
    let outcome = follow_dump(rt.alloc(), follower, options, u64::MAX, &mut devices);
    let DumpDevices { sink, errors, .. } = devices;
    // No dump makes all looks.
    let outcome = match outcome {
        Ok(ended) => Ok(ended.unwrap_or(0)),
        Err(fault) => Err(fault),
    };
    let outcome = flushed(outcome, sink.into_inner().flush());
    flushed(outcome, errors.into_inner().flush())
}

/// Prints the messages of the order's journal as another process adds them, each look's text at once. Returns `None` if
/// the file is not of version 3. If the file cannot be opened, the fault is `Read`.
pub fn run_follow_dump(rt: &HostRuntime, order: &DumpOrder) -> Result<Option<u8>, CommandFault> {
    match open_follower(rt, order.journal.as_str(), MAX_MESSAGE)? {
        Some(mut follower) => Ok(Some(dump_followed(rt, order, &mut follower)?)),
        None => Ok(None),
    }
}
