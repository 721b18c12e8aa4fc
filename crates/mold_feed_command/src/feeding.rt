//! The command `feed`: it opens the journal file and the ports, and runs the loop.

ghost use Rattle.std.specs.Prelude.{◌≤◌};
ghost use Rattle.mold_feeder.specs.Input.{IsInput};

use crate::feed_sockets::FeedSockets;
use crate::options::feed_options;
use crate::refusing::{fault_of, refuse, refuse_start};
use crate::request_port::RequestPort;
use mold_devices::{CommandFault, FromRead, IntoWrite, Sink, Source};
use mold_durable::{FileStorage, create_file, open_file, sync_folder};
use mold_durable_publisher::DurablePublisher;
use mold_feeder::{Feed, Feeder, JournalMessages, PieceInput, PieceReader, Requests, feed_loop};
use mold_input::{HexLines, MessageBlocks, MessageFormat};
use mold_session::{FileError, Server};
use mold_stored_journal::StoredJournal;
use mold_wire::Session;
use mold_wiring::{ProgramFault, flushed, longest_message, socket_address};
use mold_words::FeedOrder;
use std::alloc::Global;
use std::fs::File;
use std::io::Write;
use std::net::Ipv4Addr;

// The ports of the command.
#[derive(Drop)]
struct Ports {
    lines: FeedSockets,
    requests: RequestPort,
}

// Opens the ports of the order.
fn open_ports(rt: &HostRuntime, order: &FeedOrder) -> Result<Ports, ProgramFault> {
    let bind = match order.bind {
        Some(address) => Some(socket_address(address)),
        None => None,
    };
    let Ok(requests) = RequestPort::bind(rt, bind) else {
        return Err(ProgramFault::Socket);
    };
    let lines = order.lines;
    let a = Ipv4Addr::from_octets(lines.interface_a);
    let b = match lines.b {
        Some(_) => Some(Ipv4Addr::from_octets(lines.interface_b)),
        None => None,
    };
    match FeedSockets::bind(rt, a, b, lines.ttl, requests.descriptor()) {
        Ok(lines) => Ok(Ports { lines, requests }),
        Err(_) => Err(ProgramFault::Socket),
    }
}

// Opens the journal's file once more, for its messages, with which the input is compared.
fn open_messages(
    rt: &HostRuntime,
    order: &FeedOrder,
) -> Result<JournalMessages<FromRead<File>>, CommandFault> {
    let Ok(file) = File::open(rt, order.journal.as_str()) else {
        return Err(CommandFault::Read);
    };
    match JournalMessages::open(rt.alloc(), FromRead::new(file)) {
        Ok(journal) => Ok(journal),
        Err(FileError::Memory) => Err(CommandFault::Memory),
        Err(_) => Err(CommandFault::Read),
    }
}

// Publishes the messages of the input, and prints the last line.
fn run<M: PieceReader, K: Source + Drop>(
    rt: &HostRuntime,
    order: &FeedOrder,
    feed: &mut Feed<FileStorage, FeedSockets, RequestPort, M, K>,
    resumed: bool,
) -> Result<u8, CommandFault>
    requires longest { feed.old.feeder.publisher.publisher.journal.max_message
        ≤ feed.old.requests.server.max_message }
    requires input { IsInput M.is_part M.unread K.left feed.old.input }
{
    let mut sink = IntoWrite::new(rt.stdout());
    let mut journal = open_messages(rt, order)?;
    let options = feed_options(order, resumed);
    let outcome = feed_loop(rt.alloc(), feed, &options, &mut journal, &mut sink);
    flushed(outcome, sink.into_inner().flush())
}

// Publishes the messages of standard input, which the reader `M` reads.
fn feed_on<M: PieceReader>(
    rt: &HostRuntime,
    order: &FeedOrder,
    feeder: Feeder<FileStorage, FeedSockets>,
    requests: Requests<RequestPort>,
    resumed: bool,
) -> Result<u8, CommandFault>
    requires { feeder.publisher.publisher.journal.max_message ≤ requests.server.max_message }
{
    let to_empty = matches!(order.input, MessageFormat::BlocksToEmpty);
    let input = PieceInput::<M, _>::new(rt.alloc(), FromRead::new(rt.stdin()), to_empty)?;
    let mut feed = Feed {
        feeder,
        requests,
        input,
    };
    run(rt, order, &mut feed, resumed)
}

// Publishes the messages of standard input, in the order's form.
fn feed_input(
    rt: &HostRuntime,
    order: &FeedOrder,
    publisher: DurablePublisher<FileStorage>,
    ports: Ports,
    resumed: bool,
) -> Result<u8, CommandFault> {
    let longest = publisher.max_message();
    // The numbers of an order are in range, so an error means out of memory.
    let Ok(server) = Server::new(rt.alloc(), order.limit, longest, order.burst) else {
        return Err(CommandFault::Memory);
    };
    let Ports { lines, requests } = ports;
    let feeder = Feeder::new(publisher, lines, order.times.rate, order.times.idle);
    let requests = Requests::new(requests, server);
    match order.input {
        MessageFormat::Lines => feed_on::<HexLines>(rt, order, feeder, requests, resumed),
        MessageFormat::Blocks | MessageFormat::BlocksToEmpty => {
            feed_on::<MessageBlocks>(rt, order, feeder, requests, resumed)
        }
    }
}

// Publishes the messages of standard input. The name of the journal's file is durable before the first message is.
fn feed(
    rt: &HostRuntime,
    order: &FeedOrder,
    publisher: DurablePublisher<FileStorage>,
    ports: Ports,
    resumed: bool,
) -> Result<u8, ProgramFault> {
    let path = order.journal.as_str();
    match sync_folder(rt, path) {
        Ok(()) => Ok(feed_input(rt, order, publisher, ports, resumed)?),
        Err(error) => Err(fault_of(rt, path, error)),
    }
}

// Prints why the session of a file is not continued, if the order does not allow it, and returns the status.
fn refuse_other<K: Sink>(
    alloc: Global,
    order: &FeedOrder,
    publisher: &DurablePublisher<FileStorage>,
    sink: &mut K,
) -> Result<Option<u8>, CommandFault> {
    if publisher.session() != Session(order.session) {
        return Ok(Some(refuse(alloc, b"WrongSession", sink)?));
    }
    if publisher.is_closed() && order.append {
        return Ok(Some(refuse(alloc, b"Closed", sink)?));
    }
    Ok(None)
}

// Continues the session of the file in this storage, if it is the order's.
fn resume(rt: &HostRuntime, order: &FeedOrder, storage: FileStorage) -> Result<u8, ProgramFault> {
    let mut sink = IntoWrite::new(rt.stdout());
    let publisher = match DurablePublisher::open(rt.alloc(), order.limit, storage) {
        Ok(publisher) => publisher,
        Err(error) => return Ok(refuse_start(rt.alloc(), error, &mut sink)?),
    };
    if let Some(status) = refuse_other(rt.alloc(), order, &publisher, &mut sink)? {
        return Ok(status);
    }
    let ports = open_ports(rt, order)?;
    feed(rt, order, publisher, ports, true)
}

// Begins the session in a new file.
fn begin(rt: &HostRuntime, order: &FeedOrder) -> Result<u8, ProgramFault> {
    let alloc = rt.alloc();
    let ports = open_ports(rt, order)?;
    let session = Session(order.session);
    let longest = longest_message(order.limit);
    let path = order.journal.as_str();
    let created = match create_file(rt, path, session, longest) {
        Ok(created) => created,
        Err(error) => return Err(fault_of(rt, path, error)),
    };
    // Another process has created the file since it was looked for.
    let Some(durable) = created else {
        return Err(ProgramFault::Locked);
    };
    // The journals agree, and the limit of an order is in range, so an error means out of memory.
    let Ok(stored) = StoredJournal::new(alloc, session, longest) else {
        return Err(ProgramFault::Command(CommandFault::Memory));
    };
    match DurablePublisher::resume(alloc, stored, durable, order.limit) {
        Ok(publisher) => feed(rt, order, publisher, ports, false),
        Err(_) => Err(ProgramFault::Command(CommandFault::Memory)),
    }
}

/// Keeps a session, whose messages are read from standard input, in a journal file, sends it on one or two lines, and
/// responds to requests. A file that exists is continued, unless it is not a journal of the session. Refusals are
/// printed on standard output.
pub fn run_feed(rt: &HostRuntime, order: &FeedOrder) -> Result<u8, ProgramFault> {
    let path = order.journal.as_str();
    match open_file(rt, path) {
        Ok(Some(storage)) => resume(rt, order, storage),
        Ok(None) => begin(rt, order),
        Err(error) => Err(fault_of(rt, path, error)),
    }
}
