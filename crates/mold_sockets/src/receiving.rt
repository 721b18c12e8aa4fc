//! The command `receive` over UDP sockets.

ghost use Rattle.std.specs.Prelude.{◌≡◌, ◌++◌, ◌∷◌, [], IfOk, OnOk, length, map, option_map, replicate};
ghost use Rattle.mold_sockets.specs.Receiving.{hosts_in, hosts_of, line_senders, responders, senders_of};

use mold_devices::{CommandFault, IntoWrite};
use mold_input::MessageFormat;
use mold_port_set::{PortSet, SenderList, UdpPortSet};
use mold_receive::{
    FirstPacket, Opened, ReceiveOptions, ReceiveParts, Unopened, await_session, end_unopened,
    receive_loop,
};
use mold_wire::Session;
use mold_wiring::{ProgramFault, flushed, make_repairer, socket_address};
use mold_words::{Address, LinePort, ReceiveOrder};
use std::alloc::{AllocError, Global};
use std::io::{Stderr, Stdout, Write};
use std::net::{Ipv4Addr, SocketAddrV4};

/// An address at which the system chooses the port, on every address of the machine.
const ANY: Address = Address {
    host: [0; 4],
    port: 0,
};

/// The number at which a receiver starts that has no other.
const FIRST: u64 = 1;

// The standard streams of the command.
struct Streams {
    sink: IntoWrite<Stdout>,
    errors: IntoWrite<Stderr>,
}

// Adds the port of a line. It gives only datagrams of `source`, if there is one.
fn add_line(
    rt: &HostRuntime,
    ports: &mut UdpPortSet,
    line: LinePort,
    source: Option<[u8; 4]>,
) -> Result<(), ProgramFault>
    ensures { OnOk result (hosts_of ports.new.senders ≡ hosts_of ports.old.senders ++ line_senders source ∷ []) }
{
    let senders = match source {
        Some(octets) => Some(SenderList::of(Ipv4Addr::from_octets(octets))),
        None => None,
    };
    let added = match line {
        LinePort::Address(address) => ports.bind(rt, socket_address(address), senders),
        LinePort::Descriptor(descriptor) => ports.adopt(rt, descriptor, senders),
    };
    match added {
        Ok(()) => Ok(()),
        Err(_) => Err(ProgramFault::Socket),
    }
}

// Returns the senders whose responses are accepted, or `None` for all senders.
fn responders_of(order: &ReceiveOrder) -> Option<SenderList>
    ensures { option_map hosts_in result ≡ responders order.now }
{
    if order.any_responder {
        return None;
    }
    let mut list = SenderList::new();
    for index in 0..order.servers.len() {
        list.hosts[index] = Some(Ipv4Addr::from_octets(order.servers[index].host));
    }
    Some(list)
}

// Adds a port for each server, which the system chooses.
fn add_servers(
    rt: &HostRuntime,
    ports: &mut UdpPortSet,
    order: &ReceiveOrder,
) -> Result<(), ProgramFault>
    ensures { OnOk result (hosts_of ports.new.senders ≡ hosts_of ports.old.senders
        ++ replicate (length order.now.servers.items) (responders order.now)) }
{
    let senders = responders_of(order);
    for _server in 0..order.servers.len() {
        if ports.bind(rt, socket_address(ANY), senders).is_err() {
            return Err(ProgramFault::Socket);
        }
    }
    Ok(())
}

/// Opens the ports of the order: those of the lines, and one for each server, which the system chooses.
pub(crate) fn open_ports(rt: &HostRuntime, order: &ReceiveOrder) -> Result<UdpPortSet, ProgramFault>
    ensures { IfOk result (λ ports. hosts_of ports.senders ≡ senders_of order.now) }
{
    let mut ports = UdpPortSet::new(rt);
    add_line(rt, &mut ports, order.a, order.source_a)?;
    if let Some(b) = order.b {
        add_line(rt, &mut ports, b, order.source_b)?;
    }
    add_servers(rt, &mut ports, order)?;
    Ok(ports)
}

// Returns the addresses of the servers.
fn peers_of(alloc: Global, order: &ReceiveOrder) -> Result<Vec<SocketAddrV4>, AllocError> {
    let mut peers = Vec::with_capacity(alloc, order.servers.len())?;
    for server in order.servers.iter() {
        peers.push(socket_address(*server))?;
    }
    Ok(peers)
}

/// Returns the options of the loop, which prints messages in this format. The numbers of an order are in range, so an
/// error means out of memory.
pub(crate) fn receive_options(
    alloc: Global,
    order: &ReceiveOrder,
    format: MessageFormat,
) -> Result<ReceiveOptions<SocketAddrV4>, AllocError> {
    let lines = if order.b.is_some() { 2 } else { 1 };
    match ReceiveOptions::new(lines, peers_of(alloc, order)?, format, u64::MAX) {
        Some(options) => Ok(options.with_quiet(order.quiet).with_stats(order.stats)),
        None => Err(AllocError),
    }
}

/// Waits for the session, if its name or the number to start at is not known.
pub(crate) fn open_session(
    alloc: Global,
    order: &ReceiveOrder,
    ports: UdpPortSet,
    options: &ReceiveOptions<SocketAddrV4>,
    errors: &mut IntoWrite<Stderr>,
) -> Result<Opened<UdpPortSet>, CommandFault> {
    if order.session.is_some() && order.next.is_some() {
        return Ok(Opened { ports, first: None });
    }
    await_session(alloc, ports, order.session.map(Session), options, errors)
}

/// Returns the session and the number at which the receiver starts, or none if they are not known.
pub(crate) fn start_of(
    order: &ReceiveOrder,
    first: &Option<FirstPacket>,
) -> Option<(Session, u64)> {
    match first {
        Some(first) => Some((first.session, order.next.unwrap_or(first.sequence))),
        None => Some((Session(order.session?), order.next?)),
    }
}

// Receives over the ports, and prints the messages.
fn receive_on(
    rt: &HostRuntime,
    order: &ReceiveOrder,
    ports: UdpPortSet,
    streams: &mut Streams,
) -> Result<u8, CommandFault> {
    let options = receive_options(rt.alloc(), order, order.output)?;
    let Streams { sink, errors } = streams;
    let Opened { ports, first } = open_session(rt.alloc(), order, ports, &options, errors)?;
    let Some((session, next)) = start_of(order, &first) else {
        let numbers = Unopened {
            next: order.next.unwrap_or(FIRST),
            failures: ports.failures(),
        };
        return end_unopened(rt.alloc(), numbers, &options, sink, errors);
    };
    let parts = ReceiveParts {
        ports,
        repairer: make_repairer(rt.alloc(), order, session, next)?,
        first,
    };
    Ok(receive_loop(rt.alloc(), parts, &options, sink, errors)?.status)
}

/// Receives a session on one or two lines, and requests what is missing from the servers, each over a separate port.
/// The fault is `Socket` if a port can't be opened, or if a descriptor is not that of an open UDP socket.
pub fn run_receive(rt: &HostRuntime, order: &ReceiveOrder) -> Result<u8, ProgramFault> {
    let ports = open_ports(rt, order)?;
    let mut streams = Streams {
        sink: IntoWrite::new(rt.stdout()),
        errors: IntoWrite::new(rt.stderr()),
    };
    let outcome = receive_on(rt, order, ports, &mut streams);
    let Streams { sink, errors } = streams;
    let outcome = flushed(outcome, sink.into_inner().flush());
    Ok(flushed(outcome, errors.into_inner().flush())?)
}
