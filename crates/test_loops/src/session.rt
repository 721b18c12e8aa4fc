//! `session_loop` over ports in memory: when the loop writes. A port receives the datagrams of its script, and none
//! that another port sends. `tests/program-checks` and `tests/io-errors` run `mold loop`.

ghost use Rattle.std.specs.Prelude.{◌≡◌, ◌≤◌, IfOk};
ghost use Rattle.mold_publish.specs.Publishing.{HasRoom};

use crate::comparisons::holds;
use crate::scripts::{Given, give, silent};
use mold_devices::{CommandFault, IntoWrite, MemorySink, MemorySource};
use mold_input::{HexLines, MessageFormat};
use mold_listen::Printer;
use mold_loop::{Drops, Listener, LoopOptions, LoopParts, LoopPeers, LoopPorts, session_loop};
use mold_ports::MemoryPort;
use mold_receiver::{Arbiter, Receiver};
use mold_session::{Publisher, Server};
use mold_wire::Session;
use mold_wire::laws::packet_length_law;
use std::alloc::{AllocError, Global};
use std::io::Cursor;
use std::process::Abort;
use std::test::Fail;

const SESSION: Session = Session(*b"SESSION001");

/// The peers of line A, of line B and of the server.
const PEERS: LoopPeers<u32> = LoopPeers {
    a: 1,
    b: 2,
    server: 3,
};

/// Five messages, the k-th of which is twenty bytes of the value k. Packets have messages 1 and 2, 3 and 4, and 5.
const LINES: &[u8] = b"0101010101010101010101010101010101010101\n\
    0202020202020202020202020202020202020202\n\
    0303030303030303030303030303030303030303\n\
    0404040404040404040404040404040404040404\n\
    0505050505050505050505050505050505050505\n";

const ONE_AND_TWO: Given = Given::Bytes(
    b"SESSION001\0\0\0\0\0\0\0\x01\0\x02\
    \0\x14\x01\x01\x01\x01\x01\x01\x01\x01\x01\x01\x01\x01\x01\x01\x01\x01\x01\x01\x01\x01\
    \0\x14\x02\x02\x02\x02\x02\x02\x02\x02\x02\x02\x02\x02\x02\x02\x02\x02\x02\x02\x02\x02",
);

const THREE_AND_FOUR: Given = Given::Bytes(
    b"SESSION001\0\0\0\0\0\0\0\x03\0\x02\
    \0\x14\x03\x03\x03\x03\x03\x03\x03\x03\x03\x03\x03\x03\x03\x03\x03\x03\x03\x03\x03\x03\
    \0\x14\x04\x04\x04\x04\x04\x04\x04\x04\x04\x04\x04\x04\x04\x04\x04\x04\x04\x04\x04\x04",
);

const FIVE: Given = Given::Bytes(
    b"SESSION001\0\0\0\0\0\0\0\x05\0\x01\
    \0\x14\x05\x05\x05\x05\x05\x05\x05\x05\x05\x05\x05\x05\x05\x05\x05\x05\x05\x05\x05\x05",
);

const END: Given = Given::Bytes(b"SESSION001\0\0\0\0\0\0\0\x06\xff\xff");

/// What a port gives if no packet is dropped.
const PACKETS: [Given; 4] = [ONE_AND_TWO, THREE_AND_FOUR, FIVE, END];

/// The request for messages 3 and 4.
const REQUEST: Given = Given::Bytes(b"SESSION001\0\0\0\0\0\0\0\x03\0\x02");

// A publisher without messages. Its packets have at most 64 bytes.
fn new_publisher(alloc: Global) -> Result<Publisher, Fail>
    ensures room { IfOk result (λ publisher. HasRoom publisher) }
    ensures longest { IfOk result (λ publisher. publisher.journal.max_message ≡ 42) }
{
    packet_length_law();
    Ok(Publisher::new(alloc, SESSION, 64)?)
}

// The publisher's server. Its responses are one packet of at most 64 bytes.
fn new_server(alloc: Global) -> Result<Server, Fail>
    ensures { IfOk result (λ server. server.max_message ≡ 42) }
{
    Ok(Server::new(alloc, 64, 42, 1)?)
}

// A listener that begins at message 1 and prints lines.
fn new_listener(alloc: Global) -> Result<Listener, Fail> {
    let receiver = Receiver::new(alloc, SESSION, 1, 4)?;
    Ok(Listener {
        arbiter: Arbiter::new(receiver),
        printer: Printer::new(alloc, MessageFormat::Lines),
    })
}

fn new_parts(alloc: Global) -> Result<LoopParts, Fail>
    ensures room { IfOk result (λ parts. HasRoom parts.publisher) }
    ensures longest { IfOk result (λ parts. parts.publisher.journal.max_message ≤ parts.server.max_message) }
{
    Ok(LoopParts {
        alloc,
        publisher: new_publisher(alloc)?,
        server: new_server(alloc)?,
        listener: new_listener(alloc)?,
    })
}

/// What the ports receive, and what is dropped.
#[derive(Clone, Copy)]
struct Script {
    /// What the ports of line A and of line B give.
    lines: &'static [Given],
    /// The requests for messages 3 and 4 that the server receives, and the responses.
    requests: &'static [Given],
    responses: &'static [Given],
    /// Of each line, every packet whose number is a multiple is dropped. If it is 0, none is dropped.
    drops: u32,
}

/// Nothing is dropped, and each packet is printed.
const PASSED: Script = Script {
    lines: &PACKETS,
    requests: &[REQUEST],
    responses: &[THREE_AND_FOUR],
    drops: 0,
};

/// All data packets are dropped. Three responses have messages 1 and 2, 3 and 4, and 5.
const ALL_DROPPED: Script = Script {
    lines: &[END],
    requests: &[REQUEST; 3],
    responses: &PACKETS,
    drops: 1,
};

fn silent_ports(alloc: Global) -> LoopPorts<MemoryPort> {
    LoopPorts {
        publisher: silent(alloc),
        server: silent(alloc),
        a: silent(alloc),
        b: silent(alloc),
        requests: silent(alloc),
    }
}

fn give_ports(
    alloc: Global,
    ports: &mut LoopPorts<MemoryPort>,
    script: Script,
) -> Result<(), AllocError> {
    give(alloc, &mut ports.server, script.requests)?;
    give(alloc, &mut ports.a, script.lines)?;
    give(alloc, &mut ports.b, script.lines)?;
    give(alloc, &mut ports.requests, script.responses)
}

/// A sink with room for the first two lines. The second write to it fails.
type TwoLines = IntoWrite<Cursor<[u8; 86]>>;

// Publishes `LINES` with these parts.
fn run(
    ports: &mut LoopPorts<MemoryPort>,
    parts: &mut LoopParts,
    script: Script,
    sink: &mut TwoLines,
) -> Result<u8, CommandFault>
    requires room { HasRoom parts.old.publisher }
    requires longest { parts.old.publisher.journal.max_message ≤ parts.old.server.max_message }
{
    let options = LoopOptions {
        peers: PEERS,
        drops: Drops {
            a: script.drops,
            b: script.drops,
        },
        turns: 9,
        reporting: false,
    };
    let mut errors = MemorySink::new(parts.alloc);
    let mut source = MemorySource::new(LINES);
    session_loop::<HexLines, _, _, _, _>(ports, &options, parts, &mut source, sink, &mut errors)
}

// Returns how many steps of line A and of the requests are left after the write that fails.
fn left_over(
    rt: &(impl Abort + AllocGlobal),
    ports: &mut LoopPorts<MemoryPort>,
    parts: &mut LoopParts,
    script: Script,
    sink: &mut TwoLines,
) -> Result<(usize, usize), AllocError>
    requires room { HasRoom parts.old.publisher }
    requires longest { parts.old.publisher.journal.max_message ≤ parts.old.server.max_message }
{
    give_ports(rt.alloc(), ports, script)?;
    let outcome = run(ports, parts, script, sink);
    holds(rt, outcome == Err(CommandFault::Write));
    Ok((ports.a.left(), ports.requests.left()))
}

// The same with new ports and parts.
fn left_by(
    rt: &(impl Abort + AllocGlobal),
    script: Script,
    sink: &mut TwoLines,
) -> Result<(usize, usize), Fail> {
    let mut parts = new_parts(rt.alloc())?;
    Ok(left_over(rt, &mut silent_ports(rt.alloc()), &mut parts, script, sink)?)
}

fn expect_left(
    rt: &(impl Abort + AllocGlobal),
    script: Script,
    live: (usize, usize),
    at_end: (usize, usize),
) -> Result<(), Fail> {
    let found = left_by(rt, script, &mut IntoWrite::live(Cursor::new([0; 86])))?;
    holds(rt, found == live);
    let found = left_by(rt, script, &mut IntoWrite::new(Cursor::new([0; 86])))?;
    holds(rt, found == at_end);
    Ok(())
}

/// What a packet or a round printed is written to a live sink before the next one, and to another sink at the end.
#[test]
fn a_loop_writes_to_a_live_sink_before_it_receives_again(rt: HostRuntime) -> Result<(), Fail> {
    expect_left(&rt, PASSED, (2, 1), (0, 1))?;
    expect_left(&rt, ALL_DROPPED, (0, 2), (0, 1))
}
