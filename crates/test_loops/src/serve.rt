//! `serve_loop` over a port in memory. A case is a constant, and one function runs each case.

use crate::comparisons::holds_at;
use crate::scripts::{Given, PEER, Sent, expect_sent, expect_written, give, silent};
use mold_devices::{CommandFault, MemorySink};
use mold_ports::{Datagrams, MemoryPort};
use mold_serve::serve_loop;
use mold_session::{AppendError, Journal, Server};
use mold_wire::Session;
use std::alloc::Global;
use std::process::Abort;
use std::test::Fail;

// Requests for 65,535 messages from 1 on and from 2 on, and for message 6.
const ALL: Given = Given::Bytes(b"SESSION001\0\0\0\0\0\0\0\x01\xff\xff");

const FROM_TWO: Given = Given::Bytes(b"SESSION001\0\0\0\0\0\0\0\x02\xff\xff");

const SIXTH: Given = Given::Bytes(b"SESSION001\0\0\0\0\0\0\0\x06\0\x01");

// The packets of the five messages, each of at most 64 bytes.
const ONE_AND_TWO: (u32, &[u8]) = (
    PEER,
    b"SESSION001\0\0\0\0\0\0\0\x01\0\x02\
    \0\x14\x01\x01\x01\x01\x01\x01\x01\x01\x01\x01\x01\x01\x01\x01\x01\x01\x01\x01\x01\x01\
    \0\x14\x02\x02\x02\x02\x02\x02\x02\x02\x02\x02\x02\x02\x02\x02\x02\x02\x02\x02\x02\x02",
);

const TWO_AND_THREE: (u32, &[u8]) = (
    PEER,
    b"SESSION001\0\0\0\0\0\0\0\x02\0\x02\
    \0\x14\x02\x02\x02\x02\x02\x02\x02\x02\x02\x02\x02\x02\x02\x02\x02\x02\x02\x02\x02\x02\
    \0\x14\x03\x03\x03\x03\x03\x03\x03\x03\x03\x03\x03\x03\x03\x03\x03\x03\x03\x03\x03\x03",
);

const FIVE: (u32, &[u8]) = (
    PEER,
    b"SESSION001\0\0\0\0\0\0\0\x05\0\x01\
    \0\x14\x05\x05\x05\x05\x05\x05\x05\x05\x05\x05\x05\x05\x05\x05\x05\x05\x05\x05\x05\x05",
);

/// What a server receives, its options, and its result. The server has five messages, the k-th of which is twenty
/// bytes of the value k, and its datagrams have at most 64 bytes.
#[derive(Clone, Copy)]
struct Case {
    given: &'static [Given],
    /// The number of the send that fails. If it is 0, no send fails.
    send_fails: u64,
    burst: u16,
    turns: u64,
    text: &'static [u8],
    sent: Sent,
}

fn new_journal(alloc: Global) -> Result<Journal, AppendError> {
    let mut journal = Journal::new(alloc, Session(*b"SESSION001"), 42);
    for message in &[[1; 20], [2; 20], [3; 20], [4; 20], [5; 20]] {
        journal.append(message)?;
    }
    Ok(journal)
}

// Serves the journal with a new server.
fn serve(
    rt: &impl AllocGlobal,
    journal: &Journal,
    port: &mut MemoryPort,
    case: &Case,
    sink: &mut MemorySink,
) -> Result<Result<u8, CommandFault>, Fail> {
    let mut server = Server::new(rt.alloc(), 64, 42, case.burst)?;
    let mut served = journal;
    Ok(serve_loop(rt.alloc(), port, &mut server, &mut served, case.turns, sink))
}

fn expect_served(
    rt: &(impl Abort + AllocGlobal),
    journal: &Journal,
    port: &mut MemoryPort,
    case: &Case,
    at: usize,
) -> Result<(), Fail> {
    let mut sink = MemorySink::new(rt.alloc());
    let outcome = serve(rt, journal, port, case, &mut sink)?;
    expect_written(rt, &sink, outcome, case.text, at);
    expect_sent(rt, port, case.sent, at);
    holds_at(rt, port.left() == 0, "left", at);
    Ok(())
}

// Serves, and compares the outcome, the text and the port.
fn expect(
    rt: &(impl Abort + AllocGlobal),
    journal: &Journal,
    case: &Case,
    at: usize,
) -> Result<(), Fail> {
    let mut port = silent(rt.alloc());
    give(rt.alloc(), &mut port, case.given)?;
    port.fail_send(case.send_fails);
    expect_served(rt, journal, &mut port, case, at)
}

const EXAMPLE: Case = Case {
    given: &[FROM_TWO, Given::Quiet, Given::Fail, SIXTH],
    send_fails: 0,
    burst: 1,
    turns: 4,
    text: b"answered 2 2\nrefused Ahead 6\nanswered 1 refused 1 quiet 1 failed 1\n",
    sent: &[TWO_AND_THREE],
};

/// A request for all messages. The second of its three responses fails.
const FAILED_SEND: Case = Case {
    given: &[ALL],
    send_fails: 2,
    burst: 3,
    turns: 1,
    text: b"answered 1 2\nanswered 5 1\nanswered 2 refused 0 quiet 0 failed 1\n",
    sent: &[ONE_AND_TWO, FIVE],
    ..EXAMPLE
};

/// `tests/io-errors` makes each receive, send and write of the command fail.
#[test]
fn serve_over_memory(rt: HostRuntime) -> Result<(), Fail> {
    let journal = new_journal(rt.alloc())?;
    expect(&rt, &journal, &EXAMPLE, 0)?;
    expect(&rt, &journal, &FAILED_SEND, 1)
}
