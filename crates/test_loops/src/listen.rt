//! `listen_loop` over ports in memory. A case is a constant, and one function runs each case.

use crate::comparisons::holds_at;
use crate::scripts::{Given, Sent, expect_sent, expect_written, give, silent};
use mold_devices::{CommandFault, MemorySink, Sink};
use mold_input::MessageFormat;
use mold_listen::listen_loop;
use mold_ports::{Datagrams, MemoryPort};
use mold_receiver::{Arbiter, Receiver};
use mold_wire::Session;
use std::alloc::{AllocError, Global};
use std::process::Abort;
use std::test::Fail;

const SERVER: u32 = 9;

// Data packets of one message, by its number, and end packets. Message 1 is `A`.
const DATA_1: Given = Given::Bytes(b"SESSION001\0\0\0\0\0\0\0\x01\0\x01\0\x01A");

const DATA_2: Given = Given::Bytes(b"SESSION001\0\0\0\0\0\0\0\x02\0\x01\0\x01B");

const DATA_3: Given = Given::Bytes(b"SESSION001\0\0\0\0\0\0\0\x03\0\x01\0\x01C");

const END_3: Given = Given::Bytes(b"SESSION001\0\0\0\0\0\0\0\x03\xff\xff");

const END_4: Given = Given::Bytes(b"SESSION001\0\0\0\0\0\0\0\x04\xff\xff");

// The request for message 2.
const REQUEST: (u32, &[u8]) = (SERVER, b"SESSION001\0\0\0\0\0\0\0\x02\0\x01");

/// What a listener receives, its options, and its result.
#[derive(Clone, Copy)]
struct Case {
    /// What the ports of line A, of line B and of the requests give. An array of the three is not proved: the borrow
    /// checker does not find the type of its elements.
    a: &'static [Given],
    b: &'static [Given],
    responses: &'static [Given],
    burst: u16,
    reporting: bool,
    text: &'static [u8],
    /// How many steps of each port are left.
    left: [usize; 3],
    requests: Sent,
}

#[derive(Drop)]
struct Ports {
    a: MemoryPort,
    b: MemoryPort,
    requests: MemoryPort,
}

fn silent_ports(alloc: Global) -> Ports {
    Ports {
        a: silent(alloc),
        b: silent(alloc),
        requests: silent(alloc),
    }
}

fn give_ports(alloc: Global, ports: &mut Ports, case: &Case) -> Result<(), AllocError> {
    give(alloc, &mut ports.a, case.a)?;
    give(alloc, &mut ports.b, case.b)?;
    give(alloc, &mut ports.requests, case.responses)
}

fn listen_with(
    alloc: Global,
    ports: &mut Ports,
    arbiter: &mut Arbiter,
    case: &Case,
    sink: &mut MemorySink,
) -> Result<u8, CommandFault> {
    listen_loop(
        alloc,
        &mut ports.a,
        &mut ports.b,
        &mut ports.requests,
        SERVER,
        arbiter,
        case.burst,
        5,
        case.reporting,
        MessageFormat::Lines,
        sink,
        &mut MemorySink::new(alloc),
    )
}

// An arbiter that begins at message 1, with a window of 4, listens for five turns.
fn listen(
    alloc: Global,
    ports: &mut Ports,
    case: &Case,
    sink: &mut MemorySink,
) -> Result<Result<u8, CommandFault>, Fail> {
    let receiver = Receiver::new(alloc, Session(*b"SESSION001"), 1, 4)?;
    Ok(listen_with(alloc, ports, &mut Arbiter::new(receiver), case, sink))
}

fn expect_ports(rt: &impl Abort, ports: &Ports, case: &Case, at: usize) {
    let left = [ports.a.left(), ports.b.left(), ports.requests.left()];
    holds_at(rt, left == case.left, "left", at);
    expect_sent(rt, &ports.requests, case.requests, at);
}

fn expect_listened(
    rt: &(impl Abort + AllocGlobal),
    ports: &mut Ports,
    case: &Case,
    at: usize,
) -> Result<(), Fail> {
    let mut sink = MemorySink::new(rt.alloc());
    let outcome = listen(rt.alloc(), ports, case, &mut sink)?;
    expect_written(rt, &sink, outcome, case.text, at);
    expect_ports(rt, ports, case, at);
    Ok(())
}

// Listens, and compares the outcome, the text and the ports.
fn expect(rt: &(impl Abort + AllocGlobal), case: &Case, at: usize) -> Result<(), Fail> {
    let mut ports = silent_ports(rt.alloc());
    give_ports(rt.alloc(), &mut ports, case)?;
    expect_listened(rt, &mut ports, case, at)
}

/// `listen-over-memory`: messages 1 and 2, a failure and an end packet on line A. The listener ends after the fourth of
/// five turns.
const EXAMPLE: Case = Case {
    a: &[DATA_1, DATA_2, Given::Fail, END_3],
    b: &[Given::Quiet; 5],
    responses: &[],
    burst: 1,
    reporting: false,
    text: b"1 41\n2 42\nfinished next 3 failed 1\n",
    left: [0, 1, 0],
    requests: &[],
};

/// `listen-with-report`: line B loses message 3 and the end packet. Message 2 is a response, and follows a response
/// that is refused.
const REPORTED: Case = Case {
    a: &[DATA_1, DATA_3, Given::Fail, END_4],
    b: &[DATA_1, Given::Bytes(b"\0")],
    responses: &[Given::Bytes(b"\0"), DATA_2],
    burst: 2,
    reporting: true,
    text: b"1 41
refused Malformed Short 1
refused Malformed Short 1
2 42
3 43
line a datagrams 3 refused 0 front 4 lag 0
line b datagrams 1 refused 1 front 2 lag 2
finished next 4 failed 1
",
    left: [0, 0, 0],
    requests: &[REQUEST],
};

/// `tests/io-errors` makes each receive, send and write of the command fail.
#[test]
fn examples_of_a_listener(rt: HostRuntime) -> Result<(), Fail> {
    expect(&rt, &EXAMPLE, 0)?;
    expect(&rt, &REPORTED, 1)
}
