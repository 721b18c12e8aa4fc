//! A receiver by worked examples: its loop, the wait for the first packet of a session, and the last line if no session
//! comes. The expected texts were worked out by hand from the rules of the specification. `tests/repair` has receivers
//! that request messages, and those that keep a file.

use crate::comparisons::{holds, same_text};
use crate::parts::{
    DATA_1, DATA_2, DATA_3, END_4, SESSION, Sinks, Timed, new_sinks, options, parts, ports,
};
use mold_devices::CommandFault;
use mold_port_set::MemoryPortSet;
use mold_receive::{
    FirstPacket, ReceiveOptions, ReceiveParts, Unopened, await_session, end_unopened, receive_loop,
};
use std::process::Abort;
use std::test::Fail;

const OTHER_1: &[u8] = b"SESSION002\0\0\0\0\0\0\0\x01\0\x01\0\x01A";

// Message 2 is missing after a second. Two datagrams of another session come within this second, a short datagram, and
// one more of the other session later.
const SCRIPT: &[Timed] = &[
    (1, DATA_1),
    (2, DATA_3),
    (3, OTHER_1),
    (4, OTHER_1),
    (5, b"SHORT"),
    (1500, OTHER_1),
    (1500, DATA_1),
    (1500, DATA_2),
    (1500, DATA_3),
    (1500, END_4),
];

const TEXT: &[u8] = b"1 41\n2 42\n3 43\nfinished next 4 lost 0 failed 0\n";

// The first refusal of each reason is printed at once, and then one a second. The statistics are printed after a
// second, and at the end.
const SIDE: &[u8] = b"refused a WrongSession 53455353494f4e303032\n\
    refused a Malformed Short 5\n\
    stats at 1 next 2 known 4 gap 2 2 missing 1 stored 1 requests 0 answers 0 useless 0 lost 0 \
    contradictions 0 dropped unknown a datagrams 2 first 2 again 0 refused 3 late 0\n\
    refused a WrongSession 53455353494f4e303032\n\
    stats at 1 next 4 known 4 gap none none missing 0 stored 0 requests 0 answers 0 useless 0 lost 0 \
    contradictions 0 dropped unknown a datagrams 6 first 3 again 3 refused 4 late 0\n";

/// What a test does with its options.
#[derive(Clone, Copy)]
enum Part {
    /// Receives `SCRIPT`.
    Receive,
    /// Waits for the first packet of `LATE`.
    Wait,
    /// Prints the last line of a wait in which no session came.
    End,
}

fn status_of(
    rt: &impl AllocGlobal,
    parts: ReceiveParts<MemoryPortSet>,
    options: &ReceiveOptions<u32>,
    sinks: &mut Sinks,
) -> Result<u8, CommandFault> {
    let (sink, errors) = (&mut sinks.sink, &mut sinks.errors);
    Ok(receive_loop(rt.alloc(), parts, options, sink, errors)?.status)
}

// After a fault, a prefix of the text is written.
fn expect_received(
    rt: &impl Abort,
    status: Result<u8, CommandFault>,
    sinks: &Sinks,
) -> Result<(), CommandFault> {
    let text = sinks.sink.bytes();
    if let Err(fault) = status {
        holds(rt, TEXT.starts_with(text));
        return Err(fault);
    }
    holds(rt, status == Ok(0));
    same_text(rt, text, TEXT, 0);
    same_text(rt, sinks.errors.bytes(), SIDE, 1);
    Ok(())
}

// An end packet and a short datagram come before the first data packet, which has message 2.
const LATE: &[Timed] = &[(1, END_4), (2, b"SHORT"), (3, DATA_2)];

const LEARNED: &[u8] = b"refused a Malformed Short 5\nsession 53455353494f4e303031\n";

// The wait ended with message 2.
fn is_second(first: &Option<FirstPacket>) -> bool {
    match first {
        Some(first) => first.session == SESSION && first.sequence == 2,
        None => false,
    }
}

fn expect_first(
    rt: &(impl Abort + AllocGlobal),
    ports: MemoryPortSet,
    options: &ReceiveOptions<u32>,
    sinks: &mut Sinks,
) -> Result<(), CommandFault> {
    let opened = await_session(rt.alloc(), ports, None, options, &mut sinks.errors)?;
    holds(rt, is_second(&opened.first));
    same_text(rt, sinks.errors.bytes(), LEARNED, 0);
    Ok(())
}

const NUMBERS: Unopened = Unopened {
    next: 7,
    failures: 0,
};

fn expect_end(
    rt: &(impl Abort + AllocGlobal),
    options: &ReceiveOptions<u32>,
    sinks: &mut Sinks,
) -> Result<(), CommandFault> {
    let (sink, errors) = (&mut sinks.sink, &mut sinks.errors);
    let status = end_unopened(rt.alloc(), NUMBERS, options, sink, errors)?;
    holds(rt, status == 1);
    same_text(
        rt,
        sink.bytes(),
        b"open next 7 known 7 lost 0 failed 0\n",
        0,
    );
    Ok(())
}

// The inner result is a fault of the loop.
fn act(
    rt: &(impl Abort + AllocGlobal),
    options: &ReceiveOptions<u32>,
    sinks: &mut Sinks,
    part: Part,
) -> Result<Result<(), CommandFault>, Fail> {
    match part {
        Part::Receive => {
            let parts = parts(rt.alloc(), SCRIPT)?;
            let status = status_of(rt, parts, options, sinks);
            Ok(expect_received(rt, status, sinks))
        }
        Part::Wait => Ok(expect_first(rt, ports(rt.alloc(), LATE)?, options, sinks)),
        Part::End => Ok(expect_end(rt, options, sinks)),
    }
}

fn act_anew(
    rt: &(impl Abort + AllocGlobal),
    options: &ReceiveOptions<u32>,
    part: Part,
) -> Result<Result<(), CommandFault>, Fail> {
    act(rt, options, &mut new_sinks(rt.alloc()), part)
}

// After a fault, the part is done again from its beginning.
fn do_again(
    rt: &(impl Abort + AllocGlobal),
    options: &ReceiveOptions<u32>,
    part: Part,
) -> Result<(), Fail> {
    if act_anew(rt, options, part)?.is_err() {
        act_anew(rt, options, part)??;
    }
    Ok(())
}

// Only this function owns options: each of them costs its proof.
fn expect(rt: &(impl Abort + AllocGlobal), part: Part) -> Result<(), Fail> {
    let options = options(rt.alloc())?;
    do_again(rt, &options, part)
}

#[test]
fn out_of_memory_leaves_a_prefix_of_what_came(rt: HostRuntime) -> Result<(), Fail> {
    expect(&rt, Part::Receive)
}

#[test]
fn out_of_memory_ends_the_wait(rt: HostRuntime) -> Result<(), Fail> {
    expect(&rt, Part::Wait)
}

#[test]
fn out_of_memory_is_a_fault_of_the_last_line(rt: HostRuntime) -> Result<(), Fail> {
    expect(&rt, Part::End)
}
