//! `publish_loop` over a port in memory, by worked examples. `tests/io-errors` makes each send, read and write of the
//! command fail.

ghost use Rattle.std.specs.Prelude.{◌≡◌, [], false, IfOk};

use crate::comparisons::same_text;
use crate::scripts::{Sent, expect_sent, expect_written, silent};
use mold_devices::{CommandFault, MemorySink, MemorySource};
use mold_input::HexLines;
use mold_ports::{Datagrams, MemoryPort};
use mold_send::publish_loop;
use mold_session::Publisher;
use mold_wire::Session;
use std::alloc::Global;
use std::process::Abort;
use std::test::Fail;

const DATA: &[u8] = b"SESSION001\0\0\0\0\0\0\0\x01\0\x02\0\x02AB\0\0";

const BEAT: &[u8] = b"SESSION001\0\0\0\0\0\0\0\x03\0\0";

const END: &[u8] = b"SESSION001\0\0\0\0\0\0\0\x03\xff\xff";

const JOURNAL: &[u8] = b"MOLDJNL2SESSION001\x01\0\0\0\0\0\0\0\x02\0\x02AB\0\0";

// An open publisher without messages.
fn new_publisher(alloc: Global) -> Result<Publisher, Fail>
    ensures { IfOk result (λ publisher.
        (publisher.journal.closed ≡ false) × (publisher.journal.messages ≡ [])) }
{
    Ok(Publisher::new(alloc, Session(*b"SESSION001"), 64)?)
}

#[derive(Drop)]
struct Devices {
    port: MemoryPort,
    sink: MemorySink,
    journal: MemorySink,
}

fn new_devices(alloc: Global) -> Devices {
    Devices {
        port: silent(alloc),
        sink: MemorySink::new(alloc),
        journal: MemorySink::new(alloc),
    }
}

// Publishes two messages on lines 1 and 2, with one heartbeat and one end packet on each.
fn publish(alloc: Global, devices: &mut Devices) -> Result<Result<u8, CommandFault>, Fail> {
    let mut publisher = new_publisher(alloc)?;
    Ok(publish_loop::<HexLines, _, _, _, _>(
        alloc,
        &mut devices.port,
        1,
        2,
        &mut publisher,
        1,
        1,
        &mut MemorySource::new(b"4142\n\n"),
        &mut devices.sink,
        &mut devices.journal,
    ))
}

fn expect_published(
    rt: &(impl Abort + AllocGlobal),
    devices: &mut Devices,
    text: &[u8],
    sent: Sent,
) -> Result<(), Fail> {
    let outcome = publish(rt.alloc(), devices)?;
    expect_written(rt, &devices.sink, outcome, text, sent.len());
    expect_sent(rt, &devices.port, sent, sent.len());
    same_text(rt, devices.journal.bytes(), JOURNAL, sent.len());
    Ok(())
}

// The send of this number fails, or none if it is 0.
fn expect(
    rt: &(impl Abort + AllocGlobal),
    send_fails: u64,
    text: &[u8],
    sent: Sent,
) -> Result<(), Fail> {
    let mut devices = new_devices(rt.alloc());
    devices.port.fail_send(send_fails);
    expect_published(rt, &mut devices, text, sent)
}

const ALL: Sent = &[
    (1, DATA),
    (2, DATA),
    (1, BEAT),
    (2, BEAT),
    (1, END),
    (2, END),
];

const ALL_BUT_ONE: Sent = &[(1, DATA), (1, BEAT), (2, BEAT), (1, END), (2, END)];

#[test]
fn two_lines_are_published_on_both(rt: HostRuntime) -> Result<(), Fail> {
    expect(&rt, 0, b"published 2 datagrams 1 failed 0\n", ALL)
}

#[test]
fn second_send_of_a_publisher_fails(rt: HostRuntime) -> Result<(), Fail> {
    expect(&rt, 2, b"published 2 datagrams 1 failed 1\n", ALL_BUT_ONE)
}
