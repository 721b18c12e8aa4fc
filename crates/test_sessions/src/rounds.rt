//! Catching up: worked examples, and the state after an allocation has failed. `tests/out-of-memory` makes each
//! allocation of the test for it fail.

use crate::comparisons::holds;
use crate::receiver_steps::{Reception, is_batch};
use crate::server::{FIVE_MESSAGES, Service};
use mold_receiver::Receiver;
use mold_rounds::{Memory, catch_up};
use std::alloc::Global;
use std::process::Abort;
use std::test::Fail;

// Packets of message 2, of message 3 and of message 4.
const SECOND: &[u8] = b"SESSION001\0\0\0\0\0\0\0\x02\0\x01\
    \0\x14\x02\x02\x02\x02\x02\x02\x02\x02\x02\x02\x02\x02\x02\x02\x02\x02\x02\x02\x02\x02";

const THIRD: &[u8] = b"SESSION001\0\0\0\0\0\0\0\x03\0\x01\
    \0\x14\x03\x03\x03\x03\x03\x03\x03\x03\x03\x03\x03\x03\x03\x03\x03\x03\x03\x03\x03\x03";

const FOURTH: &[u8] = b"SESSION001\0\0\0\0\0\0\0\x04\0\x01\
    \0\x14\x04\x04\x04\x04\x04\x04\x04\x04\x04\x04\x04\x04\x04\x04\x04\x04\x04\x04\x04\x04";

// A heartbeat that announces messages up to 5.
const HEARTBEAT: &[u8] = b"SESSION001\0\0\0\0\0\0\0\x06\0\0";

// A receiver at message 1, its batch, and the journal and the server of the session. A datagram of the server has room
// for two messages.
#[derive(Drop)]
struct Parts {
    service: Service,
    reception: Reception,
}

fn catch_up_checked(rt: &impl Abort, parts: &mut Parts) -> Result<u64, Memory> {
    let (service, reception) = (&mut parts.service, &mut parts.reception);
    holds(
        rt,
        reception.receiver.session() == service.journal.session(),
    );
    holds(rt, reception.receiver.known() <= service.journal.next());
    holds(
        rt,
        service.journal.max_message() <= service.server.max_message(),
    );
    holds(rt, reception.batch.follows(reception.receiver.next()));
    catch_up(
        &mut reception.receiver,
        &mut service.server,
        &service.journal,
        &mut reception.batch,
    )
}

fn missing(receiver: &Receiver) -> u64 {
    receiver
        .known()
        .saturating_sub(receiver.next())
        .saturating_sub(u64::from(receiver.stored()))
}

// Fails if the receiver does not know all five messages or does not have the first ones, and if the server has not
// answered this many requests.
fn expect_first(rt: &impl Abort, parts: &Parts, messages: &'static [&'static [u8]], answered: u64) {
    let receiver = &parts.reception.receiver;
    holds(
        rt,
        (receiver.next(), receiver.known()) == (messages.len() as u64 + 1, 6),
    );
    holds(rt, parts.service.server.answered() == answered);
    if messages.is_empty() {
        holds(rt, parts.reception.batch.is_empty());
    } else {
        holds(rt, is_batch(&parts.reception.batch, 1, messages));
    }
}

/// A receiver at message 1 that took some packets, and what it takes to catch up. No packet has
/// message 1.
#[derive(Clone, Copy)]
struct Catching {
    window: u32,
    packets: &'static [&'static [u8]],
    burst: u16,
    missing: u64,
    rounds: u64,
}

/// `catch-up-two-rounds`
const TWO_ROUNDS: Catching = Catching {
    window: 8,
    packets: &[THIRD, HEARTBEAT],
    burst: 1,
    missing: 4,
    rounds: 2,
};

/// One gap of five messages.
const ONE_GAP: Catching = Catching {
    window: 1,
    packets: &[HEARTBEAT],
    burst: 1,
    missing: 5,
    rounds: 3,
};

/// The table of catching up: the last row has three gaps of one message.
const TABLE: &[Catching] = &[
    TWO_ROUNDS,
    ONE_GAP,
    Catching {
        burst: 2,
        rounds: 2,
        ..ONE_GAP
    },
    Catching {
        burst: 3,
        rounds: 1,
        ..ONE_GAP
    },
    Catching {
        window: 8,
        packets: &[SECOND, FOURTH, HEARTBEAT],
        burst: 1,
        missing: 3,
        rounds: 3,
    },
];

fn new_parts(alloc: Global, case: &Catching) -> Result<Parts, Fail> {
    Ok(Parts {
        service: Service::new(alloc, case.burst)?,
        reception: Reception::new(alloc, 1, case.window)?,
    })
}

fn expect_rounds(rt: &impl Abort, parts: &mut Parts, rounds: u64) {
    holds(rt, catch_up_checked(rt, parts) == Ok(rounds));
}

fn expect_caught_up(rt: &impl Abort, parts: &mut Parts, case: &Catching) -> Result<(), Fail> {
    parts.reception.take_all(rt, case.packets)?;
    holds(rt, missing(&parts.reception.receiver) == case.missing);
    expect_rounds(rt, parts, case.rounds);
    expect_first(rt, parts, FIVE_MESSAGES, case.rounds);
    expect_rounds(rt, parts, 0);
    expect_first(rt, parts, FIVE_MESSAGES, case.rounds);
    Ok(())
}

fn expect_parts(
    rt: &impl Abort,
    parts: &mut Parts,
    case: &Catching,
    again: bool,
) -> Result<(), Fail> {
    if again {
        expect_going_on(rt, parts)
    } else {
        expect_caught_up(rt, parts, case)
    }
}

// The only function that owns the parts: each of them costs its proof.
fn expect_case(rt: &(impl Abort + AllocGlobal), case: &Catching, again: bool) -> Result<(), Fail> {
    let mut parts = new_parts(rt.alloc(), case)?;
    expect_parts(rt, &mut parts, case, again)
}

#[test]
fn catching_up_takes_a_known_number_of_rounds(rt: HostRuntime) -> Result<(), Fail> {
    for case in TABLE {
        expect_case(&rt, case, false)?;
    }
    Ok(())
}

/// Catching up takes two rounds. If an allocation fails, it stops in that round, and a second call continues there. If
/// it stopped in the first round, nothing was received; if in the second, messages 1 to 3.
fn catch_up_again(rt: &impl Abort, parts: &mut Parts) -> Result<u64, Memory> {
    if catch_up_checked(rt, parts).is_ok() {
        return Ok(2);
    }
    let (received, left) = if parts.reception.batch.is_empty() {
        (0, 2)
    } else {
        (3, 1)
    };
    expect_first(rt, parts, &FIVE_MESSAGES[..received], 3 - left);
    let rounds = catch_up_checked(rt, parts)?;
    holds(rt, rounds == left);
    Ok(3)
}

fn expect_going_on(rt: &impl Abort, parts: &mut Parts) -> Result<(), Fail> {
    parts.reception.take_all(rt, TWO_ROUNDS.packets)?;
    let answered = catch_up_again(rt, parts)?;
    expect_first(rt, parts, FIVE_MESSAGES, answered);
    Ok(())
}

#[test]
fn out_of_memory_stops_in_a_round(rt: HostRuntime) -> Result<(), Fail> {
    expect_case(&rt, &TWO_ROUNDS, true)
}
