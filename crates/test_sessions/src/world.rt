//! Worlds by worked examples. If an allocation fails, a run stops, and a second run does the rest.
//! `tests/cases/sim.txt` has the texts of worlds, and `tests/long-run` compares them with a model.

use crate::comparisons::{holds, holds_at};
use crate::world_of_five::{Standing, expect_five, standing_of};
use mold_receiver::{Line, Refusal};
use mold_session::Unsent;
use mold_wire::{DecodeError, Session};
use mold_world::{Event, Report, SessionError, Stopped, Way, World, WorldError};
use std::process::Abort;
use std::test::Fail;

const SESSION: Session = Session(*b"SESSION001");

const A: Way = Way::Line(Line::A);

const B: Way = Way::Line(Line::B);

/// The events of the example `sim-two-receivers`.
const TWO_RECEIVERS: [Event<'static>; 16] = [
    Event::Publish(b"\x41"),
    Event::Datagram,
    Event::Publish(b"\x42"),
    Event::Close,
    Event::Datagram,
    Event::Close,
    Event::Publish(b"\x43"),
    Event::End,
    Event::Deliver {
        r: 0,
        way: A,
        sent: 0,
    },
    Event::Deliver {
        r: 0,
        way: A,
        sent: 2,
    },
    Event::Restart { r: 0, next: 9 },
    Event::Restart { r: 0, next: 2 },
    Event::Request(b"SESSION001\0\0\0\0\0\0\0\x01\0\x02"),
    Event::Deliver {
        r: 0,
        way: Way::Answer,
        sent: 3,
    },
    Event::Deliver {
        r: 0,
        way: B,
        sent: 2,
    },
    Event::Noise {
        r: 1,
        way: A,
        bytes: b"\0",
    },
];

/// The messages that these events publish.
const MESSAGES: [&[u8]; 2] = [b"\x41", b"\x42"];

/// The datagrams that they send.
const SENT: [&[u8]; 4] = [
    b"SESSION001\0\0\0\0\0\0\0\x01\0\x01\0\x01\x41",
    b"SESSION001\0\0\0\0\0\0\0\x02\0\x01\0\x01\x42",
    b"SESSION001\0\0\0\0\0\0\0\x03\xff\xff",
    b"SESSION001\0\0\0\0\0\0\0\x01\0\x02\0\x01\x41\0\x01\x42",
];

/// The datagrams of a line that were accepted and that were refused, and the line's front.
type Counts = (u64, u64, u64);

/// What a receiver has in the end: its standing, and the counts of line A and line B.
type Received = (Standing, Counts, Counts);

/// What the receivers have. The restart made new reports.
const RECEIVED: [Received; 2] = [
    ((3, 3, 0, 2, true), (0, 0, 2), (1, 0, 3)),
    ((1, 1, 0, 0, false), (0, 1, 1), (0, 0, 1)),
];

// The counts of a line's report.
fn counts_of(world: &World, r: usize, line: Line) -> Option<Counts> {
    let report = world.report(r, line)?;
    Some((report.datagrams, report.refused, report.front))
}

fn is_received(world: &World, r: usize, wanted: &Received) -> bool {
    standing_of(world, r) == Some(wanted.0)
        && counts_of(world, r, Line::A) == Some(wanted.1)
        && counts_of(world, r, Line::B) == Some(wanted.2)
}

// Whether the world published message `i`, and the book of receiver 0 has it.
fn is_message(world: &World, i: usize, message: &[u8]) -> bool {
    let Some(book) = world.book(0) else {
        return false;
    };
    let number = (i as u64).saturating_add(1);
    world.published().get(number) == Some(message) && book.get(i) == Some(message)
}

fn expect_sent(rt: &impl Abort, world: &World) {
    holds(rt, world.sent_len() == SENT.len());
    for (i, bytes) in world.sent().enumerate() {
        let is_sent = world.sent_at(i) == Some(bytes) && SENT.get(i).copied() == Some(bytes);
        holds_at(rt, is_sent, "sent", i);
    }
}

fn expect_end(rt: &impl Abort, world: &World) {
    for (i, message) in MESSAGES.iter().enumerate() {
        holds_at(rt, is_message(world, i, message), "message", i);
    }
    for (r, wanted) in RECEIVED.iter().enumerate() {
        holds_at(rt, is_received(world, r, wanted), "receiver", r);
    }
    holds(rt, world.is_closed() && world.published().next() == 3);
    holds(rt, world.receivers() == RECEIVED.len());
    expect_sent(rt, world);
}

// Makes a run. It stops only if an allocation fails.
fn run_whole(world: &mut World, events: &[Event<'_>]) -> Result<(), WorldError> {
    match world.run(events) {
        Ok(()) => Ok(()),
        Err(Stopped { at: _ }) => Err(WorldError::Memory),
    }
}

// Makes a run. If an allocation fails, the run stops at an event, and a second run goes on from there.
fn run_again(world: &mut World, events: &[Event<'_>]) -> Result<(), WorldError> {
    match world.run(events) {
        Ok(()) => Ok(()),
        Err(Stopped { at }) => run_whole(world, events.split_at(at).1),
    }
}

const UNSENT: Result<Report, WorldError> = Err(WorldError::Layer(SessionError::Close(Unsent {
    count: 1,
})));

/// Events that allocate nothing, and their outcomes. The heartbeat of the session is not noise. The world has two
/// receivers, and a message that it did not send.
const WITHOUT_MEMORY: [(Event<'static>, Result<Report, WorldError>); 5] = [
    (
        Event::Noise {
            r: 0,
            way: A,
            bytes: b"\0",
        },
        Ok(Report::NoiseRefused(Refusal::Malformed(DecodeError::Short { len: 1 }))),
    ),
    (
        Event::Noise {
            r: 0,
            way: B,
            bytes: b"SESSION002\0\0\0\0\0\0\0\x01\0\0",
        },
        Ok(Report::NoiseRefused(Refusal::WrongSession)),
    ),
    (
        Event::Noise {
            r: 0,
            way: Way::Answer,
            bytes: b"SESSION001\0\0\0\0\0\0\0\x01\0\0",
        },
        Err(WorldError::NotNoise),
    ),
    (
        Event::Noise {
            r: 2,
            way: A,
            bytes: b"\0",
        },
        Err(WorldError::NoReceiver),
    ),
    (Event::Close, UNSENT),
];

fn expect_without_memory(rt: &impl Abort, world: &mut World) -> Result<(), WorldError> {
    run_whole(world, &TWO_RECEIVERS[..3])?;
    for (at, (event, wanted)) in WITHOUT_MEMORY.iter().enumerate() {
        holds_at(rt, world.apply(event) == *wanted, "event", at);
    }
    holds(rt, !world.is_closed() && standing_of(world, 2).is_none());
    Ok(())
}

/// What a test does with its world.
#[derive(Clone, Copy)]
enum Story {
    FiveMessages,
    TwoReceivers,
    WithoutMemory,
}

fn expect_story(rt: &impl Abort, world: &mut World, story: Story) -> Result<(), WorldError> {
    match story {
        Story::FiveMessages => expect_five(rt, world),
        Story::TwoReceivers => {
            run_again(world, &TWO_RECEIVERS)?;
            expect_end(rt, world);
            Ok(())
        }
        Story::WithoutMemory => expect_without_memory(rt, world),
    }
}

// Makes a world with these windows. Only this function owns a world: each function that owns one takes longer to prove.
fn tell(rt: &(impl Abort + AllocGlobal), windows: &[u32], story: Story) -> Result<(), WorldError> {
    let mut world = World::new(rt.alloc(), SESSION, 64, 64, 1, windows)?;
    expect_story(rt, &mut world, story)
}

/// Five messages are delivered to two receivers, one event at a time.
#[test]
fn out_of_memory_changes_nothing(rt: HostRuntime) -> Result<(), Fail> {
    Ok(tell(&rt, &[4, 1], Story::FiveMessages)?)
}

/// A run of the events of `sim-two-receivers`. It skips those that are refused.
#[test]
fn out_of_memory_stops_a_run_that_skips_events(rt: HostRuntime) -> Result<(), Fail> {
    Ok(tell(&rt, &[4, 4], Story::TwoReceivers)?)
}

/// Noise and a close that is refused allocate nothing.
#[test]
fn no_allocation_of_close_and_noise(rt: HostRuntime) -> Result<(), Fail> {
    Ok(tell(&rt, &[4, 4], Story::WithoutMemory)?)
}
