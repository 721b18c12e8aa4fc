//! A session of five messages in a world, and its deliveries to two receivers with the windows 4 and 1.

use crate::comparisons::{holds, holds_at};
use mold_receiver::{Line, Taken};
use mold_world::{Event, Report, Way, World, WorldError};
use std::process::Abort;

/// A receiver's `next`, `known` and number of stored messages, the number of messages of its book, and whether it is
/// finished.
pub type Standing = (u64, u64, u32, usize, bool);

/// The standing of a receiver, if the world has it.
pub fn standing_of(world: &World, r: usize) -> Option<Standing> {
    let receiver = world.receiver(r)?;
    let book = world.book(r)?.len();
    let finished = world.finished(r)?;
    Some((
        receiver.next(),
        receiver.known(),
        receiver.stored(),
        book,
        finished,
    ))
}

const A: Way = Way::Line(Line::A);

const B: Way = Way::Line(Line::B);

/// Five messages, the k-th of which is twenty bytes of the value k, in three datagrams, and the end packet.
const SESSION_OF_FIVE: [Event<'static>; 10] = [
    Event::Publish(&[1; 20]),
    Event::Publish(&[2; 20]),
    Event::Publish(&[3; 20]),
    Event::Publish(&[4; 20]),
    Event::Publish(&[5; 20]),
    Event::Datagram,
    Event::Datagram,
    Event::Datagram,
    Event::Close,
    Event::End,
];

/// A delivery: the receiver, the way, and the index of the datagram. Then how many messages are delivered, kept and
/// beyond the window, and the receiver's standing.
type Delivery = (usize, Way, usize, (u32, u32, u32), Standing);

const DELIVERIES: [Delivery; 8] = [
    (0, A, 3, (0, 0, 0), (1, 6, 0, 0, false)),
    (0, B, 2, (0, 0, 1), (1, 6, 0, 0, false)),
    (0, A, 1, (0, 2, 0), (1, 6, 2, 0, false)),
    (0, A, 0, (4, 0, 0), (5, 6, 0, 4, false)),
    (0, B, 2, (1, 0, 0), (6, 6, 0, 5, true)),
    (1, A, 0, (2, 0, 0), (3, 3, 0, 2, false)),
    (1, A, 0, (0, 0, 0), (3, 3, 0, 2, false)),
    (1, B, 2, (0, 0, 1), (3, 6, 0, 2, false)),
];

/// Those after receiver 1 requested messages 3 to 5.
const AFTER_REQUEST: [Delivery; 3] = [
    (1, Way::Answer, 4, (2, 0, 0), (5, 6, 0, 4, false)),
    (1, A, 3, (0, 0, 0), (5, 6, 0, 4, false)),
    (1, B, 2, (1, 0, 0), (6, 6, 0, 5, true)),
];

// Applies an event, once more if an allocation failed.
fn apply_again(world: &mut World, event: &Event<'_>) -> Result<Report, WorldError> {
    match world.apply(event) {
        Err(WorldError::Memory) => world.apply(event),
        report => report,
    }
}

fn expect_delivery(
    rt: &impl Abort,
    world: &mut World,
    delivery: &Delivery,
    at: usize,
) -> Result<(), WorldError> {
    let (r, way, sent, (handed, kept, beyond), stands) = *delivery;
    let report = apply_again(world, &Event::Deliver { r, way, sent })?;
    let taken = Taken {
        handed,
        kept,
        beyond,
    };
    holds_at(rt, report == Report::Delivered(taken), "delivery", at);
    holds_at(rt, standing_of(world, r) == Some(stands), "standing", at);
    Ok(())
}

fn expect_deliveries(
    rt: &impl Abort,
    world: &mut World,
    deliveries: &[Delivery],
) -> Result<(), WorldError> {
    for (at, delivery) in deliveries.iter().enumerate() {
        expect_delivery(rt, world, delivery, at)?;
    }
    Ok(())
}

/// Applies the events of the session and of its deliveries.
pub fn expect_five(rt: &impl Abort, world: &mut World) -> Result<(), WorldError> {
    for event in &SESSION_OF_FIVE {
        apply_again(world, event)?;
    }
    expect_deliveries(rt, world, &DELIVERIES)?;
    let report = apply_again(world, &Event::Ask(1))?;
    holds(rt, report == Report::Burst { first: 4, count: 1 });
    expect_deliveries(rt, world, &AFTER_REQUEST)
}
