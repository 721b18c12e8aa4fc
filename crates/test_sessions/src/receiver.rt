//! The receiver: worked examples, which refusal comes first, and its state after an allocation has failed. `tests/out-of-memory` makes each
//! allocation of the tests for it fail. `tests/long-run` and the library's tests compare receivers with models.

use crate::receiver_steps::{
    DATA_1, DATA_1_2, DATA_1_3, DATA_2, DATA_2_3, DATA_3, END_3, END_4, Reception, Step,
};
use mold_receiver::Refusal;
use mold_wire::DecodeError;
use std::process::Abort;
use std::test::Fail;

const BACKWARDS: &[Step] = &[
    Step::Window(4),
    Step::Wanted(None),
    Step::Taken(DATA_3, (0, 1, 0)),
    Step::Numbers(1, 4, 1),
    Step::Wanted(Some((1, 2))),
    Step::Taken(DATA_2, (0, 1, 0)),
    Step::Wanted(Some((1, 1))),
    Step::Numbers(1, 4, 2),
    Step::Taken(DATA_1, (3, 0, 0)),
    Step::Batch(1, &[b"A", b"B", b"C"]),
    Step::Numbers(4, 4, 0),
    Step::Wanted(None),
];

const EIGHT: &[u8] = b"SESSION001\0\0\0\0\0\0\0\x02\0\x08\
    \0\x012\0\x013\0\x014\0\x015\0\x016\0\x017\0\x018\0\x019";

const BEYOND: &[Step] = &[
    Step::Taken(EIGHT, (0, 3, 5)),
    Step::Numbers(1, 10, 3),
    Step::Wanted(Some((1, 1))),
    Step::Taken(b"SESSION001\0\0\0\0\0\0\0\x01\0\x01\0\x011", (4, 0, 0)),
    Step::Numbers(5, 10, 0),
    Step::Batch(1, &[b"1", b"2", b"3", b"4"]),
    Step::Wanted(Some((5, 5))),
];

const NINE: &[u8] = b"SESSION001\0\0\0\0\0\0\0\x01\0\x09\
    \0\x011\0\x012\0\x013\0\x014\0\x015\0\x016\0\x017\0\x018\0\x019";

const LONGER_THAN_WINDOW: &[Step] = &[
    Step::Taken(NINE, (9, 0, 0)),
    Step::Numbers(10, 10, 0),
    Step::Batch(1, &[b"1", b"2", b"3", b"4", b"5", b"6", b"7", b"8", b"9"]),
];

const TOP: &[Step] = &[
    Step::Refused(
        b"SESSION001\xff\xff\xff\xff\xff\xff\xff\xff\0\x01\0\x01A",
        Refusal::PastLast,
    ),
    Step::Taken(b"SESSION001\xff\xff\xff\xff\xff\xff\xff\xff\0\0", (0, 0, 0)),
    Step::Numbers(1, 18446744073709551615, 0),
    Step::Wanted(Some((1, 65534))),
];

const CONFLICT: &[Step] = &[
    Step::Taken(b"SESSION001\0\0\0\0\0\0\0\x03\0\x01\0\x01X", (0, 1, 0)),
    Step::Refused(
        b"SESSION001\0\0\0\0\0\0\0\x03\0\x01\0\x01Y",
        Refusal::Conflict { number: 3 },
    ),
];

/// A forged datagram: the receiver keeps its message 3, and refuses the true one.
const FORGED: &[Step] = &[
    Step::Taken(b"SESSION001\0\0\0\0\0\0\0\x03\0\x01\0\x01Z", (0, 1, 0)),
    Step::Refused(DATA_1_3, Refusal::Conflict { number: 3 }),
    Step::Taken(DATA_1_2, (3, 0, 0)),
    Step::Batch(1, &[b"A", b"B", b"Z"]),
];

const BOUNDED: &[Step] = &[
    Step::Taken(END_3, (0, 0, 0)),
    Step::Numbers(1, 3, 0),
    Step::Ended(Some(3), false),
    Step::Wanted(Some((1, 2))),
    Step::Refused(END_4, Refusal::EndConflict { end: 3 }),
    Step::Refused(
        b"SESSION001\0\0\0\0\0\0\0\x04\0\0",
        Refusal::PastEnd { end: 3 },
    ),
    Step::Refused(DATA_2_3, Refusal::PastEnd { end: 3 }),
    Step::Taken(DATA_1_2, (2, 0, 0)),
    Step::Numbers(3, 3, 0),
    Step::Ended(Some(3), true),
];

const IN_ORDER: &[Step] = &[
    Step::Refused(END_3, Refusal::EndBelow { known: 5 }),
    Step::Refused(
        b"SESSION001\0\0\0\0\0\0\0\0\0\x01\0\x01A",
        Refusal::SequenceZero,
    ),
    Step::Refused(b"", Refusal::Malformed(DecodeError::Short { len: 0 })),
    Step::Refused(b"SESSION002\0\0\0\0\0\0\0\0\0\0", Refusal::WrongSession),
];

const BEGINS_AT_2: &[Step] = &[
    Step::Taken(DATA_1_3, (2, 0, 0)),
    Step::Batch(2, &[b"B", b"C"]),
];

/// The number of a receiver's first message, its window, and its steps.
type Example = (&'static str, u64, u32, &'static [Step]);

/// A table for each test: the proof of a test grows with the square of the references in its table.
const NAMED: &[Example] = &[
    ("receiver-backwards", 1, 4, BACKWARDS),
    ("beyond-the-window", 1, 4, BEYOND),
    ("packet-longer-than-window", 1, 1, LONGER_THAN_WINDOW),
    ("top-of-numbers", 1, 4, TOP),
    ("conflict", 1, 4, CONFLICT),
];

const OTHERS: &[Example] = &[
    ("a forged message", 1, 4, FORGED),
    ("packets past the end", 1, 4, BOUNDED),
    ("the order of refusals", 5, 4, IN_ORDER),
    ("a batch that begins at 2", 2, 4, BEGINS_AT_2),
];

/// What a receiver does.
#[derive(Clone, Copy)]
enum Part {
    Steps(&'static str, &'static [Step]),
    Backwards,
    NothingStored,
}

fn act(rt: &impl Abort, reception: &mut Reception, part: Part) -> Result<(), Fail> {
    match part {
        Part::Steps(name, steps) => {
            reception.expect_steps(rt, name, steps);
            Ok(())
        }
        Part::Backwards => take_backwards(rt, reception),
        Part::NothingStored => take_nothing_stored(rt, reception),
    }
}

// The only function that owns a receiver: each of them costs its proof.
fn expect_part(
    rt: &(impl Abort + AllocGlobal),
    (next, window): (u64, u32),
    part: Part,
) -> Result<(), Fail> {
    let mut reception = Reception::new(rt.alloc(), next, window)?;
    act(rt, &mut reception, part)
}

fn expect_examples(rt: &(impl Abort + AllocGlobal), examples: &[Example]) -> Result<(), Fail> {
    for (name, next, window, steps) in examples {
        expect_part(rt, (*next, *window), Part::Steps(name, steps))?;
    }
    Ok(())
}

#[test]
fn examples_of_a_receiver(rt: HostRuntime) -> Result<(), Fail> {
    expect_examples(&rt, NAMED)
}

#[test]
fn other_examples_of_a_receiver(rt: HostRuntime) -> Result<(), Fail> {
    expect_examples(&rt, OTHERS)
}

const FIVE: &[u8] = b"SESSION001\0\0\0\0\0\0\0\x05\0\x01\0\x01E";

const BACKWARDS_AGAIN: &[Step] = &[Step::Batch(1, &[b"A", b"B", b"C"]), Step::Numbers(4, 4, 0)];

const GIVEN_UP_AGAIN: &[Step] = &[Step::Batch(5, &[b"E"]), Step::Numbers(6, 6, 0)];

fn take_backwards(rt: &impl Abort, reception: &mut Reception) -> Result<(), Fail> {
    for packet in [DATA_3, DATA_2, DATA_1] {
        reception.take_again(rt, packet)?;
    }
    reception.expect_steps(rt, "backwards", BACKWARDS_AGAIN);
    reception.take_again(rt, FIVE)?;
    reception.skip_again(rt)?;
    reception.expect_steps(rt, "given up", GIVEN_UP_AGAIN);
    Ok(())
}

/// `receiver-backwards`: messages 3 and 2 are stored, and message 1 delivers all three, or nothing. Then message 5 is
/// stored, and message 4 is given up.
#[test]
fn out_of_memory_changes_nothing(rt: HostRuntime) -> Result<(), Fail> {
    expect_part(&rt, (1, 4), Part::Backwards)
}

/// Packets after messages 1 to 3, which are delivered, and message 5, which is stored: a heartbeat, delivered messages,
/// a stored message, message 8, which is beyond the window, the end after it, and two packets that are refused.
const NOTHING_NEW: &[Step] = &[
    Step::Taken(b"SESSION001\0\0\0\0\0\0\0\x06\0\0", (0, 0, 0)),
    Step::Taken(DATA_2_3, (0, 0, 0)),
    Step::Heard(DATA_1_3, 0),
    Step::Taken(FIVE, (0, 0, 0)),
    Step::Taken(b"SESSION001\0\0\0\0\0\0\0\x08\0\x01\0\x01H", (0, 0, 1)),
    Step::Taken(b"SESSION001\0\0\0\0\0\0\0\x09\xff\xff", (0, 0, 0)),
    Step::Refused(END_4, Refusal::EndConflict { end: 9 }),
    Step::Refused(
        b"SESSION001\0\0\0\0\0\0\0\x05\0\x01\0\x01X",
        Refusal::Conflict { number: 5 },
    ),
    Step::Wanted(Some((4, 1))),
    Step::Numbers(4, 9, 1),
    Step::Ended(Some(9), false),
];

/// Messages that follow without a gap. They are delivered from their packets.
const OWN: &[Step] = &[Step::Heard(DATA_1_2, 2), Step::Heard(DATA_1_3, 1)];

fn take_nothing_stored(rt: &impl Abort, reception: &mut Reception) -> Result<(), Fail> {
    reception.expect_steps(rt, "in order", OWN);
    reception.take(rt, FIVE)?;
    reception.expect_steps(rt, "nothing new", NOTHING_NEW);
    Ok(())
}

/// A packet of which nothing is stored allocates nothing if it is taken without a copy. Nor does a packet of which
/// nothing is delivered or stored, or one that is refused.
#[test]
fn no_allocation_if_nothing_is_stored(rt: HostRuntime) -> Result<(), Fail> {
    expect_part(&rt, (1, 4), Part::NothingStored)
}
