//! A publisher that forgets the messages that it sent: its numbers go on. `tests/feed` has publishers that continue a
//! journal.

use crate::comparisons::holds_at;
use crate::journals::SESSION;
use mold_session::Unsent;
use mold_unsent::UnsentPublisher;
use std::process::Abort;
use std::test::Fail;

const FIRST_AND_SECOND: &[u8] = b"SESSION001\0\0\0\0\0\0\0\x01\0\x02\
    \0\x14\x01\x01\x01\x01\x01\x01\x01\x01\x01\x01\x01\x01\x01\x01\x01\x01\x01\x01\x01\x01\
    \0\x14\x02\x02\x02\x02\x02\x02\x02\x02\x02\x02\x02\x02\x02\x02\x02\x02\x02\x02\x02\x02";

const THIRD: &[u8] = b"SESSION001\0\0\0\0\0\0\0\x03\0\x01\
    \0\x14\x03\x03\x03\x03\x03\x03\x03\x03\x03\x03\x03\x03\x03\x03\x03\x03\x03\x03\x03\x03";

/// A call of a publisher with its result.
#[derive(Clone, Copy)]
enum Step {
    /// A message is published. It has this number.
    Publish(&'static [u8], u64),
    /// The last message, which is unsent, is retracted.
    Retract,
    /// The next datagram, if there is one.
    Datagram(Option<&'static [u8]>),
    /// The session is closed, or the call is refused.
    Close(Result<(), Unsent>),
    /// Whether the unsent messages do not all fit one datagram.
    IsFull(bool),
    /// How many messages are published, and how many of them are in no datagram yet.
    Counts(u64, u64),
}

impl Step {
    /// Whether a publisher takes the step as it states.
    fn is_taken(self, publisher: &mut UnsentPublisher) -> bool {
        match self {
            Step::Publish(message, number) => publisher.publish(message) == Ok(number),
            Step::Retract => is_retracted(publisher),
            Step::Datagram(wanted) => publisher.datagram() == wanted,
            Step::Close(wanted) => publisher.close() == wanted,
            Step::IsFull(wanted) => publisher.is_full() == wanted,
            Step::Counts(count, unsent) => {
                publisher.count() == count && publisher.unsent() == unsent
            }
        }
    }
}

fn is_retracted(publisher: &mut UnsentPublisher) -> bool {
    let is_unsent = publisher.unsent() > 0;
    if is_unsent {
        publisher.retract();
    }
    is_unsent
}

fn expect_steps(rt: &impl Abort, publisher: &mut UnsentPublisher, steps: &[Step]) {
    for (at, step) in steps.iter().enumerate() {
        holds_at(rt, step.is_taken(publisher), "step", at);
    }
}

const STEPS: &[Step] = &[
    Step::Publish(&[1; 20], 1),
    Step::Publish(&[2; 20], 2),
    Step::IsFull(false),
    Step::Publish(&[4; 20], 3),
    Step::IsFull(true),
    Step::Retract,
    Step::Counts(2, 2),
    Step::Close(Err(Unsent { count: 2 })),
    Step::Datagram(Some(FIRST_AND_SECOND)),
    Step::Counts(2, 0),
    Step::Publish(&[3; 20], 3),
    Step::Datagram(Some(THIRD)),
    Step::Close(Ok(())),
];

#[test]
fn example_of_an_unsent_publisher(rt: HostRuntime) -> Result<(), Fail> {
    let mut publisher = UnsentPublisher::new(rt.alloc(), SESSION, 64)?;
    expect_steps(&rt, &mut publisher, STEPS);
    Ok(())
}
