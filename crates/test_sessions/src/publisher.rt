//! Publishers: worked examples, and their state after an allocation has failed. `tests/out-of-memory` makes each
//! allocation of the tests for it fail.

use crate::comparisons::{holds, holds_at};
use crate::journals::{SESSION, journal_of};
use mold_session::{AppendError, Publisher, Unsent};
use std::alloc::Global;
use std::process::Abort;
use std::test::Fail;

/// What publishing a message returns: its number, or why it is refused.
type Added = Result<u64, AppendError>;

// Datagrams of messages of 20 or 21 bytes, the k-th of which has the value k.
const FIRST: &[u8] = b"SESSION001\0\0\0\0\0\0\0\x01\0\x01\
    \0\x14\x01\x01\x01\x01\x01\x01\x01\x01\x01\x01\x01\x01\x01\x01\x01\x01\x01\x01\x01\x01";

const SECOND: &[u8] = b"SESSION001\0\0\0\0\0\0\0\x02\0\x01\
    \0\x15\x02\x02\x02\x02\x02\x02\x02\x02\x02\x02\x02\x02\x02\x02\x02\x02\x02\x02\x02\x02\x02";

const FIRST_AND_SECOND: &[u8] = b"SESSION001\0\0\0\0\0\0\0\x01\0\x02\
    \0\x14\x01\x01\x01\x01\x01\x01\x01\x01\x01\x01\x01\x01\x01\x01\x01\x01\x01\x01\x01\x01\
    \0\x14\x02\x02\x02\x02\x02\x02\x02\x02\x02\x02\x02\x02\x02\x02\x02\x02\x02\x02\x02\x02";

const THIRD: &[u8] = b"SESSION001\0\0\0\0\0\0\0\x03\0\x01\
    \0\x14\x03\x03\x03\x03\x03\x03\x03\x03\x03\x03\x03\x03\x03\x03\x03\x03\x03\x03\x03\x03";

/// A call of a publisher with its result, or what can be read of it.
#[derive(Clone, Copy)]
enum Step {
    /// A message is published, or refused.
    Publish(&'static [u8], Added),
    /// The last message, which is unsent, is retracted.
    Retract,
    /// The next datagram, if there is one.
    Datagram(Option<&'static [u8]>),
    /// A heartbeat, if the session is open.
    Heartbeat(Option<&'static [u8]>),
    /// The end packet, if the session is closed.
    End(Option<&'static [u8]>),
    /// The session is closed, or the call is refused.
    Close(Result<(), Unsent>),
    /// Whether the session and its journal are closed.
    IsClosed(bool),
    /// Whether the unsent messages do not all fit one datagram.
    IsFull(bool),
    /// How many messages are in no datagram yet.
    Unsent(u64),
}

impl Step {
    /// Whether a publisher takes the step as it states.
    fn is_taken(self, publisher: &mut Publisher) -> bool {
        match self {
            Step::Publish(message, wanted) => publisher.publish(message) == wanted,
            Step::Retract => is_retracted(publisher),
            Step::Datagram(wanted) => publisher.datagram() == wanted,
            Step::Heartbeat(wanted) => publisher.heartbeat() == wanted,
            Step::End(wanted) => publisher.end() == wanted,
            Step::Close(wanted) => publisher.close() == wanted,
            Step::IsClosed(wanted) => {
                publisher.is_closed() == wanted && publisher.journal().is_closed() == wanted
            }
            Step::IsFull(wanted) => publisher.is_full() == wanted,
            Step::Unsent(wanted) => publisher.unsent() == wanted,
        }
    }
}

fn is_retracted(publisher: &mut Publisher) -> bool {
    let is_unsent = publisher.unsent() > 0;
    if is_unsent {
        publisher.retract();
    }
    is_unsent
}

fn expect_steps(rt: &impl Abort, publisher: &mut Publisher, name: &str, steps: &[Step]) {
    for (i, step) in steps.iter().enumerate() {
        holds_at(rt, step.is_taken(publisher), name, i);
    }
}

/// A publisher with a limit of 64 bytes. It is new, or resumes an open journal with two messages, the k-th of which is
/// twenty bytes of the value k.
#[derive(Clone, Copy)]
enum Start {
    New,
    Resumed,
}

fn resumed(alloc: Global) -> Result<Publisher, Fail> {
    let journal = journal_of(alloc, 42, &[&[1; 20], &[2; 20]])?;
    Ok(Publisher::resume(alloc, journal, 64)?)
}

fn publisher_of(alloc: Global, start: Start) -> Result<Publisher, Fail> {
    match start {
        Start::New => Ok(Publisher::new(alloc, SESSION, 64)?),
        Start::Resumed => resumed(alloc),
    }
}

fn publish_all(publisher: &mut Publisher, messages: &[&[u8]]) -> Result<(), AppendError> {
    for message in messages {
        publisher.publish(message)?;
    }
    Ok(())
}

/// What a publisher does.
#[derive(Clone, Copy)]
enum Part {
    /// It publishes the messages, and then takes the steps.
    Steps(&'static [&'static [u8]], &'static [Step]),
    /// It publishes a thousand messages.
    Thousand,
}

fn act(rt: &impl Abort, publisher: &mut Publisher, part: Part) -> Result<(), AppendError> {
    match part {
        Part::Steps(messages, steps) => {
            publish_all(publisher, messages)?;
            expect_steps(rt, publisher, "step", steps);
            Ok(())
        }
        Part::Thousand => publish_thousand(rt, publisher),
    }
}

// The only function that owns a publisher: each of them costs its proof.
fn expect_part(rt: &(impl Abort + AllocGlobal), start: Start, part: Part) -> Result<(), Fail> {
    let mut publisher = publisher_of(rt.alloc(), start)?;
    act(rt, &mut publisher, part)?;
    Ok(())
}

/// `publisher-limit-64`: a message of 42 bytes is published, one of 43 is too long.
const LONGEST_MESSAGE: &[Step] = &[
    Step::Publish(&[1; 42], Ok(1)),
    Step::Publish(&[1; 43], Err(AppendError::TooLong { len: 43 })),
];

/// The two messages are not sent again. A message that was retracted leaves its number to the next one.
const RESUMED: &[Step] = &[
    Step::Unsent(0),
    Step::Datagram(None),
    Step::Publish(&[4; 21], Ok(3)),
    Step::Retract,
    Step::Unsent(0),
    Step::Publish(&[3; 20], Ok(3)),
    Step::Datagram(Some(THIRD)),
    Step::Close(Ok(())),
];

#[test]
fn examples_of_a_publisher(rt: HostRuntime) -> Result<(), Fail> {
    expect_part(&rt, Start::New, Part::Steps(&[], LONGEST_MESSAGE))?;
    expect_part(&rt, Start::Resumed, Part::Steps(&[], RESUMED))
}

/// `publisher-limit-64`: messages of 20 and 20 bytes go in one datagram of exactly 64.
const ONE_DATAGRAM: &[Step] = &[
    Step::IsFull(false),
    Step::Unsent(2),
    Step::Datagram(Some(FIRST_AND_SECOND)),
    Step::Unsent(0),
];

/// `publisher-limit-64`: messages of 20 and 21 bytes take two datagrams.
const TWO_DATAGRAMS: &[Step] = &[
    Step::IsFull(true),
    Step::Datagram(Some(FIRST)),
    Step::IsFull(false),
    Step::Unsent(1),
    Step::Heartbeat(Some(b"SESSION001\0\0\0\0\0\0\0\x02\0\0")),
    Step::Close(Err(Unsent { count: 1 })),
    Step::Datagram(Some(SECOND)),
    Step::Datagram(None),
    Step::Close(Ok(())),
    Step::End(Some(b"SESSION001\0\0\0\0\0\0\0\x03\xff\xff")),
];

/// A session without messages.
const CLOSED: &[Step] = &[
    Step::Datagram(None),
    Step::End(None),
    Step::Heartbeat(Some(b"SESSION001\0\0\0\0\0\0\0\x01\0\0")),
    Step::IsClosed(false),
    Step::Close(Ok(())),
    Step::IsClosed(true),
    Step::Heartbeat(None),
    Step::Publish(&[1; 43], Err(AppendError::Closed)),
    Step::Close(Ok(())),
    Step::End(Some(b"SESSION001\0\0\0\0\0\0\0\x01\xff\xff")),
];

#[test]
fn no_allocation_of_sending(rt: HostRuntime) -> Result<(), Fail> {
    expect_part(
        &rt,
        Start::New,
        Part::Steps(&[&[1; 20], &[2; 20]], ONE_DATAGRAM),
    )?;
    expect_part(
        &rt,
        Start::New,
        Part::Steps(&[&[1; 20], &[2; 21]], TWO_DATAGRAMS),
    )?;
    expect_part(&rt, Start::New, Part::Steps(&[], CLOSED))
}

/// Publishes a message. If an allocation fails, nothing more is published or unsent, and the message is published
/// again.
fn publish_again(rt: &impl Abort, publisher: &mut Publisher, message: &[u8]) -> Added {
    let unsent = publisher.unsent();
    let found = publisher.publish(message);
    if found != Err(AppendError::Memory) {
        return found;
    }
    holds(rt, publisher.unsent() == unsent);
    holds(rt, publisher.journal().next() == unsent + 1);
    publisher.publish(message)
}

fn publish_thousand(rt: &impl Abort, publisher: &mut Publisher) -> Result<(), AppendError> {
    for _ in 0..999u16 {
        publish_again(rt, publisher, b"x")?;
    }
    publish_again(rt, publisher, &[3; 42])?;
    holds(rt, publisher.journal().get(999) == Some(b"x"));
    holds(rt, publisher.journal().get(1000) == Some(&[3; 42]));
    Ok(())
}

/// A thousand messages, so that the journal's buffers grow several times, but far fewer than 500 times.
#[test]
fn out_of_memory_of_a_thousand_messages(rt: HostRuntime) -> Result<(), Fail> {
    expect_part(&rt, Start::New, Part::Thousand)
}
