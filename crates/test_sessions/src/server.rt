//! The re-request server: worked examples, the order of its refusals, and several responses to a request.

use crate::comparisons::{holds, holds_at};
use crate::journals::journal_of;
use mold_session::{AnswerError, Journal, Plan, Server};
use std::alloc::Global;
use std::process::Abort;
use std::test::Fail;

// Datagrams of the five messages.
const ONE_AND_TWO: &[u8] = b"SESSION001\0\0\0\0\0\0\0\x01\0\x02\
    \0\x14\x01\x01\x01\x01\x01\x01\x01\x01\x01\x01\x01\x01\x01\x01\x01\x01\x01\x01\x01\x01\
    \0\x14\x02\x02\x02\x02\x02\x02\x02\x02\x02\x02\x02\x02\x02\x02\x02\x02\x02\x02\x02\x02";

const TWO_AND_THREE: &[u8] = b"SESSION001\0\0\0\0\0\0\0\x02\0\x02\
    \0\x14\x02\x02\x02\x02\x02\x02\x02\x02\x02\x02\x02\x02\x02\x02\x02\x02\x02\x02\x02\x02\
    \0\x14\x03\x03\x03\x03\x03\x03\x03\x03\x03\x03\x03\x03\x03\x03\x03\x03\x03\x03\x03\x03";

const THREE: &[u8] = b"SESSION001\0\0\0\0\0\0\0\x03\0\x01\
    \0\x14\x03\x03\x03\x03\x03\x03\x03\x03\x03\x03\x03\x03\x03\x03\x03\x03\x03\x03\x03\x03";

const THREE_AND_FOUR: &[u8] = b"SESSION001\0\0\0\0\0\0\0\x03\0\x02\
    \0\x14\x03\x03\x03\x03\x03\x03\x03\x03\x03\x03\x03\x03\x03\x03\x03\x03\x03\x03\x03\x03\
    \0\x14\x04\x04\x04\x04\x04\x04\x04\x04\x04\x04\x04\x04\x04\x04\x04\x04\x04\x04\x04\x04";

const FOUR_AND_FIVE: &[u8] = b"SESSION001\0\0\0\0\0\0\0\x04\0\x02\
    \0\x14\x04\x04\x04\x04\x04\x04\x04\x04\x04\x04\x04\x04\x04\x04\x04\x04\x04\x04\x04\x04\
    \0\x14\x05\x05\x05\x05\x05\x05\x05\x05\x05\x05\x05\x05\x05\x05\x05\x05\x05\x05\x05\x05";

const FIVE: &[u8] = b"SESSION001\0\0\0\0\0\0\0\x05\0\x01\
    \0\x14\x05\x05\x05\x05\x05\x05\x05\x05\x05\x05\x05\x05\x05\x05\x05\x05\x05\x05\x05\x05";

// Requests for 65,535 messages from messages 1 and 2 on, for nine from message 5 on, and for three from message 1 on.
const FROM_ONE: &[u8] = b"SESSION001\0\0\0\0\0\0\0\x01\xff\xff";

const FROM_TWO: &[u8] = b"SESSION001\0\0\0\0\0\0\0\x02\xff\xff";

const FROM_FIVE: &[u8] = b"SESSION001\0\0\0\0\0\0\0\x05\0\x09";

const THREE_FROM_ONE: &[u8] = b"SESSION001\0\0\0\0\0\0\0\x01\0\x03";

/// Five messages, the k-th of which is twenty bytes of the value k.
pub const FIVE_MESSAGES: &[&[u8]] = &[&[1; 20], &[2; 20], &[3; 20], &[4; 20], &[5; 20]];

/// The journal of five messages, and a server of datagrams of 64 bytes.
#[derive(Drop)]
pub struct Service {
    pub journal: Journal,
    pub server: Server,
}

/// The next datagram of a plan, or none; then the plan's next message, and how many datagrams may still follow.
type Datagram = (Option<&'static [u8]>, u64, u16);

/// A call of a server with its result, or what can be read of it.
#[derive(Clone, Copy)]
enum Step {
    /// The response to a request.
    Answer(&'static [u8], &'static [u8]),
    /// Both `answer` and `plan` refuse the request.
    Refused(&'static [u8], AnswerError),
    /// The plan of a request: its first message, the message after its last one, how many datagrams it may have, and
    /// its datagrams.
    Plan(&'static [u8], u64, u64, u16, &'static [Datagram]),
    /// How many requests were answered.
    Answered(u64),
}

impl Service {
    pub fn new(alloc: Global, burst: u16) -> Result<Service, Fail> {
        Ok(Service {
            journal: journal_of(alloc, 42, FIVE_MESSAGES)?,
            server: Server::new(alloc, 64, 42, burst)?,
        })
    }

    fn answer(&mut self, rt: &impl Abort, request: &[u8]) -> Result<&[u8], AnswerError> {
        holds(rt, self.journal.max_message() <= self.server.max_message());
        self.server.answer(&self.journal, request)
    }

    fn plan(&mut self, rt: &impl Abort, request: &[u8]) -> Result<Plan, AnswerError> {
        holds(rt, self.journal.max_message() <= self.server.max_message());
        self.server.plan(&self.journal, request)
    }

    /// Whether the next datagram of a plan is this one.
    fn is_sent(&mut self, rt: &impl Abort, plan: &mut Plan, wanted: Option<&[u8]>) -> bool {
        holds(rt, self.journal.max_message() <= self.server.max_message());
        holds(rt, plan.session() == self.journal.session());
        holds(rt, plan.to() <= self.journal.next());
        self.server.datagram(&self.journal, plan) == wanted
    }

    fn are_sent(&mut self, rt: &impl Abort, plan: &mut Plan, datagrams: &[Datagram]) -> bool {
        for (datagram, from, left) in datagrams {
            let is_sent = self.is_sent(rt, plan, *datagram);
            if !is_sent || plan.from() != *from || plan.left() != *left {
                return false;
            }
        }
        true
    }

    fn is_planned(
        &mut self,
        rt: &impl Abort,
        request: &[u8],
        wanted: (u64, u64, u16),
        datagrams: &[Datagram],
    ) -> bool {
        match self.plan(rt, request) {
            Ok(mut plan) => {
                (plan.from(), plan.to(), plan.left()) == wanted
                    && self.are_sent(rt, &mut plan, datagrams)
            }
            Err(_) => false,
        }
    }

    fn expect_steps(&mut self, rt: &impl Abort, name: &str, steps: &[Step]) {
        for (i, step) in steps.iter().enumerate() {
            holds_at(rt, self.takes(rt, *step), name, i);
        }
    }

    /// Whether a step is as it states.
    fn takes(&mut self, rt: &impl Abort, step: Step) -> bool {
        match step {
            Step::Answer(request, wanted) => self.answer(rt, request) == Ok(wanted),
            Step::Refused(request, wanted) => {
                self.answer(rt, request) == Err(wanted)
                    && self.plan(rt, request).err() == Some(wanted)
            }
            Step::Plan(request, from, to, burst, datagrams) => {
                self.is_planned(rt, request, (from, to, burst), datagrams)
            }
            Step::Answered(count) => self.server.answered() == count,
        }
    }
}

/// `server-longest-front`: the response to a request for 65,535 messages from message 2 on has messages 2 and 3, which
/// fill 64 bytes.
const LONGEST_FRONT: &[Step] = &[
    Step::Answer(FROM_TWO, TWO_AND_THREE),
    Step::Answer(FROM_FIVE, FIVE),
    Step::Answered(2),
];

/// `server-refusals`, and which of two refusals comes first.
const REFUSALS: &[Step] = &[
    Step::Refused(
        b"SESSION001\0\0\0\0\0\0\0\x01\0\0",
        AnswerError::EmptyRequest,
    ),
    Step::Refused(b"SESSION001\0\0\0\0\0\0\0\0\0\0", AnswerError::SequenceZero),
    Step::Refused(
        b"SESSION001\0\0\0\0\0\0\0\x06\0\x01",
        AnswerError::Ahead { next: 6 },
    ),
    Step::Refused(
        b"SESSION002\0\0\0\0\0\0\0\0\0\x01",
        AnswerError::WrongSession,
    ),
    Step::Refused(
        b"SESSION001\0\0\0\0\0\0\0\x01\0\x01\0",
        AnswerError::RequestLength { len: 21 },
    ),
    Step::Answered(0),
];

/// Three datagrams may be sent, and two have all the messages. The plan is counted once.
const TO_THE_JOURNALS_END: &[Step] = &[
    Step::Plan(
        FROM_TWO,
        2,
        6,
        3,
        &[
            (Some(TWO_AND_THREE), 4, 2),
            (Some(FOUR_AND_FIVE), 6, 1),
            (None, 6, 1),
        ],
    ),
    Step::Answered(1),
];

const BURST_OF_ONE: &[Step] = &[Step::Plan(
    FROM_TWO,
    2,
    6,
    1,
    &[(Some(TWO_AND_THREE), 4, 0), (None, 4, 0)],
)];

const BURST_OF_TWO: &[Step] = &[Step::Plan(
    FROM_ONE,
    1,
    6,
    2,
    &[
        (Some(ONE_AND_TWO), 3, 1),
        (Some(THREE_AND_FOUR), 5, 0),
        (None, 5, 0),
    ],
)];

const AS_ASKED: &[Step] = &[Step::Plan(
    THREE_FROM_ONE,
    1,
    4,
    64,
    &[
        (Some(ONE_AND_TWO), 3, 63),
        (Some(THREE), 4, 62),
        (None, 4, 62),
    ],
)];

/// The burst of a server, and its steps.
const EXAMPLES: &[(&str, u16, &[Step])] = &[
    ("server-longest-front", 1, LONGEST_FRONT),
    ("server-refusals", 1, REFUSALS),
    ("to the journal's end", 3, TO_THE_JOURNALS_END),
    ("a burst of one", 1, BURST_OF_ONE),
    ("a burst of two", 2, BURST_OF_TWO),
    ("as asked", 64, AS_ASKED),
];

fn expect_example(
    rt: &(impl Abort + AllocGlobal),
    name: &str,
    burst: u16,
    steps: &[Step],
) -> Result<(), Fail> {
    let mut service = Service::new(rt.alloc(), burst)?;
    service.expect_steps(rt, name, steps);
    Ok(())
}

#[test]
fn no_allocation_of_a_server(rt: HostRuntime) -> Result<(), Fail> {
    for (name, burst, steps) in EXAMPLES {
        expect_example(&rt, name, *burst, steps)?;
    }
    Ok(())
}
