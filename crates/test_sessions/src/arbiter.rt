//! The arbiter of line A and line B: worked examples.

use crate::comparisons::{holds, holds_at};
use crate::receiver_steps::{DATA_1_3, SESSION, is_batch, taken};
use mold_receiver::{Arbiter, Batch, Line, Receiver, Refusal, Taken};
use mold_wire::DecodeError;
use std::alloc::Global;
use std::process::Abort;
use std::test::Fail;

/// An arbiter at message 1 with a window of 4, and its batch.
#[derive(Drop)]
struct Arbitration {
    arbiter: Arbiter,
    batch: Batch,
}

/// A call of an arbiter with its result, or what can be read of it.
#[derive(Clone, Copy)]
enum Step {
    /// A packet of a line, or a response, which belongs to no line: this many of its messages are delivered, and none
    /// is stored.
    Taken(Option<Line>, &'static [u8], u32),
    /// A datagram of line A is refused.
    Refused(&'static [u8], Refusal),
    /// The reports of both lines: datagrams, refused datagrams, and `front`.
    Lines((u64, u64, u64), (u64, u64, u64)),
    /// How many messages each line lags.
    Lags(u64, u64),
}

impl Arbitration {
    fn new(alloc: Global) -> Result<Arbitration, Fail> {
        let receiver = Receiver::new(alloc, SESSION, 1, 4)?;
        Ok(Arbitration {
            arbiter: Arbiter::new(receiver),
            batch: Batch::new(alloc),
        })
    }

    fn take(
        &mut self,
        rt: &impl Abort,
        line: Option<Line>,
        packet: &[u8],
    ) -> Result<Taken, Refusal> {
        holds(rt, self.batch.follows(self.arbiter.receiver().next()));
        match line {
            Some(line) => self.arbiter.take(line, packet, &mut self.batch),
            None => self.arbiter.take_answer(packet, &mut self.batch),
        }
    }

    fn report(&self, line: Line) -> (u64, u64, u64) {
        let report = self.arbiter.report(line);
        (report.datagrams, report.refused, report.front)
    }

    /// Whether a step is as it states.
    fn takes(&mut self, rt: &impl Abort, step: Step) -> bool {
        match step {
            Step::Taken(line, packet, handed) => {
                self.take(rt, line, packet) == taken((handed, 0, 0))
            }
            Step::Refused(packet, refused) => {
                self.take(rt, Some(Line::A), packet) == Err(refused)
            }
            Step::Lines(a, b) => self.report(Line::A) == a && self.report(Line::B) == b,
            Step::Lags(a, b) => self.arbiter.lag(Line::A) == a && self.arbiter.lag(Line::B) == b,
        }
    }

    /// After the steps, the batch has messages 1 to 3.
    fn expect_steps(&mut self, rt: &impl Abort, name: &str, steps: &[Step]) {
        for (i, step) in steps.iter().enumerate() {
            holds_at(rt, self.takes(rt, *step), name, i);
        }
        holds(rt, is_batch(&self.batch, 1, &[b"A", b"B", b"C"]));
    }
}

const TWO_LINES: &[Step] = &[
    Step::Taken(Some(Line::A), DATA_1_3, 3),
    Step::Lines((1, 0, 4), (0, 0, 1)),
    Step::Lags(0, 3),
    Step::Taken(Some(Line::B), DATA_1_3, 0),
    Step::Lines((1, 0, 4), (1, 0, 4)),
    Step::Lags(0, 0),
];

/// Responses belong to no line. A datagram of a byte is refused.
const RESPONSES: &[Step] = &[
    Step::Taken(None, DATA_1_3, 3),
    Step::Lines((0, 0, 1), (0, 0, 1)),
    Step::Lags(3, 3),
    Step::Refused(b"\0", Refusal::Malformed(DecodeError::Short { len: 1 })),
    Step::Lines((0, 1, 1), (0, 0, 1)),
];

// The only function that owns an arbiter: each of them costs its proof.
fn expect(rt: &(impl Abort + AllocGlobal), name: &str, steps: &[Step]) -> Result<(), Fail> {
    let mut arbitration = Arbitration::new(rt.alloc())?;
    arbitration.expect_steps(rt, name, steps);
    Ok(())
}

#[test]
fn examples_of_an_arbiter(rt: HostRuntime) -> Result<(), Fail> {
    expect(&rt, "two-lines", TWO_LINES)?;
    expect(&rt, "responses", RESPONSES)
}
