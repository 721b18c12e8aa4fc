//! A run of a repairer by a worked example. The expected values were worked out by hand: patience 10, timeout 100, and
//! one request before a message is given up. `tests/repair-network` compares a repairer with a model.

use crate::comparisons::holds;
use crate::parts::{DATA_1, DATA_2, DATA_3, SESSION, repairer};
use mold_pacing::Gap;
use mold_receiver::{Batch, Line};
use mold_repair::run::run;
use mold_repair::{Ask, Outcome, RepairOptions, RepairOrigin, RepairStep, Repairer};
use mold_wire::Request;
use std::alloc::{AllocError, Global};
use std::process::Abort;
use std::test::Fail;

const OPTIONS: RepairOptions = RepairOptions {
    patience: 10,
    timeout: 100,
    ceiling: 400,
    settle: 5,
    interval: 10,
    bucket: 2,
    places: 4,
    servers: 1,
    give_up: 1,
    audit: 0,
};

const ON_A: RepairOrigin = RepairOrigin::Line(Line::A);

/// Nothing is requested, lost or delivered, and the next message is 2.
const WAITS: Outcome = Outcome {
    ask: None,
    lost: None,
    delivered: Gap { first: 2, end: 2 },
};

const REQUEST: Request = Request {
    session: SESSION,
    sequence: 2,
    count: 1,
};

// Message 2 is missing. It is requested after one to two patiences. After the timeout it is given up, and a response is
// too late.
const OUTCOMES: [Outcome; 7] = [
    Outcome {
        delivered: Gap { first: 1, end: 2 },
        ..WAITS
    },
    WAITS,
    WAITS,
    Outcome {
        ask: Some(Ask {
            request: REQUEST,
            server: 0,
        }),
        ..WAITS
    },
    Outcome {
        lost: Some(Gap { first: 2, end: 3 }),
        delivered: Gap { first: 3, end: 4 },
        ..WAITS
    },
    Outcome {
        delivered: Gap { first: 4, end: 4 },
        ..WAITS
    },
    Outcome {
        delivered: Gap { first: 4, end: 4 },
        ..WAITS
    },
];

fn run_steps(
    alloc: Global,
    repairer: &mut Repairer,
    batch: &mut Batch,
) -> Result<Vec<Outcome>, AllocError> {
    let steps = [
        RepairStep::Take {
            time: 1,
            origin: ON_A,
            datagram: DATA_1,
        },
        RepairStep::Take {
            time: 2,
            origin: ON_A,
            datagram: DATA_3,
        },
        RepairStep::Poll { time: 10 },
        RepairStep::Poll { time: 20 },
        RepairStep::Lost { time: 120 },
        RepairStep::Take {
            time: 130,
            origin: RepairOrigin::Server(0),
            datagram: DATA_2,
        },
        RepairStep::Pass { time: 131 },
    ];
    run(repairer, alloc, &steps, batch)
}

fn expect_run(
    rt: &(impl Abort + AllocGlobal),
    repairer: &mut Repairer,
    batch: &mut Batch,
) -> Result<(), AllocError> {
    let outcomes = run_steps(rt.alloc(), repairer, batch)?;
    holds(rt, outcomes.as_slice() == OUTCOMES.as_slice());
    Ok(())
}

#[test]
fn requests_and_gives_up(rt: HostRuntime) -> Result<(), Fail> {
    let mut repairer = repairer(rt.alloc(), OPTIONS)?;
    expect_run(&rt, &mut repairer, &mut Batch::new(rt.alloc()))?;
    Ok(())
}
