//! Steps of the policy of requests: patience 10, timeout 100, one request each 10 and two at once, at most 3 messages
//! in a request. Contracts state the policy, and `tests/repair-network` compares it with a model.

use crate::comparisons::holds;
use mold_pacing::{Ask, Gap, Pacer, PacerOptions, Step};
use std::alloc::{AllocError, Global};
use std::process::Abort;
use std::test::Fail;

const OPTIONS: PacerOptions = PacerOptions {
    patience: 10,
    timeout: 100,
    ceiling: 400,
    settle: 5,
    interval: 10,
    tolerance: 10,
    most: 3,
    places: 4,
    servers: 2,
};

fn run(alloc: Global, pacer: &mut Pacer) -> Result<Vec<Option<Ask>>, AllocError> {
    let steps = [
        Step::Advance { time: 10, known: 3 },
        Step::Advance { time: 20, known: 3 },
        Step::Poll {
            gaps: &[Gap { first: 1, end: 3 }],
        },
    ];
    pacer.run(alloc, &steps)
}

// If the allocation fails, no step was applied, so the steps are run again.
fn run_again(alloc: Global, pacer: &mut Pacer) -> Result<Vec<Option<Ask>>, AllocError> {
    match run(alloc, pacer) {
        Ok(asks) => Ok(asks),
        Err(_) => run(alloc, pacer),
    }
}

fn is_asked_last(asks: &[Option<Ask>]) -> bool {
    match asks {
        [None, None, Some(ask)] => ask.first == 1 && ask.end == 3 && ask.server == 0,
        _ => false,
    }
}

// Message 1 was requested, and the request has no response yet. After the timeout it counts as one without a response.
fn expect_applied(rt: &impl Abort, pacer: &mut Pacer) {
    let adapted = pacer.apply(Step::Adapt { patience: 20 });
    let advanced = pacer.apply(Step::Advance {
        time: 120,
        known: 3,
    });
    holds(rt, adapted.is_none() && advanced.is_none());
    holds(rt, pacer.attempts(1) == 1);
}

fn expect_run(rt: &(impl Abort + AllocGlobal), pacer: &mut Pacer) -> Result<(), AllocError> {
    let asks = run_again(rt.alloc(), pacer)?;
    holds(rt, is_asked_last(&asks));
    Ok(())
}

#[test]
fn out_of_memory_runs_steps(rt: HostRuntime) -> Result<(), Fail> {
    let mut pacer = Pacer::new(rt.alloc(), OPTIONS, 1)?;
    expect_run(&rt, &mut pacer)?;
    expect_applied(&rt, &mut pacer);
    Ok(())
}
