//! The checker of captures: its runs of carried messages, and its verdict after an allocation has failed. `tests/cases`
//! has the verdicts and the order of the refusals.

use crate::comparisons::{holds, holds_at};
use mold_capture::{Checker, Memory, Refusal, Verdict};
use std::process::Abort;
use std::test::Fail;

/// Messages 5, 1 and 2, and the end of a session of six.
const DATAGRAMS: [&[u8]; 4] = [
    b"SESSION001\0\0\0\0\0\0\0\x05\0\x01\0\x02Ee",
    b"SESSION001\0\0\0\0\0\0\0\x01\0\x01\0\x01A",
    b"SESSION001\0\0\0\0\0\0\0\x02\0\x01\0\x01B",
    b"SESSION001\0\0\0\0\0\0\0\x07\xff\xff",
];

/// A number, and the first number of the run from there on.
const RUNS: [(u64, Option<u64>); 6] = [
    (0, Some(1)),
    (1, Some(1)),
    (2, Some(2)),
    (3, Some(5)),
    (5, Some(5)),
    (6, None),
];

fn add_all(rt: &impl Abort, checker: &mut Checker) {
    for (at, datagram) in DATAGRAMS.iter().enumerate() {
        holds_at(rt, checker.add(datagram).is_ok(), "datagram", at);
    }
}

fn expect_runs(rt: &impl Abort, checker: &Checker) {
    for (at, (from, first)) in RUNS.iter().enumerate() {
        let found = checker.run_from(*from).map(|run| run.first);
        holds_at(rt, found == *first, "run", at);
    }
    holds(rt, checker.end() == Some(7) && checker.known() == 7);
}

#[test]
fn runs_are_found_in_order(rt: HostRuntime) -> Result<(), Fail> {
    let mut checker = Checker::new(rt.alloc());
    add_all(&rt, &mut checker);
    expect_runs(&rt, &checker);
    Ok(())
}

fn is_nothing_missing(verdict: &Verdict) -> bool {
    match verdict {
        Verdict::Incomplete { missing, end } => missing.is_empty() && end.is_none(),
        Verdict::Whole { .. } => false,
    }
}

// Whether the verdict is that nothing is missing and no end is known. If its allocation fails, there is no verdict.
fn is_without_gap(checker: &Checker) -> bool {
    match checker.verdict() {
        Ok(verdict) => is_nothing_missing(&verdict),
        Err(Memory) => true,
    }
}

// Adds a message. If an allocation fails, the checker is as before, and the message is added again.
fn add_again(
    rt: &impl Abort,
    checker: &mut Checker,
    datagram: &[u8],
    known: u64,
) -> Result<(), Refusal> {
    if checker.add(datagram) == Err(Refusal::Memory) {
        holds(rt, checker.known() == known && is_without_gap(checker));
        checker.add(datagram)?;
    }
    holds(rt, checker.known() == known.saturating_add(1));
    Ok(())
}

fn add_two(rt: &impl Abort, checker: &mut Checker) -> Result<(), Refusal> {
    add_again(rt, checker, DATAGRAMS[1], 1)?;
    add_again(rt, checker, DATAGRAMS[2], 2)
}

#[test]
fn out_of_memory_adds_nothing(rt: HostRuntime) -> Result<(), Fail> {
    let mut checker = Checker::new(rt.alloc());
    add_two(&rt, &mut checker)?;
    holds(&rt, is_without_gap(&checker));
    Ok(())
}
