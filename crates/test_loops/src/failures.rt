//! Each write and each sync of a journal fails in turn.

use crate::comparisons::{holds, holds_at};
use crate::journals::{CALLS_BEFORE, commit, create, created};
use mold_durable::{CommitError, MemoryStorage, OpenError, Storage};
use std::alloc::Global;
use std::process::Abort;
use std::test::Fail;

// Creation fails at call number `k`.
fn expect_not_created(rt: &impl Abort, alloc: Global, k: u64) {
    let mut storage = MemoryStorage::new(alloc);
    storage.fail_at(k);
    match create(alloc, storage) {
        Ok(_) => holds(rt, false),
        Err(fault) => {
            holds(
                rt,
                fault.error == OpenError::Write && fault.storage.failures() == 1,
            );
        }
    }
}

/// Creation writes three times and syncs three times.
#[test]
fn each_call_of_a_creation_fails(rt: HostRuntime) {
    for k in 1..=6u64 {
        expect_not_created(&rt, rt.alloc(), k);
    }
}

// What a commit returns if its call number `k` fails.
fn commit_with_failure(
    alloc: Global,
    k: u64,
    closes: bool,
) -> Result<Result<(), CommitError>, Fail> {
    let mut storage = MemoryStorage::new(alloc);
    storage.fail_at(CALLS_BEFORE.saturating_add(k));
    let mut journal = created(alloc, storage)?;
    Ok(commit(&mut journal, closes))
}

fn is_committed(alloc: Global, k: u64, wanted: Result<(), CommitError>) -> Result<bool, Fail> {
    let committed = commit_with_failure(alloc, k, false)?;
    let closed = commit_with_failure(alloc, k, true)?;
    Ok(committed == wanted && closed == wanted)
}

/// A commit writes twice and syncs twice, and so does a closing.
#[test]
fn each_call_of_a_commit_fails(rt: HostRuntime) -> Result<(), Fail> {
    for k in 1..=4usize {
        let is_refused = is_committed(rt.alloc(), k as u64, Err(CommitError::Write))?;
        holds_at(&rt, is_refused, "row", k);
    }
    holds(&rt, is_committed(rt.alloc(), 5, Ok(()))?);
    Ok(())
}
