//! A crash at each call of a commit. `tests/durable` does the same with a file, and tears the write in many ways.

use crate::comparisons::holds;
use crate::journals::{CALLS_BEFORE, commit, created};
use mold_durable::{DurableJournal, MemoryStorage};
use std::alloc::{AllocError, Global};
use std::process::Abort;
use std::test::Fail;

// What a crash leaves, if two bytes of a torn write are left.
fn left(alloc: Global, storage: &MemoryStorage) -> Result<MemoryStorage, AllocError> {
    let mut tears = Vec::new(alloc);
    tears.push(b"\x01\x01".to_vec(alloc)?)?;
    storage.after_crash(&tears)
}

// How many messages are committed after the crash, and whether the session is closed.
fn opened_after(alloc: Global, storage: &MemoryStorage) -> Result<(u64, bool), Fail> {
    let journal = DurableJournal::open(alloc, 42, left(alloc, storage)?)?;
    Ok((journal.committed(), journal.is_closed()))
}

// The commit of the second message crashes at its call number `k`.
fn opened_after_crash(alloc: Global, k: u64) -> Result<(u64, bool), Fail> {
    let mut storage = MemoryStorage::new(alloc);
    storage.crash_at(CALLS_BEFORE.saturating_add(k));
    let mut journal = created(alloc, storage)?;
    let _ = commit(&mut journal, false);
    opened_after(alloc, &journal.into_storage())
}

/// A crash during a commit leaves the messages before it, or those after it.
#[test]
fn a_crash_leaves_all_of_a_group_or_none(rt: HostRuntime) -> Result<(), Fail> {
    for k in 1..=4u64 {
        let opened = opened_after_crash(rt.alloc(), k)?;
        holds(&rt, opened == (1, false) || opened == (2, false));
    }
    Ok(())
}
