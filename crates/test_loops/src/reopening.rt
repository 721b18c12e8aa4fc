//! A journal is opened, and each read and the sync fail in turn.

use crate::comparisons::holds;
use crate::journals::EXAMPLE;
use mold_durable::{DurableJournal, MemoryStorage, OpenError};
use std::alloc::Global;
use std::test::Fail;

/// What opening returns: how many messages are committed, and whether the journal is closed.
type Opened = Result<(u64, bool), OpenError>;

// Opens the example, with call number `k` failing.
fn open_with_failure(alloc: Global, k: u64) -> Result<Opened, Fail> {
    let mut storage = MemoryStorage::with_bytes(alloc, &EXAMPLE)?;
    storage.fail_at(k);
    match DurableJournal::open(alloc, 42, storage) {
        Ok(journal) => Ok(Ok((journal.committed(), journal.is_closed()))),
        Err(fault) => Ok(Err(fault.error)),
    }
}

// The number of reads that opening the example makes.
fn count_reads(alloc: Global) -> Result<u64, Fail> {
    for k in 1..100u64 {
        if open_with_failure(alloc, k)? != Err(OpenError::Read) {
            return Ok(k - 1);
        }
    }
    Ok(0)
}

/// The sync is the last call.
#[test]
fn each_call_of_an_opening_fails(rt: HostRuntime) -> Result<(), Fail> {
    let reads = count_reads(rt.alloc())?;
    let synced = open_with_failure(rt.alloc(), reads.saturating_add(1))?;
    holds(&rt, reads > 0 && synced == Err(OpenError::Write));
    let opened = open_with_failure(rt.alloc(), reads.saturating_add(2))?;
    holds(&rt, opened == Ok((2, true)));
    Ok(())
}
