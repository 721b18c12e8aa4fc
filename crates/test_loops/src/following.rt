//! Followers of a file that grows and of a file that fails. `tests/follow` follows files of the system.

use crate::comparisons::holds;
use crate::journals::EXAMPLE;
use mold_durable::{Follower, OpenError, ScriptedFile};
use std::alloc::{AllocError, Global};
use std::process::Abort;
use std::test::Fail;

/// A shut gate, before bytes that look like a record.
const SHUT: &[u8] = b"MOLDJNL3SESSION001\x00\x00\x00\x01X\x01\x01\x00";

/// The same file after the writer wrote its first record there.
const ONE: &[u8] = b"MOLDJNL3SESSION001\x01\x00\x00\x02AB\x00\x01";

// A file with these snapshots. The first byte of each read is of a later moment than the others.
fn file_of(alloc: Global, snapshots: &[&[u8]]) -> Result<ScriptedFile, AllocError> {
    let mut list = Vec::new(alloc);
    for snapshot in snapshots {
        list.push(snapshot.to_vec(alloc)?)?;
    }
    Ok(ScriptedFile::new(list, 1))
}

/// What the polls of a follower find.
#[derive(Clone, Copy)]
enum Polls {
    /// The first poll returns this and gains nothing. The next one gains the message of `ONE`.
    Later(Result<bool, OpenError>),
    /// A poll gains the two messages of a closed session. If an allocation fails, nothing is gained, and the next poll
    /// gains both.
    Both,
}

// The last poll gained the message of `ONE`.
fn expect_one(rt: &impl Abort, follower: &Follower<ScriptedFile>) {
    let news = follower.news();
    holds(rt, news.len() == 1 && news.get(0) == Some(b"AB"));
    holds(rt, follower.next() == 2 && !follower.is_closed());
}

fn expect_later(
    rt: &impl Abort,
    follower: &mut Follower<ScriptedFile>,
    first: Result<bool, OpenError>,
) -> Result<(), OpenError> {
    let found = follower.poll();
    holds(rt, found == first && follower.next() == 1);
    holds(rt, follower.news().len() == 0);
    follower.poll()?;
    expect_one(rt, follower);
    Ok(())
}

fn expect_both(rt: &impl Abort, follower: &mut Follower<ScriptedFile>) -> Result<(), OpenError> {
    if follower.poll() == Err(OpenError::Memory) {
        holds(rt, follower.next() == 1);
        follower.poll()?;
    }
    let count = follower.news().len();
    holds(
        rt,
        count == 2 && follower.next() == 3 && follower.is_closed(),
    );
    Ok(())
}

fn expect_polls(
    rt: &impl Abort,
    follower: &mut Follower<ScriptedFile>,
    polls: Polls,
) -> Result<(), OpenError> {
    match polls {
        Polls::Later(first) => expect_later(rt, follower, first),
        Polls::Both => expect_both(rt, follower),
    }
}

// The call of this number fails. Only this function owns a follower: each of them costs its proof.
fn expect(
    rt: &(impl Abort + AllocGlobal),
    snapshots: &[&[u8]],
    fails: u64,
    polls: Polls,
) -> Result<(), Fail> {
    let mut file = file_of(rt.alloc(), snapshots)?;
    file.fail_at(fails);
    let mut follower = Follower::open(rt.alloc(), 42, file)?;
    Ok(expect_polls(rt, &mut follower, polls)?)
}

/// A read of the gate shows it shut, and a later one open. Any other bytes of that later read are those from before the
/// gate was opened.
#[test]
fn no_record_is_read_together_with_its_gate(rt: HostRuntime) -> Result<(), Fail> {
    expect(&rt, &[SHUT, SHUT, SHUT, ONE], 0, Polls::Later(Ok(false)))
}

/// Opening reads the head. A poll of one message reads its gate, its record and the next gate, and then syncs.
#[test]
fn nothing_is_gained_after_a_failed_call(rt: HostRuntime) -> Result<(), Fail> {
    for fails in 2..=4u64 {
        expect(&rt, &[ONE], fails, Polls::Later(Err(OpenError::Read)))?;
    }
    expect(&rt, &[ONE], 5, Polls::Later(Err(OpenError::Write)))
}

#[test]
fn out_of_memory_follows_nothing(rt: HostRuntime) -> Result<(), Fail> {
    expect(&rt, &[&EXAMPLE], 0, Polls::Both)
}
