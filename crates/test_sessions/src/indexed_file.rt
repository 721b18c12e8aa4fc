//! A server's journal in a small file of each version: its datagrams, and a file that was damaged after it was opened.
//! `tests/follow` has files that are cut off meanwhile, and `tests/io-errors` makes each read of a served file fail.

use crate::comparisons::{holds, holds_at};
use mold_durable::ScriptedFile;
use mold_index::IndexError;
use mold_indexed_file::IndexedFile;
use mold_session::{FileError, FileHead, FileVersion, ServedJournal, Server};
use mold_wire::Session;
use std::alloc::{AllocError, Global};
use std::process::Abort;
use std::test::Fail;

/// A version, the head of a file of that version, the bytes before the length of each message, and those after the last
/// message.
type Case = (FileVersion, &'static [u8], &'static [u8], &'static [u8]);

/// A case of each version.
const CASES: [Case; 3] = [
    (FileVersion::One, b"MOLDJNL1SESSION001", b"", b""),
    (
        FileVersion::Two { count: 5 },
        b"MOLDJNL2SESSION001\0\0\0\0\0\0\0\0\x05",
        b"",
        b"",
    ),
    (FileVersion::Three, b"MOLDJNL3SESSION001", b"\x01\0", b"\0"),
];

/// A request for messages 2 to 5.
const REQUEST: &[u8] = b"SESSION001\0\0\0\0\0\0\0\x02\0\x04";

const TWO_AND_THREE: &[u8] = b"SESSION001\0\0\0\0\0\0\0\x02\0\x02\
    \0\x14\x02\x02\x02\x02\x02\x02\x02\x02\x02\x02\x02\x02\x02\x02\x02\x02\x02\x02\x02\x02\
    \0\x14\x03\x03\x03\x03\x03\x03\x03\x03\x03\x03\x03\x03\x03\x03\x03\x03\x03\x03\x03\x03";

const FOUR_AND_FIVE: &[u8] = b"SESSION001\0\0\0\0\0\0\0\x04\0\x02\
    \0\x14\x04\x04\x04\x04\x04\x04\x04\x04\x04\x04\x04\x04\x04\x04\x04\x04\x04\x04\x04\x04\
    \0\x14\x05\x05\x05\x05\x05\x05\x05\x05\x05\x05\x05\x05\x05\x05\x05\x05\x05\x05\x05\x05";

/// The file of five messages, the k-th of which is twenty bytes of the value k. The file states `second` as the length
/// of message 2.
fn file_of(alloc: Global, case: Case, second: u8) -> Result<Vec<u8>, AllocError> {
    let (_, head, start, end) = case;
    let mut file = Vec::from_slice(alloc, head)?;
    for value in 1..=5 {
        let len = if value == 2 { second } else { 20 };
        file.extend_from_slice(start)?;
        file.extend_from_slice(&[0, len])?;
        file.extend_from_slice(&[value; 20])?;
    }
    file.extend_from_slice(end)?;
    Ok(file)
}

// The file of a case, as a script that never changes. Its call number 2 fails: only one read is needed.
fn scripted(alloc: Global, case: Case, second: u8) -> Result<ScriptedFile, AllocError> {
    let mut snapshots = Vec::new(alloc);
    snapshots.push(file_of(alloc, case, second)?)?;
    let mut file = ScriptedFile::new(snapshots, 0);
    file.fail_at(2);
    Ok(file)
}

fn head_of(version: FileVersion) -> FileHead {
    FileHead {
        session: Session(*b"SESSION001"),
        closed: false,
        version,
    }
}

fn push_five(indexed: &mut IndexedFile<ScriptedFile>) -> Result<(), IndexError> {
    for _ in 0..5 {
        indexed.push(20)?;
    }
    Ok(())
}

/// What a call for the next datagram of a plan returns.
type Sent = Result<Option<&'static [u8]>, FileError>;

// The server is owned here, since the borrow checker does not cover the comparison with one that is borrowed.
fn expect_sent(
    rt: &(impl Abort + AllocGlobal),
    indexed: &mut IndexedFile<ScriptedFile>,
    wanted: &[Sent],
) -> Result<(), Fail> {
    let mut server = Server::new(rt.alloc(), 64, 42, 9)?;
    let mut plan = server.plan_from(indexed, 6, REQUEST)?;
    for index in 0..wanted.len() {
        let sent = server.datagram_from(indexed, &mut plan);
        holds_at(rt, sent == wanted[index], "call", index);
    }
    Ok(())
}

fn expect_indexed(
    rt: &(impl Abort + AllocGlobal),
    indexed: &mut IndexedFile<ScriptedFile>,
    wanted: &[Sent],
) -> Result<(), Fail> {
    push_five(indexed)?;
    expect_sent(rt, indexed, wanted)?;
    holds(rt, indexed.session() == Session(*b"SESSION001"));
    holds(rt, indexed.max_message() == 42 && indexed.next() == 6);
    Ok(())
}

// The calls for the datagrams of the request return these results, in order.
fn expect(
    rt: &(impl Abort + AllocGlobal),
    case: Case,
    second: u8,
    wanted: &[Sent],
) -> Result<(), Fail> {
    let file = scripted(rt.alloc(), case, second)?;
    let mut indexed = IndexedFile::new(rt.alloc(), file, head_of(case.0), 42)?;
    expect_indexed(rt, &mut indexed, wanted)
}

/// A server sends the datagrams of a request from a file of each version. The second datagram takes no read: the call
/// that would fail is not made.
#[test]
fn no_allocation_of_datagrams_from_files(rt: HostRuntime) -> Result<(), Fail> {
    for case in CASES {
        let wanted = [Ok(Some(TWO_AND_THREE)), Ok(Some(FOUR_AND_FIVE)), Ok(None)];
        expect(&rt, case, 20, &wanted)?;
    }
    Ok(())
}

/// The error for message 2 in a file of this version.
fn without(version: FileVersion) -> FileError {
    match version {
        FileVersion::Three => FileError::Damaged { number: 2 },
        FileVersion::One | FileVersion::Two { .. } => FileError::BlockCut { number: 2 },
    }
}

/// A file was damaged after it was opened. Message 2 is now too long for a datagram, and is refused. No datagram
/// without messages is sent.
#[test]
fn files_damaged_after_opening(rt: HostRuntime) -> Result<(), Fail> {
    for case in CASES {
        expect(&rt, case, 43, &[Err(without(case.0))])?;
    }
    Ok(())
}

// If an allocation fails, the index is unchanged, and takes the message when there is memory again.
fn push_again(
    rt: &impl Abort,
    indexed: &mut IndexedFile<ScriptedFile>,
    number: u64,
) -> Result<(), IndexError> {
    let mut pushed = indexed.push(20);
    if pushed == Err(IndexError::Memory) {
        holds(rt, indexed.next() == number);
        pushed = indexed.push(20);
    }
    pushed?;
    holds(rt, indexed.next() == number.saturating_add(1));
    Ok(())
}

fn push_many(rt: &impl Abort, indexed: &mut IndexedFile<ScriptedFile>) -> Result<(), IndexError> {
    for number in 1..=400 {
        push_again(rt, indexed, number)?;
    }
    Ok(())
}

#[test]
fn out_of_memory_keeps_an_indexed_file(rt: HostRuntime) -> Result<(), Fail> {
    let file = ScriptedFile::new(Vec::new(rt.alloc()), 0);
    let head = head_of(FileVersion::Three);
    let mut indexed = IndexedFile::new(rt.alloc(), file, head, 42)?;
    push_many(&rt, &mut indexed)?;
    Ok(())
}
