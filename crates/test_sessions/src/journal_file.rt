//! The file of a journal: devices that move one byte a call or fail, and allocations that fail. `tests/mutations` has
//! the cut and changed files.

use crate::comparisons::{holds, holds_at};
use crate::journals::journal_of;
use mold_devices::{IntoWrite, MemorySink, MemorySource};
use mold_session::{FileError, Journal};
use std::alloc::Global;
use std::io::Cursor;
use std::test::Fail;

/// The file, version 2, of an open journal of the messages `AB` and an empty one.
const OPEN: &[u8] = b"MOLDJNL2SESSION001\x00\x00\x00\x00\x00\x00\x00\x00\x02\x00\x02AB\x00\x00";

/// The file, version 1, of the two messages.
const FIRST: &[u8] = b"MOLDJNL1SESSION001\x00\x02AB\x00\x00";

/// The file, version 3, of a closed journal of the two messages.
const THIRD: &[u8] = b"MOLDJNL3SESSION001\x01\x00\x00\x02AB\x01\x00\x00\x00\x01\x01\x00";

/// `journal-cuts`: the saved file.
#[test]
fn no_allocation_of_save(rt: HostRuntime) -> Result<(), Fail> {
    let journal = journal_of(rt.alloc(), 42, &[b"AB", b""])?;
    let mut sink = IntoWrite::new(Cursor::new([0u8; 33]));
    let saved = journal.save(&mut sink);
    let is_file = sink.into_inner().into_inner().as_slice() == OPEN;
    holds(&rt, saved == Ok(()) && is_file);
    Ok(())
}

// Saves the journal by writes of one byte. The write after `k` ones fails. The sink then has `k` bytes.
fn is_cut(alloc: Global, journal: &Journal, k: usize) -> bool {
    let mut sink = MemorySink::new(alloc);
    sink.at_most(1);
    sink.fail_at((k as u64).saturating_add(1));
    journal.save(&mut sink) == Err(FileError::Write) && OPEN.get(..k) == Some(sink.bytes())
}

#[test]
fn bytes_before_a_failed_write_are_saved(rt: HostRuntime) -> Result<(), Fail> {
    let journal = journal_of(rt.alloc(), 42, &[b"AB", b""])?;
    for k in 0..OPEN.len() {
        holds_at(&rt, is_cut(rt.alloc(), &journal, k), "bytes", k);
    }
    Ok(())
}

/// How many messages a loaded journal has, and whether it is closed.
type Loaded = Result<(u64, bool), FileError>;

// Loads the file by reads of one byte. Read number `fails_at` fails, or none if it is 0.
fn load(alloc: Global, file: &[u8], fails_at: u64) -> Loaded {
    let mut source = MemorySource::new(file);
    source.at_most(1);
    source.fail_at(fails_at);
    let journal = Journal::load(alloc, 42, &mut source)?;
    Ok((journal.next() - 1, journal.is_closed()))
}

/// Files, whether each is closed, and how many reads load it. The last read finds the end of the file.
const FILES: [(&[u8], bool, u64); 3] = [(FIRST, false, 25), (OPEN, false, 34), (THIRD, true, 32)];

#[test]
fn a_failed_read_is_reported(rt: HostRuntime) {
    for (file, closed, reads) in FILES {
        for k in 1..=reads {
            let found = load(rt.alloc(), file, k);
            holds_at(&rt, found == Err(FileError::Read), "read", k as usize);
        }
        holds(&rt, load(rt.alloc(), file, reads + 1) == Ok((2, closed)));
    }
}

/// If an allocation fails, a file is loaded again from a new source.
#[test]
fn out_of_memory_loads_nothing(rt: HostRuntime) -> Result<(), Fail> {
    for (file, closed, _) in FILES {
        let mut found = load(rt.alloc(), file, 0);
        if found == Err(FileError::Memory) {
            found = load(rt.alloc(), file, 0);
        }
        holds(&rt, found? == (2, closed));
    }
    Ok(())
}
