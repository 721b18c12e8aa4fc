//! Journals in memory, and what several modules do with them.

use mold_durable::{CommitError, DurableJournal, MemoryStorage, NotOpened};
use mold_wire::Session;
use std::alloc::Global;
use std::test::Fail;

/// The session of all journals.
pub const SESSION: Session = Session(*b"SESSION001");

/// The file of a closed journal with the messages `AB` and an empty one.
pub const EXAMPLE: [u8; 31] = *b"MOLDJNL3SESSION001\x01\x00\x00\x02AB\x01\x00\x00\x00\x01\x01\x00";

/// The calls of `created` on its storage: six of the creation, and four of the commit.
pub const CALLS_BEFORE: u64 = 10;

/// A journal in memory.
pub type InMemory = DurableJournal<MemoryStorage>;

pub fn create(alloc: Global, storage: MemoryStorage) -> Result<InMemory, NotOpened<MemoryStorage>> {
    DurableJournal::create(alloc, SESSION, 42, storage)
}

fn append_two(journal: &mut InMemory) -> Result<(), Fail> {
    journal.append(b"AB")?;
    journal.commit()?;
    journal.append(b"C")?;
    Ok(())
}

/// A journal in which the message `AB` is committed and another one waits.
pub fn created(alloc: Global, storage: MemoryStorage) -> Result<InMemory, Fail> {
    let mut journal = create(alloc, storage)?;
    append_two(&mut journal)?;
    Ok(journal)
}

/// Commits the message that waits, and closes the session if `closes` is true.
pub fn commit(journal: &mut InMemory, closes: bool) -> Result<(), CommitError> {
    if closes {
        journal.close()
    } else {
        journal.commit()
    }
}
