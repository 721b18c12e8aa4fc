//! The journal of a storage, of which no message is in memory.

ghost use Rattle.std.specs.Prelude.{◌≡◌, IfOk};
ghost use Rattle.mold_session.specs.Journal.{fresh_journal};
ghost use Rattle.mold_indexed_file.specs.Stored.{IsOfJournal};

use mold_durable::MessageTaker;
use mold_indexed_file::StorageIndex;
use mold_unsent::CountedJournal;
use mold_wire::Session;
use std::alloc::{AllocError, Global};

/// The journal of a storage: the number of its messages, and the index by which they are read. It takes the messages
/// while `DurableJournal::open_with` reads the storage.
#[derive(Drop)]
pub struct StoredJournal {
    /// The journal, of which no message is in memory.
    pub journal: CountedJournal,
    /// The index of its messages.
    pub index: StorageIndex,
}

impl StoredJournal {
    /// Makes the journal of a session without messages. This allocates the buffer of the index.
    pub fn new(
        alloc: Global,
        session: Session,
        max_message: u16,
    ) -> Result<StoredJournal, AllocError>
        ensures fresh { IfOk result (λ stored. stored.journal ≡ fresh_journal session max_message) }
        ensures is { IfOk result (λ stored. IsOfJournal stored.index stored.journal) }
    {
        let journal = CountedJournal::new(session, max_message);
        // For the prover: it states that the journal is one.
        let _count = journal.count();
        let index = StorageIndex::new(alloc, session, max_message)?;
        Ok(StoredJournal { journal, index })
    }
}

impl MessageTaker for StoredJournal {
    ghost use Rattle.mold_stored_journal.specs.Stored.{HoldsJournal};

    ghost holds = { λ stored journal. HoldsJournal stored journal };

    fn begin(
        alloc: Global,
        session: Session,
        max_message: u16,
    ) -> Result<StoredJournal, AllocError> {
        StoredJournal::new(alloc, session, max_message)
    }

    fn take(&mut self, message: &[u8]) -> Result<(), AllocError> {
        // No storage has a message that ends after the greatest offset of an index, so an error means out of memory.
        let Ok(()) = self.index.push(message.len() as u16) else {
            return Err(AllocError);
        };
        self.journal.append_within(message);
        // For the prover: it states that the journal is one.
        let _count = self.journal.count();
        Ok(())
    }

    fn close(&mut self) {
        self.journal.close();
    }
}
