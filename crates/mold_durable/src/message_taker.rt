//! The trait of what takes the messages of a journal while the journal is opened.

ghost use Rattle.std.specs.Prelude.{◌≡◌, ◌≤◌, false, length, true, IfOk, OnOk};
ghost use Rattle.mold_session.specs.Journal.{IsJournal, JournalState, appended, fresh_journal};
ghost use Rattle.mold_wire.specs.declared.block.TheConstants.{MAX_MESSAGE};
ghost use Rattle.mold_durable.specs.MessageTaker.{MayTake};

use mold_wire::Session;
use std::alloc::{AllocError, Global};

/// Takes the messages of a journal, in order, while the journal is opened. So what needs each message once does not read
/// the storage again.
pub trait MessageTaker: Drop {
    // The journal whose messages were taken.
    ghost holds: { Self → JournalState → Type 0 };

    /// Makes the taker of an open journal without messages. It is called once, after the head of the journal was read.
    fn begin(alloc: Global, session: Session, max_message: u16) -> Result<Self, AllocError>
        ensures { IfOk result (λ taker. holds taker (fresh_journal session max_message)) };

    /// Takes the next message. After an error, the journal is not opened.
    fn take(&mut self, message: &[u8]) -> Result<(), AllocError>
        requires length { length message.now ≤ MAX_MESSAGE }
        requires is_open { MayTake holds self.old message.now }
        ensures { (journal : JournalState) → holds self.old journal → journal.closed ≡ false →
            IsJournal (appended journal message.now) →
            OnOk result (holds self.new (appended journal message.now)) };

    /// Takes the end of a session that is closed. It is called after the last message.
    fn close(&mut self)
        ensures { (journal : JournalState) → holds self.old journal →
            holds self.new (record journal { closed = true }) };
}

/// A taker that keeps nothing.
#[derive(Drop)]
pub struct SkipMessages {}

impl MessageTaker for SkipMessages {
    ghost holds = { λ _ _. Unit {0} };

    fn begin(
        _alloc: Global,
        _session: Session,
        _max_message: u16,
    ) -> Result<SkipMessages, AllocError> {
        Ok(SkipMessages {})
    }

    fn take(&mut self, _message: &[u8]) -> Result<(), AllocError> {
        Ok(())
    }

    fn close(&mut self) {}
}
