//! The journal of a session of which no message is in memory.

ghost use Rattle.std.specs.Prelude.{◌≡◌, ◌+◌, ◌<◌, ◌++◌, true, false, None, Some, length, IfErr, IfOk};
ghost use Rattle.std.specs.Prelude.{OnErr, OnOk};
ghost use Rattle.std.specs.List.{AllByRecursion};
ghost use Rattle.mold_wire.specs.declared.limits.TheConstants.{MAX_NUMBER};
ghost use Rattle.mold_session.specs.Journal.{IsJournal, IsWithin, append_refusal, appended, fresh_journal};

use crate::forgotten_messages::{ForgottenMessages, Message};
use mold_messages::MessageList;
use mold_session::{AppendError, MAX_MESSAGES};
use mold_wire::Session;
use std::marker::Model;

/// The journal of a session of which no message is in memory, only their number. Clauses see it as a `Journal`. Its
/// first message has sequence number 1.
#[derive(Drop)]
pub struct CountedJournal {
    session: Session,
    max_message: u16,
    count: u64,
    closed: bool,
    forgotten: ForgottenMessages,
}

impl Model for CountedJournal {
    ghost use Rattle.std.specs.Prelude.{◌≡◌, ◌<◌, ◌^◌, length};
    ghost use Rattle.mold_session.specs.Journal.{JournalState, AreMessages};

    ghost Value = { JournalState };

    ghost view = { λ j. record {
      session = j.session;
      max_message = j.max_message;
      messages = j.forgotten.messages;
      closed = j.closed;
    } };

    ghost invariant = { λ j. (j.count ≡ length j.forgotten.messages)
        × ((j.max_message < 2 ^ 16) × AreMessages j.max_message j.forgotten.messages) };
}

impl CountedJournal {
    /// Returns an open journal without messages, for messages of up to `max_message` bytes.
    pub fn new(session: Session, max_message: u16) -> CountedJournal
        ensures { result ≡ fresh_journal session max_message }
    {
        CountedJournal {
            session,
            max_message,
            count: 0,
            closed: false,
            forgotten: ForgottenMessages::new(),
        }
    }

    /// Returns the session that the messages belong to.
    pub fn session(&self) -> Session
        ensures { result ≡ self.now.session }
    {
        self.session
    }

    /// Returns the largest length of a message, in bytes.
    pub fn max_message(&self) -> u16
        ensures { result ≡ self.now.max_message }
    {
        self.max_message
    }

    /// Returns true if the journal is closed and takes no more messages.
    pub fn is_closed(&self) -> bool
        ensures { result ≡ self.now.closed }
    {
        self.closed
    }

    /// Returns the number of messages.
    pub fn count(&self) -> u64
        ensures value { result ≡ length self.now.messages }
        ensures journal { IsJournal self.now }
    {
        self.count
    }

    /// Appends a message, which may then be removed from memory, and returns its sequence number. After an error the
    /// journal is unchanged. It allocates nothing.
    pub fn append(&mut self, message: &[u8]) -> Result<u64, AppendError>
        ensures number { IfOk result (λ number. number ≡ length self.old.messages + 1) }
        ensures taken { OnOk result (append_refusal self.old message.now ≡ None) }
        ensures added { OnOk result (self.new ≡ appended self.old message.now) }
        ensures refused { IfErr result (λ error. append_refusal self.old message.now ≡ Some error) }
        ensures same { OnErr result (self.new ≡ self.old) }
    {
        if self.is_closed() {
            return Err(AppendError::Closed);
        }
        if message.len() > usize::from(self.max_message()) {
            return Err(AppendError::TooLong { len: message.len() });
        }
        if self.count == MAX_MESSAGES {
            return Err(AppendError::Full);
        }
        self.append_within(message);
        Ok(self.count)
    }

    /// Appends a message that the journal can take, which may then be removed from memory. It only counts the message.
    pub fn append_within(&mut self, message: &[u8])
        requires is_open { self.old.closed ≡ false }
        requires journal { IsJournal (appended self.old message.now) }
        ensures { self.new ≡ appended self.old message.now }
    {
        self.forgotten = self.forgotten.and(&Message { bytes: message });
        self.count += 1;
    }

    /// Appends the messages of a list, which may then be removed from memory.
    pub fn append_all(&mut self, list: &MessageList)
        requires few { length self.old.messages + length list.now.messages < MAX_NUMBER }
        requires each { AllByRecursion (IsWithin self.old.max_message) list.now.messages }
        ensures { self.new ≡ record self.old { messages = self.old.messages ++ list.now.messages } }
    {
        self.forgotten = self.forgotten.followed_by(list);
        self.count += list.len() as u64;
    }

    /// Closes the journal, which then takes no more messages. It has no effect on a closed journal.
    pub fn close(&mut self)
        ensures { self.new ≡ record self.old { closed = true } }
    {
        self.closed = true;
    }
}
