//! The journal of a session: its messages in the order in which they were published.

ghost use Rattle.std.specs.Prelude.{◌≡◌, ◌+◌, ◌<◌, ◌≤◌, true, false, None, length, drop, take, ◌-◌, unwrap_or};
ghost use Rattle.std.specs.Prelude.{IfOk};
ghost use Rattle.std.specs.Prelude.{IfErr, IfSome, IfNone, OnOk, OnErr, ◌⊎◌};
ghost use Rattle.std.specs.Io.KnownBytes.{IsAtEnd};
ghost use Rattle.std.specs.Option.{option_copied, OnSome};
ghost use Rattle.mold_messages.specs.Listed.{byte_count};
ghost use Rattle.mold_devices.specs.Devices.{Counts};
ghost use Rattle.mold_session.specs.File.{SpellsJournal, SpellsJournal2, AppendsFile, AppendsFilePrefix, file_length};
ghost use Rattle.mold_session.specs.FileFault.{JournalFault};
ghost use Rattle.mold_session.specs.Journal.{IsJournal, message_numbered, append_refusal, appended, fresh_journal};
ghost use Rattle.mold_session.specs.Journal.{without_last};
ghost use Rattle.mold_session.specs.Loading.{Refuses, CountsLoad};
ghost use Rattle.mold_session.specs.Records.{SpellsJournal3};
ghost use Rattle.mold_session.specs.Putting.{PutsFile};
ghost use Rattle.mold_session.specs.declared.error.AppendError.{AppendError};
ghost use Rattle.mold_session.specs.declared.error.FileError.{FileError};

use crate::checking::check_file;
use crate::error::{AppendError, FileError};
use crate::loading::load_file;
use crate::saving::{HEAD_LENGTH, put_file, save_file};
use mold_devices::{Sink, Source};
use mold_messages::{MessageIterator, MessageList};
use mold_wire::{LENGTH_BYTES, MAX_NUMBER, Session};
use std::alloc::Global;
use std::fmt;
use std::fmt::{Debug, Formatter};
use std::marker::Model;

/// The largest number of messages in a session. The sequence number after the last message's must fit 64 bits, too.
pub const MAX_MESSAGES: u64 = MAX_NUMBER - 1;

/// The journal of a session. Its first message has sequence number 1. It takes messages until it is closed.
#[derive(Drop)]
pub struct Journal {
    session: Session,
    max_message: u16,
    list: MessageList,
    closed: bool,
}

impl Debug for Journal {
    fn fmt<W: fmt::Write>(&self, f: &mut Formatter<W>) -> fmt::Result {
        f.debug_struct("Journal").finish_non_exhaustive()
    }
}

impl Model for Journal {
    ghost use Rattle.std.specs.Prelude.{◌<◌, ◌^◌};
    ghost use Rattle.mold_session.specs.Journal.{JournalState, AreMessages};

    ghost Value = { JournalState };

    ghost view = { λ j. record {
      session = j.session;
      max_message = j.max_message;
      messages = j.list.messages;
      closed = j.closed;
    } };

    ghost invariant = { λ j. (j.max_message < 2 ^ 16) × AreMessages j.max_message j.list.messages };
}

impl Journal {
    /// Returns an open journal without messages, for messages of up to `max_message` bytes. This allocates nothing.
    pub fn new(alloc: Global, session: Session, max_message: u16) -> Journal
        ensures { result ≡ fresh_journal session max_message }
    {
        Journal {
            session,
            max_message,
            list: MessageList::new(alloc),
            closed: false,
        }
    }

    /// Returns the session that the messages belong to.
    pub fn session(&self) -> Session
        ensures { result ≡ self.now.session }
    {
        self.session
    }

    /// Returns the largest length of a message, in bytes.
    pub fn max_message(&self) -> u16
        ensures { result ≡ self.now.max_message }
    {
        self.max_message
    }

    /// Returns true if the journal is closed and takes no more messages.
    pub fn is_closed(&self) -> bool
        ensures { result ≡ self.now.closed }
    {
        self.closed
    }

    /// Returns the sequence number that the next message gets: one more than the number of messages.
    pub fn next(&self) -> u64
        ensures value { result ≡ length self.now.messages + 1 }
        ensures journal { IsJournal self.now }
    {
        self.len() + 1
    }

    pub(crate) fn len(&self) -> u64
        ensures value { result ≡ length self.now.messages }
        ensures journal { IsJournal self.now }
    {
        self.list.len() as u64
    }

    /// Returns the message with this sequence number, in constant time. Returns `None` for 0 and for a number
    /// that no message has yet.
    pub fn get(&self, number: u64) -> Option<&[u8]>
        ensures { option_copied result ≡ message_numbered self.now.messages number }
    {
        let index = number.checked_sub(1)?;
        self.list.get(index as usize)
    }

    // The messages from index `index` on. The first message has index 0.
    pub(crate) fn iter_from(&self, index: u64) -> MessageIterator<'_>
        ensures from { result ≡ drop index self.now.messages }
        ensures journal { IsJournal self.now }
    {
        self.list.iter_from(index as usize)
    }

    // The total length in bytes of the messages from index `index` on, in constant time.
    pub(crate) fn joined_from(&self, index: u64) -> usize
        requires { index ≤ length self.now.messages }
        ensures { result ≡ byte_count (drop index self.now.messages) }
    {
        self.list.joined_length(index as usize, self.list.len())
    }

    /// Appends a message and returns its sequence number. After an error the journal is unchanged; `Memory` is returned
    /// only if an allocation failed.
    pub fn append(&mut self, message: &[u8]) -> Result<u64, AppendError>
        ensures number { IfOk result (λ number. number ≡ length self.old.messages + 1) }
        ensures taken { OnOk result (append_refusal self.old message.now ≡ None) }
        ensures added { OnOk result (self.new ≡ appended self.old message.now) }
        ensures refused { IfErr result (λ error.
            error ≡ unwrap_or (append_refusal self.old message.now) AppendError.Memory) }
        ensures same { OnErr result (self.new ≡ self.old) }
    {
        if self.closed {
            return Err(AppendError::Closed);
        }
        if message.len() > usize::from(self.max_message) {
            return Err(AppendError::TooLong { len: message.len() });
        }
        if self.list.len() as u64 == MAX_MESSAGES {
            return Err(AppendError::Full);
        }
        match self.list.push(message) {
            Ok(()) => Ok(self.list.len() as u64),
            Err(_) => Err(AppendError::Memory),
        }
    }

    // Removes the last message.
    pub(crate) fn remove_last(&mut self)
        ensures removed { self.new ≡ without_last self.old }
        ensures journal { IsJournal self.old }
    {
        let count = self.list.len();
        self.list.truncate(count.saturating_sub(1));
    }

    /// Loads a journal from its file, of version 1, 2 or 3, whose messages have at most `max_message` bytes. A journal
    /// from a file of version 1 is open.
    ///
    /// It goes through the file once, in reads of at most 32,768 bytes, and holds only the journal and the bytes of one
    /// read. On success it has read the source to its end.
    ///
    /// If the bytes have a fault, their only one (`laws::one_fault_law`) is returned, or `Read` or `Memory` if a read
    /// or an allocation fails first.
    pub fn load<S: Source>(
        alloc: Global,
        max_message: u16,
        source: &mut S,
    ) -> Result<Journal, FileError>
        ensures bound { IfOk result (λ journal. journal.max_message ≡ max_message) }
        ensures listed { IfOk result (λ journal. IsJournal journal) }
        ensures whole { IfOk result (λ journal. IfSome (S.left source.old) (λ bytes.
            ((journal.closed ≡ false) × SpellsJournal journal.session journal.messages bytes)
            ⊎ (SpellsJournal2 journal.session journal.messages journal.closed bytes
            ⊎ SpellsJournal3 journal.session journal.messages journal.closed bytes))) }
        ensures spent { IfOk result (λ _. IsAtEnd (S.left source.new)) }
        ensures refused { IfErr result (λ error. Refuses (JournalFault max_message) (S.left source.old) error) }
        ensures failures { CountsLoad (S.failed source.old) (S.failed source.new) result }
    {
        let (head, list) = load_file(alloc, max_message, source)?;
        Ok(Journal {
            session: head.session,
            max_message,
            list,
            closed: head.closed,
        })
    }

    /// Checks that the bytes are the file of a journal, of version 1, 2 or 3, whose messages have at most
    /// `max_message` bytes. The error is their fault, which `load` returns too unless an allocation fails first.
    ///
    /// It goes through the bytes once and allocates nothing.
    pub fn check(max_message: u16, bytes: &[u8]) -> Result<(), FileError>
        ensures valid { OnOk result ((error : FileError) → ¬ JournalFault max_message bytes.now error) }
        ensures refused { IfErr result (λ error. JournalFault max_message bytes.now error) }
    {
        check_file(max_message, bytes)
    }

    /// Saves the journal as a file of version 2. Blocks are gathered into writes of up to 4,096 bytes, and a longer
    /// message has a separate write. This allocates nothing.
    ///
    /// `Write` is the only error; a prefix of the file is then written to the sink.
    pub fn save<K: Sink>(&self, sink: &mut K) -> Result<(), FileError>
        ensures whole { OnOk result (AppendsFile (K.held sink.old) (K.held sink.new)
            self.now.session self.now.messages self.now.closed) }
        ensures front { OnErr result (AppendsFilePrefix (K.held sink.old) (K.held sink.new)
            self.now.session self.now.messages self.now.closed) }
        ensures refused { IfErr result (λ error. error ≡ FileError.Write) }
        ensures failures { Counts (K.failed sink.old) (K.failed sink.new) result }
    {
        match save_file(self.session, self.closed, &self.list, sink) {
            Ok(()) => Ok(()),
            Err(_) => Err(FileError::Write),
        }
    }

    /// Returns the length in bytes of the journal's file in version 2, in constant time: 27, and for each
    /// message 2 plus its length.
    pub fn file_length(&self) -> usize
        ensures { result ≡ file_length self.now.messages }
    {
        self.list.total_length() + LENGTH_BYTES * self.list.len() + HEAD_LENGTH
    }

    /// Writes the journal's file, in version 2, to the start of the buffer and returns its length. This allocates
    /// nothing.
    ///
    /// If the buffer is shorter than the file, it is left unchanged and `None` is returned.
    pub fn save_in(&self, bytes: &mut [u8]) -> Option<usize>
        ensures put { IfSome result (λ size.
            PutsFile bytes.old bytes.new self.now.session self.now.messages self.now.closed size) }
        ensures size { IfSome result (λ size. size ≡ file_length self.now.messages) }
        ensures room { OnSome result (file_length self.now.messages ≤ length bytes.old) }
        ensures short { IfNone result (length bytes.old < file_length self.now.messages) }
        ensures same { IfNone result (bytes.new ≡ bytes.old) }
    {
        if bytes.len() < self.file_length() {
            return None;
        }
        Some(put_file(bytes, self.session, self.closed, &self.list))
    }

    /// Closes the journal, which then takes no more messages. It has no effect on a closed journal.
    pub fn close(&mut self)
        ensures { self.new ≡ record self.old { closed = true } }
    {
        self.closed = true;
    }
}
