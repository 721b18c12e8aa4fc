//! The publisher of a session that keeps no message in memory once all were sent.

ghost use Rattle.std.specs.Prelude.{◌≡◌, ◌↔◌, ◌+◌, ◌-◌, ◌≤◌, ◌<◌, true, false, None, Err, length, unwrap_or, not, IfOk};
ghost use Rattle.std.specs.Prelude.{IfErr, IfSome, IfNone, IsOk, OnOk, OnErr, IsTrue};
ghost use Rattle.std.specs.Option.{option_copied};
ghost use Rattle.mold_wire.specs.Packer.{IsLimit};
ghost use Rattle.mold_wire.specs.Packing.{Fits};
ghost use Rattle.mold_session.specs.Journal.{append_refusal};
ghost use Rattle.mold_session.specs.Publisher.{IsPublisher, unsent_of, next_datagram, next_heartbeat, next_end};
ghost use Rattle.mold_session.specs.Publisher.{after_datagram, fresh_publisher, published, closed, Lends};
ghost use Rattle.mold_session.specs.Publisher.{MayResume, resumed_publisher, retracted};
ghost use Rattle.mold_session.specs.Truthful.{IsTrueDatagram};
ghost use Rattle.mold_session.specs.declared.error.AppendError.{AppendError};
ghost use Rattle.mold_session.specs.declared.error.PublisherError.{PublisherError};

use crate::counted_journal::CountedJournal;
use crate::packing::pack_front;
use mold_messages::MessageList;
use mold_session::{AppendError, MAX_MESSAGES, PublisherError, Unsent};
use mold_wire::laws::{front_law, packet_length_law, true_packet_law};
use mold_wire::{HEADER_LENGTH, LENGTH_BYTES, MESSAGE_OVERHEAD, Packer, PackerError, Session};
use std::alloc::Global;
use std::marker::Model;

/// Publishes the messages of a session. It is a `Publisher` that does not keep the messages it sent: once every message
/// was put into a datagram, the next one that is published takes their memory.
///
/// Only `new`, `resume` and `publish` allocate. A returned datagram is valid until the next call.
#[derive(Drop)]
pub struct UnsentPublisher {
    // The messages that are no longer in memory. All of them were sent.
    earlier: CountedJournal,
    // The messages after them.
    list: MessageList,
    // The number of messages of the list that were put into a datagram.
    packed: usize,
    packer: Packer,
}

impl Model for UnsentPublisher {
    ghost use Rattle.mold_session.specs.Publisher.{PublisherState};
    ghost use Rattle.mold_unsent.specs.Unsent.{IsUnsent, publisher_of};

    ghost Value = { PublisherState };

    ghost view = { λ p. publisher_of p.earlier p.list.messages p.packed p.packer.limit };

    ghost invariant = { λ p. IsUnsent p.earlier p.list.messages p.packed p.packer.limit };
}

impl UnsentPublisher {
    ghost use Rattle.std.specs.Borrow.{sem};
    ghost use Rattle.std.specs.Io.BufRead.{Rests};
    ghost use Rattle.mold_unsent.specs.contracts.unsent_publisher.UnsentPublisher.{the_row};

    /// Makes a publisher of an open session without messages. Its datagrams have at most `limit` bytes, and its
    /// messages at most `limit - MESSAGE_OVERHEAD`. It allocates the buffer of `limit` bytes once.
    pub fn new(
        alloc: Global,
        session: Session,
        limit: usize,
    ) -> Result<UnsentPublisher, PublisherError>
        ensures made { IfOk result (λ publisher. publisher ≡ fresh_publisher session limit) }
        ensures ok { IsOk result → IsLimit limit }
        ensures limit { (result ≡ Err PublisherError.Limit) ↔ (¬ IsLimit limit) }
    {
        let packer = match Packer::new(alloc, limit) {
            Ok(packer) => packer,
            Err(PackerError::Limit) => return Err(PublisherError::Limit),
            Err(PackerError::Memory) => return Err(PublisherError::Memory),
        };
        Ok(UnsentPublisher {
            earlier: CountedJournal::new(session, (limit - MESSAGE_OVERHEAD) as u16),
            list: MessageList::new(alloc),
            packed: 0,
            packer,
        })
    }

    /// Makes a publisher of a journal. All messages of the journal count as sent, so the next message has the number
    /// one above their count. The publisher of a closed journal sends only end packets. It allocates the buffer of
    /// `limit` bytes once.
    ///
    /// `limit` must be a valid limit and the journal's `max_message` plus `MESSAGE_OVERHEAD`. Otherwise `Limit` is
    /// returned. After an error the journal is dropped.
    pub fn resume(
        alloc: Global,
        journal: CountedJournal,
        limit: usize,
    ) -> Result<UnsentPublisher, PublisherError>
        ensures made { IfOk result (λ publisher. publisher ≡ resumed_publisher journal limit) }
        ensures ok { IsOk result → MayResume journal limit }
        ensures limit { (result ≡ Err PublisherError.Limit) ↔ (¬ MayResume journal limit) }
    {
        if usize::from(journal.max_message()) + MESSAGE_OVERHEAD != limit {
            return Err(PublisherError::Limit);
        }
        let packer = match Packer::new(alloc, limit) {
            Ok(packer) => packer,
            Err(PackerError::Limit) => return Err(PublisherError::Limit),
            Err(PackerError::Memory) => return Err(PublisherError::Memory),
        };
        // For the prover: it states that the journal's messages are within the limits.
        let _count = journal.count();
        Ok(UnsentPublisher {
            earlier: journal,
            list: MessageList::new(alloc),
            packed: 0,
            packer,
        })
    }

    /// Returns the session that the messages belong to.
    pub fn session(&self) -> Session
        ensures { result ≡ self.now.journal.session }
    {
        self.earlier.session()
    }

    /// Returns the largest length of a message, in bytes.
    pub fn max_message(&self) -> u16
        ensures { result ≡ self.now.journal.max_message }
    {
        self.earlier.max_message()
    }

    /// Returns the number of published messages.
    pub fn count(&self) -> u64
        ensures value { result ≡ length self.now.journal.messages }
        ensures publisher { IsPublisher self.now }
    {
        self.earlier.count() + self.list.len() as u64
    }

    // Removes the messages in memory. All of them were sent.
    fn forget(&mut self)
        requires { self.old.sent ≡ length self.old.journal.messages }
        ensures { self.new ≡ self.old }
    {
        self.earlier.append_all(&self.list);
        self.list.clear();
        self.packed = 0;
    }

    /// Publishes a message and returns its sequence number. After an error the publisher is unchanged; `Memory` is
    /// returned only if an allocation failed.
    pub fn publish(&mut self, message: &[u8]) -> Result<u64, AppendError>
        ensures number { IfOk result (λ number. number ≡ length self.old.journal.messages + 1) }
        ensures taken { OnOk result (append_refusal self.old.journal message.now ≡ None) }
        ensures added { OnOk result (self.new ≡ published self.old message.now) }
        ensures refused { IfErr result (λ error.
            error ≡ unwrap_or (append_refusal self.old.journal message.now) AppendError.Memory) }
        ensures same { OnErr result (self.new ≡ self.old) }
    {
        if self.earlier.is_closed() {
            return Err(AppendError::Closed);
        }
        if message.len() > usize::from(self.earlier.max_message()) {
            return Err(AppendError::TooLong { len: message.len() });
        }
        let count = self.count();
        if count == MAX_MESSAGES {
            return Err(AppendError::Full);
        }
        if self.unsent() == 0 {
            self.forget();
        }
        match self.list.push(message) {
            Ok(()) => Ok(count + 1),
            Err(_) => Err(AppendError::Memory),
        }
    }

    /// Removes the message that was published last. It must be unsent. So a caller that also keeps the message
    /// elsewhere can undo `publish` if that fails. It takes constant time.
    pub fn retract(&mut self)
        requires unsent { self.old.sent < length self.old.journal.messages }
        ensures { self.new ≡ retracted self.old }
    {
        let count = self.list.len();
        self.list.truncate(count.saturating_sub(1));
    }

    /// Returns the largest length of a datagram, in bytes.
    pub fn limit(&self) -> usize
        ensures value { result ≡ self.now.limit }
        ensures publisher { IsPublisher self.now }
    {
        self.packer.limit()
    }

    /// Returns the number of unsent messages: those that were not put into a datagram yet.
    pub fn unsent(&self) -> u64
        ensures value { result ≡ length self.now.journal.messages - self.now.sent }
        ensures publisher { IsPublisher self.now }
    {
        (self.list.len() - self.packed) as u64
    }

    /// Returns true if the unsent messages don't all fit into one datagram. It takes constant time.
    pub fn is_full(&self) -> bool
        ensures full { IsTrue result ↔ (¬ Fits self.now.limit (unsent_of self.now)) }
        ensures publisher { IsPublisher self.now }
    {
        let room = self.limit() - HEADER_LENGTH;
        let lengths = self.unsent();
        if lengths > (room / LENGTH_BYTES) as u64 {
            return true;
        }
        let joined = self.list.joined_length(self.packed, self.list.len());
        joined > room - LENGTH_BYTES * lengths as usize
    }

    /// Returns a datagram with the longest prefix of the unsent messages that fits, and counts these messages
    /// as sent. Returns `None` if no message is unsent. It doesn't read messages that were sent before.
    pub fn datagram(&mut self) -> Option<&[u8]>
        ensures* after { sem 𝓛 (Rests the_row self.entry (λ new. new ≡ after_datagram self.old)) }
        ensures lent { Lends (next_datagram self.old) (option_copied result) }
        ensures within { IfSome result (λ bytes. length bytes.now ≤ self.old.limit) }
        ensures idle { IfNone result (after_datagram self.old ≡ self.old) }
        ensures truth { IfSome result (λ bytes. IsTrueDatagram self.old.journal bytes.now) }
    {
        front_law();
        packet_length_law();
        true_packet_law();
        if self.unsent() == 0 {
            return None;
        }
        let messages = self.list.iter_from(self.packed);
        let session = self.earlier.session();
        let before = self.earlier.count();
        let sequence = before + self.packed as u64 + 1;
        let all = before + self.list.len() as u64;
        let count = pack_front(&mut self.packer, session, sequence, messages, all);
        self.packed += count as usize;
        Some(self.packer.bytes())
    }

    /// Returns a heartbeat with the sequence number of the first unsent message, or of the next message if none
    /// is unsent. Returns `None` if the session is closed.
    pub fn heartbeat(&mut self) -> Option<&[u8]>
        ensures* after { sem 𝓛 (Rests the_row self.entry (λ new. new ≡ self.old)) }
        ensures lent { Lends (next_heartbeat self.old) (option_copied result) }
        ensures within { IfSome result (λ bytes. length bytes.now ≤ self.old.limit) }
        ensures truth { IfSome result (λ bytes. IsTrueDatagram self.old.journal bytes.now) }
    {
        if self.earlier.is_closed() {
            return None;
        }
        let sequence = self.earlier.count() + self.packed as u64 + 1;
        self.packer.start(self.earlier.session(), sequence);
        Some(self.packer.bytes())
    }

    /// Closes the session and its journal if every message was put into a datagram. On a closed publisher it
    /// changes nothing.
    pub fn close(&mut self) -> Result<(), Unsent>
        ensures unsent { IfErr result (λ error. error ≡ record {
          count = length self.old.journal.messages - self.old.sent;
        }) }
        ensures refused { OnErr result (self.old.sent + 1 ≤ length self.old.journal.messages) }
        ensures ok { OnOk result (self.old.sent ≡ length self.old.journal.messages) }
        ensures closed { OnOk result (self.new ≡ closed self.old) }
        ensures same { OnErr result (self.new ≡ self.old) }
    {
        let count = self.unsent();
        if count > 0 {
            return Err(Unsent { count });
        }
        self.earlier.close();
        Ok(())
    }

    /// Returns an end packet, whose sequence number is one more than the number of messages. Returns `None` if
    /// the session is open.
    pub fn end(&mut self) -> Option<&[u8]>
        ensures* after { sem 𝓛 (Rests the_row self.entry (λ new. new ≡ self.old)) }
        ensures lent { Lends (next_end self.old) (option_copied result) }
        ensures within { IfSome result (λ bytes. length bytes.now ≤ self.old.limit) }
        ensures truth { IfSome result (λ bytes. IsTrueDatagram self.old.journal bytes.now) }
    {
        if !self.earlier.is_closed() {
            return None;
        }
        let sequence = self.count() + 1;
        self.packer.end(self.earlier.session(), sequence);
        Some(self.packer.bytes())
    }

    /// Returns true if the session is closed.
    pub fn is_closed(&self) -> bool
        ensures { result ≡ self.now.journal.closed }
    {
        self.earlier.is_closed()
    }
}
