//! The publisher of a session.

ghost use Rattle.std.specs.Prelude.{◌≡◌, ◌↔◌, ◌+◌, ◌-◌, ◌≤◌, ◌<◌, true, false, None, Err, length, unwrap_or, not, IfOk};
ghost use Rattle.std.specs.Prelude.{IfErr, IfSome, IfNone, IsOk, OnOk, OnErr, IsTrue};
ghost use Rattle.std.specs.Option.{option_copied};
ghost use Rattle.mold_wire.specs.Packer.{IsLimit};
ghost use Rattle.mold_wire.specs.Packing.{Fits};
ghost use Rattle.mold_session.specs.Journal.{append_refusal};
ghost use Rattle.mold_session.specs.Publisher.{IsPublisher, unsent_of, next_datagram, next_heartbeat, next_end};
ghost use Rattle.mold_session.specs.Publisher.{after_datagram, fresh_publisher, published, closed, Lends};
ghost use Rattle.mold_session.specs.Publisher.{MayResume, resumed_publisher, retracted};
ghost use Rattle.mold_session.specs.Truthful.{IsTrueDatagram};
ghost use Rattle.mold_session.specs.declared.error.AppendError.{AppendError};
ghost use Rattle.mold_session.specs.declared.error.PublisherError.{PublisherError};

use crate::error::{AppendError, PublisherError, Unsent};
use crate::journal::Journal;
use crate::packing::pack_front;
use mold_wire::laws::{front_law, packet_length_law, true_packet_law};
use mold_wire::{HEADER_LENGTH, LENGTH_BYTES, MESSAGE_OVERHEAD, Packer, PackerError, Session};
use std::alloc::Global;
use std::fmt;
use std::fmt::{Debug, Formatter};
use std::marker::Model;

/// Publishes the messages of a session. It keeps them in a journal and packs them into datagrams, each with the
/// longest prefix of the unsent messages that fits.
///
/// Only `new`, `resume` and `publish` allocate. A returned datagram is valid until the next call.
#[derive(Drop)]
pub struct Publisher {
    journal: Journal,
    packer: Packer,
    // The largest length of a datagram, in bytes.
    limit: usize,
    // The number of messages that were put into a datagram.
    sent: u64,
}

impl Debug for Publisher {
    fn fmt<W: fmt::Write>(&self, f: &mut Formatter<W>) -> fmt::Result {
        f.debug_struct("Publisher").finish_non_exhaustive()
    }
}

impl Model for Publisher {
    ghost use Rattle.std.specs.Prelude.{◌≡◌};
    ghost use Rattle.mold_session.specs.Publisher.{PublisherState, IsPublisher};

    ghost Value = { PublisherState };

    ghost view = { λ p. record { journal = p.journal; limit = p.limit; sent = p.sent } };

    ghost invariant = { λ p. (p.packer.limit ≡ p.limit)
        × IsPublisher (record { journal = p.journal; limit = p.limit; sent = p.sent }) };
}

impl Publisher {
    ghost use Rattle.std.specs.Borrow.{sem};
    ghost use Rattle.std.specs.Io.BufRead.{Rests};
    ghost use Rattle.mold_session.specs.contracts.publisher.Publisher.{the_row};

    /// Makes a publisher of an open session without messages. Its datagrams have at most `limit` bytes, and its
    /// messages at most `limit - MESSAGE_OVERHEAD`. It allocates the buffer of `limit` bytes once.
    pub fn new(alloc: Global, session: Session, limit: usize) -> Result<Publisher, PublisherError>
        ensures made { IfOk result (λ publisher. publisher ≡ fresh_publisher session limit) }
        ensures ok { IsOk result → IsLimit limit }
        ensures limit { (result ≡ Err PublisherError.Limit) ↔ (¬ IsLimit limit) }
    {
        let packer = match Packer::new(alloc, limit) {
            Ok(packer) => packer,
            Err(PackerError::Limit) => return Err(PublisherError::Limit),
            Err(PackerError::Memory) => return Err(PublisherError::Memory),
        };
        Ok(Publisher {
            journal: Journal::new(alloc, session, (limit - MESSAGE_OVERHEAD) as u16),
            packer,
            limit,
            sent: 0,
        })
    }

    /// Makes a publisher of a journal. All messages of the journal count as sent, so the next message has the number
    /// `journal.next()`. The publisher of a closed journal sends only end packets. It allocates the buffer of `limit`
    /// bytes once.
    ///
    /// `limit` must be a valid limit and the journal's `max_message` plus `MESSAGE_OVERHEAD`. Otherwise `Limit` is
    /// returned. After an error the journal is dropped.
    pub fn resume(
        alloc: Global,
        journal: Journal,
        limit: usize,
    ) -> Result<Publisher, PublisherError>
        ensures made { IfOk result (λ publisher. publisher ≡ resumed_publisher journal limit) }
        ensures ok { IsOk result → MayResume journal limit }
        ensures limit { (result ≡ Err PublisherError.Limit) ↔ (¬ MayResume journal limit) }
    {
        if usize::from(journal.max_message()) + MESSAGE_OVERHEAD != limit {
            return Err(PublisherError::Limit);
        }
        let packer = match Packer::new(alloc, limit) {
            Ok(packer) => packer,
            Err(PackerError::Limit) => return Err(PublisherError::Limit),
            Err(PackerError::Memory) => return Err(PublisherError::Memory),
        };
        let sent = journal.len();
        Ok(Publisher {
            journal,
            packer,
            limit,
            sent,
        })
    }

    /// Publishes a message and returns its sequence number. After an error the publisher is unchanged; `Memory` is
    /// returned only if an allocation failed.
    pub fn publish(&mut self, message: &[u8]) -> Result<u64, AppendError>
        ensures number { IfOk result (λ number. number ≡ length self.old.journal.messages + 1) }
        ensures taken { OnOk result (append_refusal self.old.journal message.now ≡ None) }
        ensures added { OnOk result (self.new ≡ published self.old message.now) }
        ensures refused { IfErr result (λ error.
            error ≡ unwrap_or (append_refusal self.old.journal message.now) AppendError.Memory) }
        ensures same { OnErr result (self.new ≡ self.old) }
    {
        self.journal.append(message)
    }

    /// Removes the message that was published last. It must be unsent. So a caller that also keeps the message elsewhere
    /// can undo `publish` if that fails. It takes constant time.
    pub fn retract(&mut self)
        requires unsent { self.old.sent < length self.old.journal.messages }
        ensures { self.new ≡ retracted self.old }
    {
        self.journal.remove_last();
    }

    /// Returns the largest length of a datagram, in bytes.
    pub fn limit(&self) -> usize
        ensures value { result ≡ self.now.limit }
        ensures publisher { IsPublisher self.now }
    {
        self.limit
    }

    /// Returns the number of unsent messages: those that were not put into a datagram yet.
    pub fn unsent(&self) -> u64
        ensures value { result ≡ length self.now.journal.messages - self.now.sent }
        ensures publisher { IsPublisher self.now }
    {
        self.journal.len() - self.sent
    }

    /// Returns true if the unsent messages don't all fit into one datagram. It takes constant time.
    pub fn is_full(&self) -> bool
        ensures full { IsTrue result ↔ (¬ Fits self.now.limit (unsent_of self.now)) }
        ensures publisher { IsPublisher self.now }
    {
        let room = self.limit - HEADER_LENGTH;
        let lengths = self.unsent();
        if lengths > (room / LENGTH_BYTES) as u64 {
            return true;
        }
        self.journal.joined_from(self.sent) > room - LENGTH_BYTES * lengths as usize
    }

    /// Returns a datagram with the longest prefix of the unsent messages that fits, and counts these messages
    /// as sent. Returns `None` if no message is unsent. It doesn't read messages that were sent before.
    pub fn datagram(&mut self) -> Option<&[u8]>
        ensures* after { sem 𝓛 (Rests the_row self.entry (λ new. new ≡ after_datagram self.old)) }
        ensures lent { Lends (next_datagram self.old) (option_copied result) }
        ensures within { IfSome result (λ bytes. length bytes.now ≤ self.old.limit) }
        ensures idle { IfNone result (after_datagram self.old ≡ self.old) }
        ensures truth { IfSome result (λ bytes. IsTrueDatagram self.old.journal bytes.now) }
    {
        front_law();
        packet_length_law();
        true_packet_law();
        if self.unsent() == 0 {
            return None;
        }
        let messages = self.journal.iter_from(self.sent);
        let session = self.journal.session();
        let count = pack_front(
            &mut self.packer,
            session,
            self.sent + 1,
            messages,
            self.journal.len(),
        );
        self.sent += count;
        Some(self.packer.bytes())
    }

    /// Returns a heartbeat with the sequence number of the first unsent message, or of the next message if none
    /// is unsent. Returns `None` if the session is closed.
    pub fn heartbeat(&mut self) -> Option<&[u8]>
        ensures* after { sem 𝓛 (Rests the_row self.entry (λ new. new ≡ self.old)) }
        ensures lent { Lends (next_heartbeat self.old) (option_copied result) }
        ensures within { IfSome result (λ bytes. length bytes.now ≤ self.old.limit) }
        ensures truth { IfSome result (λ bytes. IsTrueDatagram self.old.journal bytes.now) }
    {
        if self.journal.is_closed() {
            return None;
        }
        self.packer.start(self.journal.session(), self.sent + 1);
        Some(self.packer.bytes())
    }

    /// Closes the session and its journal if every message was put into a datagram. On a closed publisher it
    /// changes nothing.
    pub fn close(&mut self) -> Result<(), Unsent>
        ensures unsent { IfErr result (λ error. error ≡ record {
          count = length self.old.journal.messages - self.old.sent;
        }) }
        ensures refused { OnErr result (self.old.sent + 1 ≤ length self.old.journal.messages) }
        ensures ok { OnOk result (self.old.sent ≡ length self.old.journal.messages) }
        ensures closed { OnOk result (self.new ≡ closed self.old) }
        ensures same { OnErr result (self.new ≡ self.old) }
    {
        let count = self.unsent();
        if count > 0 {
            return Err(Unsent { count });
        }
        self.journal.close();
        Ok(())
    }

    /// Returns an end packet, whose sequence number is one more than the number of messages. Returns `None` if
    /// the session is open.
    pub fn end(&mut self) -> Option<&[u8]>
        ensures* after { sem 𝓛 (Rests the_row self.entry (λ new. new ≡ self.old)) }
        ensures lent { Lends (next_end self.old) (option_copied result) }
        ensures within { IfSome result (λ bytes. length bytes.now ≤ self.old.limit) }
        ensures truth { IfSome result (λ bytes. IsTrueDatagram self.old.journal bytes.now) }
    {
        if !self.journal.is_closed() {
            return None;
        }
        self.packer.end(self.journal.session(), self.journal.next());
        Some(self.packer.bytes())
    }

    /// Returns true if the session is closed.
    pub fn is_closed(&self) -> bool
        ensures { result ≡ self.now.journal.closed }
    {
        self.journal.is_closed()
    }

    /// Returns the journal of the published messages.
    pub fn journal(&self) -> &Journal
        ensures { result.now ≡ self.now.journal }
    {
        &self.journal
    }
}
