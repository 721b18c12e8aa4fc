//! A publisher, and the server that responds with the messages that it sent.

ghost use Rattle.std.specs.Prelude.{◌≡◌, ◌↔◌, Option, None, Some, IsTrue, IfOk, IfErr, OnOk};
ghost use Rattle.mold_ffi.specs.Publisher.Exchange.{GivesServer, sent_journal, with_server};
ghost use Rattle.mold_ffi.specs.Publisher.Exchange.{opened, holding, Publishes, Sends, Closes, Saves};
ghost use Rattle.mold_ffi.specs.Server.Answering.{Answers, Plans, Serves};
ghost use Rattle.mold_ffi.specs.declared.code.TheConstants as codes;
ghost use Rattle.mold_ffi.specs.declared.handle.held.Held.{Held as AHeld};
ghost use Rattle.mold_session.specs.Publisher.{unsent_of, next_datagram, next_heartbeat, next_end, after_datagram};
ghost use Rattle.mold_session.specs.Server.{ServerState};
ghost use Rattle.mold_session.specs.declared.error.PublisherError.{PublisherError as APublisherError};
ghost use Rattle.mold_wire.specs.Packer.{IsLimit};
ghost use Rattle.mold_wire.specs.Packing.{Fits};

use crate::buffer::copy_if_some;
use crate::code::append_error::code_of_append_error;
use crate::code::{BROKEN, BURST, DONE, LIMIT, MEMORY, ROOM, UNSENT};
use crate::server::answering::{answer, datagram, plan};
use crate::server::journal_below::JournalBelow;
use crate::server::mold_plan::MoldPlan;
use mold_session::{Publisher, PublisherError, Server, ServerError, Unsent};
use mold_wire::Session;
use std::alloc::Global;

/// A publisher, and the server that responds with the messages that it sent, if it has one.
#[derive(Drop)]
pub struct Exchange {
    /// The publisher.
    pub(crate) publisher: Publisher,
    /// Its server, if it has one.
    pub(crate) server: Option<Server>,
}

impl Exchange {
    /// A publisher of an open session without messages, and no server.
    pub(crate) fn new(
        alloc: Global,
        session: Session,
        limit: usize,
    ) -> Result<Exchange, PublisherError>
        ensures made { IfOk result (λ exchange. exchange ≡ opened session limit) }
        ensures ok { OnOk result (IsLimit limit) }
        ensures limit { (IsLimit limit → ⊥) → IfErr result (λ error. error ≡ APublisherError.Limit) }
        ensures memory { IsLimit limit → IfErr result (λ error. error ≡ APublisherError.Memory) }
    {
        Ok(Exchange {
            publisher: Publisher::new(alloc, session, limit)?,
            server: None,
        })
    }

    /// Publishes a message and writes its sequence number, or the number that goes with the refusal.
    pub(crate) fn publish(&mut self, message: &[u8], number: &mut u64) -> u32
        ensures { Publishes self.old message.now result number.new (holding self.new) }
    {
        match self.publisher.publish(message) {
            Ok(given) => {
                *number = given;
                DONE
            }
            Err(error) => {
                let (code, found) = code_of_append_error(error);
                *number = found;
                code
            }
        }
    }

    /// Whether the unsent messages do not all fit in one datagram.
    pub(crate) fn is_full(&self) -> bool
        ensures { IsTrue result ↔ (Fits self.now.publisher.limit (unsent_of self.now.publisher) → ⊥) }
    {
        self.publisher.is_full()
    }

    /// Writes the next datagram to the start of the buffer.
    pub(crate) fn datagram(&mut self, buffer: &mut [u8], size: &mut usize) -> u32
        ensures { Sends self.old (next_datagram self.old.publisher) (after_datagram self.old.publisher)
            buffer.old buffer.new result size.new (holding self.new) }
    {
        let limit = self.publisher.limit();
        if buffer.len() < limit {
            *size = limit;
            return ROOM;
        }
        copy_if_some(self.publisher.datagram(), buffer, size)
    }

    /// Writes a heartbeat to the start of the buffer.
    pub(crate) fn heartbeat(&mut self, buffer: &mut [u8], size: &mut usize) -> u32
        ensures { Sends self.old (next_heartbeat self.old.publisher) self.old.publisher
            buffer.old buffer.new result size.new (holding self.new) }
    {
        let limit = self.publisher.limit();
        if buffer.len() < limit {
            *size = limit;
            return ROOM;
        }
        copy_if_some(self.publisher.heartbeat(), buffer, size)
    }

    /// Writes an end packet to the start of the buffer.
    pub(crate) fn end(&mut self, buffer: &mut [u8], size: &mut usize) -> u32
        ensures { Sends self.old (next_end self.old.publisher) self.old.publisher
            buffer.old buffer.new result size.new (holding self.new) }
    {
        let limit = self.publisher.limit();
        if buffer.len() < limit {
            *size = limit;
            return ROOM;
        }
        copy_if_some(self.publisher.end(), buffer, size)
    }

    /// Closes the session, or writes the number of unsent messages.
    pub(crate) fn close(&mut self, number: &mut u64) -> u32
        ensures { Closes self.old result number.new (holding self.new) }
    {
        match self.publisher.close() {
            Ok(()) => {
                *number = 0;
                DONE
            }
            Err(Unsent { count }) => {
                *number = count;
                UNSENT
            }
        }
    }

    /// Writes the journal's file to the start of the buffer, and its length to `size`.
    pub(crate) fn save(&self, buffer: &mut [u8], size: &mut usize) -> u32
        ensures { Saves self.now.publisher.journal buffer.old buffer.new result size.new }
    {
        let journal = self.publisher.journal();
        *size = journal.file_length();
        match journal.save_in(buffer) {
            Some(_) => DONE,
            None => ROOM,
        }
    }

    /// Gives the publisher a server for its journal, with the publisher's limit.
    pub(crate) fn give_server(&mut self, alloc: Global, burst: u16) -> u32
        ensures { GivesServer self.old burst result (holding self.new) }
    {
        if self.server.is_some() {
            return BROKEN;
        }
        let limit = self.publisher.limit();
        let longest = self.publisher.journal().max_message();
        match Server::new(alloc, limit, longest, burst) {
            Ok(server) => {
                self.server = Some(server);
                DONE
            }
            Err(ServerError::Limit) => LIMIT,
            Err(ServerError::Burst) => BURST,
            Err(ServerError::Memory) => MEMORY,
        }
    }

    /// Writes the first response to a request.
    pub(crate) fn answer(&mut self, request: &[u8], buffer: &mut [u8], number: &mut u64) -> u32
        ensures answers { (server : ServerState) → self.old.server ≡ Some server →
            Answers (Option AHeld) server (sent_journal self.old.publisher) request.now buffer.old buffer.new number.old
            result number.new (with_server self.old) (holding self.new) }
        ensures broken { self.old.server ≡ None → (result ≡ codes.BROKEN) × (number.new ≡ number.old)
            × (buffer.new ≡ buffer.old) × (self.new ≡ self.old) }
    {
        let sent = JournalBelow::sent_by(&self.publisher);
        match &mut self.server {
            Some(server) => answer(server, &sent, request, buffer, number),
            None => BROKEN,
        }
    }

    /// Plans the responses to a request.
    pub(crate) fn plan(&mut self, request: &[u8], fields: &mut MoldPlan, number: &mut u64) -> u32
        ensures plans { (server : ServerState) → self.old.server ≡ Some server →
            Plans (Option AHeld) server (sent_journal self.old.publisher) request.now fields.old fields.new number.old
            result number.new (with_server self.old) (holding self.new) }
        ensures broken { self.old.server ≡ None → (result ≡ codes.BROKEN) × (number.new ≡ number.old)
            × (fields.new ≡ fields.old) × (self.new ≡ self.old) }
    {
        let sent = JournalBelow::sent_by(&self.publisher);
        match &mut self.server {
            Some(server) => plan(server, &sent, request, fields, number),
            None => BROKEN,
        }
    }

    /// Writes the next datagram of a plan.
    pub(crate) fn planned(
        &mut self,
        fields: &mut MoldPlan,
        buffer: &mut [u8],
        size: &mut usize,
    ) -> u32
        ensures serves { (server : ServerState) → self.old.server ≡ Some server →
            Serves server (sent_journal self.old.publisher) fields.old fields.new buffer.old buffer.new size.old
            result size.new }
        ensures broken { self.old.server ≡ None → (result ≡ codes.BROKEN) × (size.new ≡ size.old)
            × (buffer.new ≡ buffer.old) × (fields.new ≡ fields.old) }
        ensures same { self.new ≡ self.old }
    {
        let sent = JournalBelow::sent_by(&self.publisher);
        match &mut self.server {
            Some(server) => datagram(server, &sent, fields, buffer, size),
            None => BROKEN,
        }
    }
}
