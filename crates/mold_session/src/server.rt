//! The re-request server of a session.

ghost use Rattle.std.specs.Prelude.{◌≡◌, ◌↔◌, ◌+◌, ◌<◌, ◌≤◌, None, Some, length, unwrap_or, is_ok, is_some, IfOk, IfErr};
ghost use Rattle.std.specs.Prelude.{IfSome, IfNone, OnOk, OnErr};
ghost use Rattle.std.specs.Option.{OnSome};
ghost use Rattle.mold_wire.specs.Packet.{Spells};
ghost use Rattle.mold_session.specs.Answer.{IsPlan, IsSpent, next_part, next_packet, moved};
ghost use Rattle.mold_session.specs.Journal.{IsJournal, JournalState, journal_below};
ghost use Rattle.mold_session.specs.Loading.{CountsLoad};
ghost use Rattle.mold_session.specs.Server.{IsServer, fresh_server, server_refusal, checked_request, planning};
ghost use Rattle.mold_session.specs.Server.{SpellsAnswer, counted_if};
ghost use Rattle.mold_session.specs.Serving.{HasSentNext, IsPlanOf};
ghost use Rattle.mold_session.specs.Truthful.{IsTrueDatagram};
ghost use Rattle.mold_session.specs.declared.error.FileError.{FileError};
ghost use Rattle.mold_session.specs.declared.error.ServerError.{ServerError};

use crate::error::{AnswerError, FileError, ServerError};
use crate::journal::Journal;
use crate::packing::pack_next;
use crate::plan::Plan;
use crate::request_check::check_request;
use crate::served_journal::ServedJournal;
use mold_wire::laws::{front_law, packet_length_law, true_packet_law};
use mold_wire::{MAX_BURST, MAX_LIMIT, MESSAGE_OVERHEAD, MIN_LIMIT, Packer};
use std::alloc::Global;
use std::fmt;
use std::fmt::{Debug, Formatter};
use std::marker::Model;

/// A re-request server, which responds to a request with messages of a journal. A request gets at most `burst`
/// responses. Each has the longest prefix that fits of the remaining messages that were requested and that the
/// journal has.
///
/// Only `new` allocates. Each call reads at most one message more than it returns. A returned datagram is valid
/// until the next call.
#[derive(Drop)]
pub struct Server {
    packer: Packer,
    // The largest length of a journal's message, in bytes.
    max_message: u16,
    // The largest number of responses to one request.
    burst: u16,
    // The number of accepted requests.
    answered: u64,
}

impl Debug for Server {
    fn fmt<W: fmt::Write>(&self, f: &mut Formatter<W>) -> fmt::Result {
        f.debug_struct("Server").finish_non_exhaustive()
    }
}

impl Model for Server {
    ghost use Rattle.mold_session.specs.Server.{ServerState, IsServer};

    ghost Value = { ServerState };

    ghost view = { λ s. record {
      limit = s.packer.limit;
      max_message = s.max_message;
      burst = s.burst;
      answered = s.answered;
    } };

    ghost invariant = { λ s. IsServer (record {
      limit = s.packer.limit;
      max_message = s.max_message;
      burst = s.burst;
      answered = s.answered;
    }) };
}

impl Server {
    ghost use Rattle.std.specs.Borrow.{sem};
    ghost use Rattle.std.specs.Io.BufRead.{Rests};
    ghost use Rattle.mold_session.specs.contracts.server.Server.{the_row};

    /// Makes a server whose datagrams have at most `limit` bytes, for journals whose messages have at most
    /// `max_message` bytes. It sends at most `burst` responses to a request. It allocates `limit` bytes, and
    /// nothing later.
    pub fn new(
        alloc: Global,
        limit: usize,
        max_message: u16,
        burst: u16,
    ) -> Result<Server, ServerError>
        ensures made { IfOk result (λ server. server ≡ fresh_server limit max_message burst) }
        ensures ok { OnOk result (server_refusal limit max_message burst ≡ None) }
        ensures refused { IfErr result (λ error.
            error ≡ unwrap_or (server_refusal limit max_message burst) ServerError.Memory) }
    {
        let longest = usize::from(max_message) + MESSAGE_OVERHEAD;
        if limit < MIN_LIMIT || MAX_LIMIT < limit || limit < longest {
            return Err(ServerError::Limit);
        }
        if burst == 0 || MAX_BURST < burst {
            return Err(ServerError::Burst);
        }
        match Packer::new(alloc, limit) {
            Ok(packer) => Ok(Server {
                packer,
                max_message,
                burst,
                answered: 0,
            }),
            Err(_) => Err(ServerError::Memory),
        }
    }

    /// Returns the largest length of a datagram, in bytes.
    pub fn limit(&self) -> usize
        ensures value { result ≡ self.now.limit }
        ensures server { IsServer self.now }
    {
        self.packer.limit()
    }

    /// Returns the greatest `max_message` of a journal that this server may respond from, in bytes.
    pub fn max_message(&self) -> u16
        ensures value { result ≡ self.now.max_message }
        ensures server { IsServer self.now }
    {
        self.max_message
    }

    /// Returns the maximum number of responses to one request.
    pub fn burst(&self) -> u16
        ensures { result ≡ self.now.burst }
    {
        self.burst
    }

    /// Returns the number of requests that `answer` and `plan` accepted. The count stops at `MAX_NUMBER`.
    pub fn answered(&self) -> u64
        ensures { result ≡ self.now.answered }
    {
        self.answered
    }

    /// Returns the first response to a request, which has at least one message, and counts the request. The journal's
    /// messages may have at most `max_message` bytes.
    ///
    /// A refused request gets the first error of `AnswerError` that applies, and the server is unchanged.
    pub fn answer(&mut self, journal: &Journal, request: &[u8]) -> Result<&[u8], AnswerError>
        requires { journal.now.max_message ≤ self.old.max_message }
        ensures* after { sem 𝓛 (Rests the_row self.entry (λ new. new ≡ counted_if (is_ok result) self.old)) }
        ensures spelled { IfOk result (λ bytes. SpellsAnswer journal.now self.old request.now bytes.now) }
        ensures within { IfOk result (λ bytes. length bytes.now ≤ self.old.limit) }
        ensures truth { IfOk result (λ bytes. IsTrueDatagram journal.now bytes.now) }
        ensures refused { IfErr result (λ error. checked_request journal.now request.now ≡ Err error) }
        ensures journal { IsJournal journal.now }
        ensures server { IsServer self.old }
    {
        front_law();
        packet_length_law();
        true_packet_law();
        let plan = self.plan(journal, request)?;
        pack_next(&mut self.packer, journal, &plan);
        Ok(self.packer.bytes())
    }

    /// Plans the responses to a request, which `datagram` then returns one by one. Requests are refused and counted as
    /// by `answer`.
    pub fn plan(&mut self, journal: &Journal, request: &[u8]) -> Result<Plan, AnswerError>
        requires { journal.now.max_message ≤ self.old.max_message }
        ensures planned { result ≡ planning journal.now self.old.burst request.now }
        ensures session { IfOk result (λ plan. plan.session ≡ journal.now.session) }
        ensures to { IfOk result (λ plan. plan.to ≤ length journal.now.messages + 1) }
        ensures counted { self.new ≡ counted_if (is_ok result) self.old }
        ensures journal { IsJournal journal.now }
        ensures server { IsServer self.old }
    {
        self.plan_below(journal, journal.next(), request)
    }

    /// Plans the responses to a request as `plan` does, from the journal's messages with numbers below `below`. A
    /// request for a later message is refused as `Ahead`. Its `next` is then `below`, or the number of the journal's
    /// next message if that is less. If `below` is 0 or 1, there are no such messages, and `next` is 1.
    ///
    /// So a publisher may publish messages before it sends them, and nobody gets them earlier from its server.
    pub fn plan_below(
        &mut self,
        journal: &Journal,
        below: u64,
        request: &[u8],
    ) -> Result<Plan, AnswerError>
        requires { journal.now.max_message ≤ self.old.max_message }
        ensures planned { result ≡ planning (journal_below journal.now below) self.old.burst request.now }
        ensures session { IfOk result (λ plan. plan.session ≡ journal.now.session) }
        ensures below { IfOk result (λ plan. plan.to ≤ below) }
        ensures to { IfOk result (λ plan. plan.to ≤ length journal.now.messages + 1) }
        ensures counted { self.new ≡ counted_if (is_ok result) self.old }
        ensures journal { IsJournal journal.now }
        ensures server { IsServer self.old }
    {
        self.plan_from(&journal, below, request)
    }

    /// Plans the responses to a request as `plan_below` does, from a journal in memory or in a file. No message is
    /// read.
    pub fn plan_from<J: ServedJournal>(
        &mut self,
        journal: &J,
        below: u64,
        request: &[u8],
    ) -> Result<Plan, AnswerError>
        ensures planned { (shown : JournalState) → J.shows journal.now shown →
            result ≡ planning (journal_below shown below) self.old.burst request.now }
        ensures plan { (shown : JournalState) → J.shows journal.now shown → IfOk result (IsPlanOf shown) }
        ensures below { IfOk result (λ plan. plan.to ≤ below) }
        ensures counted { self.new ≡ counted_if (is_ok result) self.old }
        ensures journal { (shown : JournalState) → J.shows journal.now shown → IsJournal shown }
        ensures server { IsServer self.old }
    {
        let burst = self.burst;
        let next = below.max(1).min(journal.next());
        let request = check_request(journal.session(), next, request)?;
        self.answered = self.answered.saturating_add(1);
        Ok(Plan::new(next, &request, burst))
    }

    /// Returns the next datagram of a plan, with as many of its remaining messages as fit, and advances the plan past
    /// them. If the plan is spent, `None` is returned and nothing changes.
    ///
    /// The journal must be the one that the plan was made from, or one of the same session that has at least the
    /// messages of the plan.
    pub fn datagram(&mut self, journal: &Journal, plan: &mut Plan) -> Option<&[u8]>
        requires longest { journal.now.max_message ≤ self.old.max_message }
        requires session { plan.old.session ≡ journal.now.session }
        requires to { plan.old.to ≤ length journal.now.messages + 1 }
        ensures* after { sem 𝓛 (Rests the_row self.entry (λ new. new ≡ self.old)) }
        ensures spelled { IfSome result (λ bytes.
            Spells (next_packet journal.now.messages self.old.limit plan.old) bytes.now) }
        ensures within { IfSome result (λ bytes. length bytes.now ≤ self.old.limit) }
        ensures truth { IfSome result (λ bytes. IsTrueDatagram journal.now bytes.now) }
        ensures moved { OnSome result
            (plan.new ≡ moved plan.old (length (next_part journal.now.messages self.old.limit plan.old))) }
        ensures more { OnSome result (¬ IsSpent plan.old) }
        ensures none { IfNone result (IsSpent plan.old) }
        ensures same { IfNone result (plan.new ≡ plan.old) }
        ensures session { plan.new.session ≡ plan.old.session }
        ensures to { plan.new.to ≡ plan.old.to }
        ensures plan { IsPlan plan.old }
        ensures journal { OnSome result (IsJournal journal.now) }
        ensures server { OnSome result (IsServer self.old) }
    {
        front_law();
        true_packet_law();
        if plan.is_spent() {
            return None;
        }
        let count = pack_next(&mut self.packer, journal, plan);
        plan.advance(count);
        Some(self.packer.bytes())
    }

    /// Returns the next datagram of a plan as `datagram` does, from a journal in memory or in a file. The journal must
    /// be the one that the plan was made from, or one of the same session that has at least the messages of the plan.
    ///
    /// `Read` is returned if a read fails. If the file was damaged after it was opened, another error states its fault.
    /// A journal in memory returns no error if it has the plan's messages. After an error, the next call packs the same
    /// datagram.
    pub fn datagram_from<J: ServedJournal>(
        &mut self,
        journal: &mut J,
        plan: &mut Plan,
    ) -> Result<Option<&[u8]>, FileError>
        ensures* after { sem 𝓛 (Rests the_row self.entry (λ new. new ≡ self.old)) }
        ensures sent { IfOk result (λ datagram. IfSome datagram (λ bytes. (shown : JournalState) →
            J.shows journal.old shown → shown.max_message ≤ self.old.max_message → IsPlanOf shown plan.old →
            HasSentNext shown self.old.limit plan.old plan.new bytes.now)) }
        ensures within { IfOk result (λ datagram. IfSome datagram (λ bytes. length bytes.now ≤ self.old.limit)) }
        ensures left { IfOk result (λ datagram. OnSome datagram (plan.new.left + 1 ≡ plan.old.left)) }
        ensures further { IfOk result (λ datagram. OnSome datagram (plan.old.from < plan.new.from)) }
        ensures more { IfOk result (λ datagram. OnSome datagram (¬ IsSpent plan.old)) }
        ensures none { IfOk result (λ datagram. IfNone datagram (IsSpent plan.old)) }
        ensures same { IfOk result (λ datagram. IfNone datagram (plan.new ≡ plan.old)) }
        ensures session { plan.new.session ≡ plan.old.session }
        ensures to { plan.new.to ≡ plan.old.to }
        ensures refused { IfErr result (λ error. (shown : JournalState) → J.shows journal.old shown →
            shown.max_message ≤ self.old.max_message → IsPlanOf shown plan.old → error ≡ FileError.Read) }
        ensures unspent { OnErr result (¬ IsSpent plan.old) }
        ensures kept { OnErr result (plan.new ≡ plan.old) }
        ensures shown { (shown : JournalState) → J.shows journal.old shown → J.shows journal.new shown }
        ensures stays { (earlier : J) → J.stays earlier journal.old → J.stays earlier journal.new }
        ensures failures { CountsLoad (J.failed journal.old) (J.failed journal.new) result }
        ensures plan { IsPlan plan.old }
        ensures server { IfOk result (λ datagram. OnSome datagram (IsServer self.old)) }
    {
        front_law();
        true_packet_law();
        if plan.is_spent() {
            return Ok(None);
        }
        let count = journal.pack(&mut self.packer, plan)?;
        plan.advance(count);
        Ok(Some(self.packer.bytes()))
    }
}
