//! The server at work: the requests that it receives on a port, and the responses that it sends.

ghost use Rattle.std.specs.Prelude.{◌≡◌, ◌<◌, ◌⊎◌, true, ℕ, List, Bool, drop, length, IfErr, IfNone, IfOk, IfSome};
ghost use Rattle.std.specs.Prelude.{MatchResult, OnErr};
ghost use Rattle.std.specs.Option.{OnSome};
ghost use Rattle.std.specs.Io.KnownBytes.{Appends};
ghost use Rattle.mold_devices.specs.Faults.{CountsCommand};
ghost use Rattle.mold_serve.specs.Answering.{MayOffer, OffersNext, OffersOrStops, Reaches, left_of};
ghost use Rattle.mold_serve.specs.FileError.{EndsRefused, IsReadOrMemory};
ghost use Rattle.mold_turns.specs.Outgoing.{IsBounded};
ghost use Rattle.mold_turns.specs.Runs.{Begins, Ran, Rests, TurnRests, WrittenInTime};
ghost use Rattle.mold_serve.specs.Serving.{IsInNextTurn, IsSame, MayAnswer, behind, offer_all, replied, reply};
ghost use Rattle.mold_serve.specs.Serving.{serve_turn, served_by, service_of, serving, state};
ghost use Rattle.mold_serve.specs.Tally.{EndsServed, served_line};
ghost use Rattle.mold_session.specs.Journal.{JournalState};
ghost use Rattle.mold_session.specs.Loading.{CountsLoad};
ghost use Rattle.mold_wire.specs.declared.limits.TheConstants.{MAX_LIMIT};

use crate::file_error::end_refused;
use crate::tally::Tally;
use mold_devices::{CommandFault, Sink};
use mold_ports::Datagrams;
use mold_session::laws::{answer_not_empty_law, answered_law, planned_law};
use mold_session::{FileError, Plan, ServedJournal, Server};

/// A server at work: the port that requests are received on, the server and its journal, and what was printed and
/// counted so far.
#[derive(Drop)]
pub struct Responder<'a, 'j, D, J> {
    /// The port that requests are received on and responses are sent from.
    pub port: &'a mut D,
    /// The server, which counts the requests that it answers.
    pub server: &'a mut Server,
    /// The journal that requests are answered from.
    pub journal: &'j mut J,
    /// What was printed and counted so far.
    pub tally: &'a mut Tally,
}

impl<'a, 'j, D: Datagrams, J: ServedJournal> Responder<'a, 'j, D, J> {
    // Offers the next datagram of a plan to the requester. Returns whether there was one.
    fn offer_next(&mut self, plan: &mut Plan, to: D::Peer) -> Result<bool, FileError>
        ensures offered { (journal : JournalState) →
            MayOffer J.shows self.old.journal.now self.old.server.now plan.old journal → D.modeled ≡ true →
            MatchResult result
            (λ more. OffersNext to result more (left_of (service_of journal self.old.server.now) plan.old)
            (left_of (service_of journal self.old.server.now) plan.new)
            (state D.port self.old) (state D.port self.new))
            (λ _. OffersOrStops to result (left_of (service_of journal self.old.server.now) plan.old)
            (left_of (service_of journal self.old.server.now) plan.new)
            (state D.port self.old) (state D.port self.new)) }
        ensures less { IfOk result (λ more. more ≡ true → plan.new.left < plan.old.left) }
        ensures session { plan.new.session ≡ plan.old.session }
        ensures to { plan.new.to ≡ plan.old.to }
        ensures prints { Begins self.old.tally.now.outgoing.text self.new.tally.now.outgoing.text }
        ensures comes { D.modeled ≡ true → (D.port self.new.port.now).comes ≡ (D.port self.old.port.now).comes }
        ensures refused { IfErr result (λ error. (journal : JournalState) →
            MayOffer J.shows self.old.journal.now self.old.server.now plan.old journal → IsReadOrMemory error) }
        ensures shown { (journal : JournalState) →
            J.shows self.old.journal.now journal → J.shows self.new.journal.now journal }
        ensures stays { (earlier : J) →
            J.stays earlier self.old.journal.now → J.stays earlier self.new.journal.now }
        ensures failures { CountsLoad (J.failed self.old.journal.now) (J.failed self.new.journal.now) result }
        ensures same { IsSame self.old self.new }
    {
        planned_law();
        let sequence = plan.from();
        let datagram = match self.server.datagram_from(self.journal, plan) {
            Ok(Some(datagram)) => datagram,
            Ok(None) => return Ok(false),
            Err(error) => return Err(error),
        };
        match self.port.send(to, datagram) {
            Ok(()) => {
                let count = plan.from() - sequence;
                let Ok(()) = self.tally.add_answered(sequence, count) else {
                    return Err(FileError::Memory);
                };
            }
            Err(_) => self.tally.add_failed(),
        }
        Ok(true)
    }

    // Offers all datagrams of a plan to the requester, in order.
    fn offer_all(&mut self, plan: &mut Plan, to: D::Peer) -> Result<(), FileError>
        ensures offered { (journal : JournalState) →
            MayOffer J.shows self.old.journal.now self.old.server.now plan.old journal → D.modeled ≡ true →
            (fails : List Bool) × Reaches result (state D.port self.new)
            (offer_all to (left_of (service_of journal self.old.server.now) plan.old) fails
            (state D.port self.old)) }
        ensures prints { Begins self.old.tally.now.outgoing.text self.new.tally.now.outgoing.text }
        ensures comes { D.modeled ≡ true → (D.port self.new.port.now).comes ≡ (D.port self.old.port.now).comes }
        ensures refused { IfErr result (λ error. (journal : JournalState) →
            MayOffer J.shows self.old.journal.now self.old.server.now plan.old journal → IsReadOrMemory error) }
        ensures shown { (journal : JournalState) →
            J.shows self.old.journal.now journal → J.shows self.new.journal.now journal }
        ensures stays { (earlier : J) →
            J.stays earlier self.old.journal.now → J.stays earlier self.new.journal.now }
        ensures failures { CountsLoad (J.failed self.old.journal.now) (J.failed self.new.journal.now) result }
        ensures same { IsSame self.old self.new }
    {
        'packets: while self.offer_next(plan, to)? {}
        Ok(())
    }

    /// Answers a request with datagrams to the requester, or refuses it. Each datagram that was sent is printed and
    /// counted, and so is a refusal. Each datagram is offered once, and a failed send is counted.
    ///
    /// The error is `Memory` if an allocation failed, and otherwise that of the journal: `Read` if a read failed, or
    /// the fault of a file that was damaged after it was opened. Part of the work is then done.
    pub fn answer_request(&mut self, from: D::Peer, request: &[u8]) -> Result<(), FileError>
        ensures replied { (journal : JournalState) →
            MayAnswer J.shows self.old.journal.now self.old.server.now journal → D.modeled ≡ true →
            (fails : List Bool) × Reaches result (state D.port self.new)
            (replied from fails (reply (service_of journal self.old.server.now) request.now)
            (state D.port self.old)) }
        ensures prints { Begins self.old.tally.now.outgoing.text self.new.tally.now.outgoing.text }
        ensures comes { D.modeled ≡ true → (D.port self.new.port.now).comes ≡ (D.port self.old.port.now).comes }
        ensures refused { IfErr result (λ error. (journal : JournalState) →
            MayAnswer J.shows self.old.journal.now self.old.server.now journal → IsReadOrMemory error) }
        ensures shown { (journal : JournalState) →
            J.shows self.old.journal.now journal → J.shows self.new.journal.now journal }
        ensures stays { (earlier : J) →
            J.stays earlier self.old.journal.now → J.stays earlier self.new.journal.now }
        ensures failures { CountsLoad (J.failed self.old.journal.now) (J.failed self.new.journal.now) result }
        ensures same { IsSame self.old self.new }
    {
        answered_law();
        answer_not_empty_law();
        match self
            .server
            .plan_from(self.journal, self.journal.next(), request)
        {
            Ok(mut plan) => self.offer_all(&mut plan, from),
            Err(why) => match self.tally.add_refused(why) {
                Ok(()) => Ok(()),
                Err(_) => Err(FileError::Memory),
            },
        }
    }

    /// Makes one turn: receives once, and answers or refuses what was received. `buffer` has `MAX_LIMIT` bytes. The
    /// errors are those of `answer_request`.
    pub fn take_turn(&mut self, buffer: &mut [u8]) -> Result<(), FileError>
        requires { length buffer.old ≡ MAX_LIMIT }
        ensures turn { (journal : JournalState) →
            MayAnswer J.shows self.old.journal.now self.old.server.now journal → D.modeled ≡ true →
            (fails : List Bool) × Reaches result (state D.port self.new)
            (serve_turn (service_of journal self.old.server.now) fails (state D.port self.old)) }
        ensures prints { Begins self.old.tally.now.outgoing.text self.new.tally.now.outgoing.text }
        ensures comes { D.modeled ≡ true →
            (D.port self.new.port.now).comes ≡ drop 1 (D.port self.old.port.now).comes }
        ensures refused { IfErr result (λ error. (journal : JournalState) →
            MayAnswer J.shows self.old.journal.now self.old.server.now journal → IsReadOrMemory error) }
        ensures shown { (journal : JournalState) →
            J.shows self.old.journal.now journal → J.shows self.new.journal.now journal }
        ensures failures { CountsLoad (J.failed self.old.journal.now) (J.failed self.new.journal.now) result }
        ensures same { IsSame self.old self.new }
    {
        match self.port.receive(buffer) {
            Ok(Some((len, from))) => self.answer_request(from, &buffer[..len]),
            Ok(None) => {
                self.tally.add_quiet();
                Ok(())
            }
            Err(_) => {
                self.tally.add_failed();
                Ok(())
            }
        }
    }

    // Makes one turn. Then writes the text if it has at least 65,536 bytes or the sink is live. If the turn fails,
    // writes the text of the turns before it. Returns the status if an error of the journal's bytes ended the loop.
    fn write_turn<K: Sink>(
        &mut self,
        buffer: &mut [u8],
        sink: &mut K,
    ) -> Result<Option<u8>, CommandFault>
        requires { length buffer.old ≡ MAX_LIMIT }
        ensures rests { (journal : JournalState) →
            MayAnswer J.shows self.old.journal.now self.old.server.now journal → D.modeled ≡ true →
            TurnRests (serving (service_of journal self.old.server.now)) behind (state D.port self.old)
            result (K.held sink.old) (K.held sink.new) (state D.port self.new) }
        ensures comes { D.modeled ≡ true →
            (D.port self.new.port.now).comes ≡ drop 1 (D.port self.old.port.now).comes }
        ensures bounded { IfOk result (λ ended. IfNone ended
            (IsBounded (K.live sink.old) self.new.tally.now.outgoing.text)) }
        ensures kept { IfErr result (λ fault. fault ≡ CommandFault.Memory →
            Appends (K.held sink.old) (K.held sink.new) self.old.tally.now.outgoing.text) }
        ensures ended { IfOk result (λ ended. OnSome ended ((journal : JournalState) →
            ¬ MayAnswer J.shows self.old.journal.now self.old.server.now journal)) }
        ensures refused { IfOk result (λ ended. IfSome ended (λ status.
            (status ≡ 2) × EndsRefused (K.held sink.old) (K.held sink.new))) }
        ensures written { IfOk result (λ ended. IfNone ended
            ((text : List ℕ) × Appends (K.held sink.old) (K.held sink.new) text)) }
        ensures live { K.live sink.new ≡ K.live sink.old }
        ensures shown { (journal : JournalState) →
            J.shows self.old.journal.now journal → J.shows self.new.journal.now journal }
        ensures failures { (journal : JournalState) →
            MayAnswer J.shows self.old.journal.now self.old.server.now journal →
            CountsCommand (J.failed self.old.journal.now) (J.failed self.new.journal.now)
            (K.failed sink.old) (K.failed sink.new) result }
        ensures same { IsSame self.old self.new }
    {
        let told = self.tally.outgoing.unwritten();
        match self.take_turn(buffer) {
            Ok(()) => {}
            Err(error) => {
                let outgoing = &mut self.tally.outgoing;
                return Ok(Some(end_refused(outgoing, told, error, sink)?));
            }
        }
        self.tally.outgoing.send_large(sink)?;
        Ok(None)
    }

    // Makes the turns. Text that is too short for a large write is kept for a later write. Returns the status if an
    // error of the journal's bytes ended the loop.
    fn take_turns<K: Sink>(
        &mut self,
        turns: u64,
        buffer: &mut [u8],
        sink: &mut K,
    ) -> Result<Option<u8>, CommandFault>
        requires { length buffer.old ≡ MAX_LIMIT }
        ensures rests { (journal : JournalState) →
            MayAnswer J.shows self.old.journal.now self.old.server.now journal → D.modeled ≡ true →
            Rests (serving (service_of journal self.old.server.now)) behind turns (state D.port self.old)
            result (K.held sink.old) (K.held sink.new) (state D.port self.new) }
        ensures bounded { IfOk result (λ ended. IfNone ended
            (IsBounded (K.live sink.old) self.old.tally.now.outgoing.text →
            IsBounded (K.live sink.old) self.new.tally.now.outgoing.text)) }
        ensures timely { OnErr result ((journal : JournalState) →
            MayAnswer J.shows self.old.journal.now self.old.server.now journal → D.modeled ≡ true →
            IsBounded (K.live sink.old) self.old.tally.now.outgoing.text →
            WrittenInTime (serving (service_of journal self.old.server.now)) (state D.port self.old)
            (K.live sink.old) (K.held sink.old) (K.held sink.new) (IsInNextTurn (D.port self.new.port.now))) }
        ensures ended { IfOk result (λ ended. OnSome ended ((journal : JournalState) →
            ¬ MayAnswer J.shows self.old.journal.now self.old.server.now journal)) }
        ensures refused { IfOk result (λ ended. IfSome ended (λ status.
            (status ≡ 2) × EndsRefused (K.held sink.old) (K.held sink.new))) }
        ensures written { IfOk result (λ ended. IfNone ended
            ((text : List ℕ) × Appends (K.held sink.old) (K.held sink.new) text)) }
        ensures live { K.live sink.new ≡ K.live sink.old }
        ensures shown { (journal : JournalState) →
            J.shows self.old.journal.now journal → J.shows self.new.journal.now journal }
        ensures failures { (journal : JournalState) →
            MayAnswer J.shows self.old.journal.now self.old.server.now journal →
            CountsCommand (J.failed self.old.journal.now) (J.failed self.new.journal.now)
            (K.failed sink.old) (K.failed sink.new) result }
        ensures same { IsSame self.old self.new }
    {
        for _turn in 0..turns {
            match self.write_turn(buffer, sink)? {
                Some(status) => return Ok(Some(status)),
                None => {}
            }
        }
        Ok(None)
    }

    /// Makes the turns, prints the last line, and returns the status, which is 0. `buffer` has `MAX_LIMIT` bytes. At an
    /// error of the journal's bytes, its line is written after the text of the turns before, and the status is 2.
    pub(crate) fn serve<K: Sink>(
        &mut self,
        turns: u64,
        buffer: &mut [u8],
        sink: &mut K,
    ) -> Result<u8, CommandFault>
        requires { length buffer.old ≡ MAX_LIMIT }
        ensures run { (journal : JournalState) →
            MayAnswer J.shows self.old.journal.now self.old.server.now journal → D.modeled ≡ true →
            Ran (serving (service_of journal self.old.server.now)) turns
            (state D.port self.old) (λ responder. served_line responder.tally) (λ responder. 0)
            (λ responder. (D.port self.new.port.now ≡ responder.port)
            × (self.new.server.now ≡ served_by self.old.server.now responder))
            result (K.held sink.old) (K.held sink.new) (D.port self.new.port.now).sent }
        ensures timely { OnErr result ((journal : JournalState) →
            MayAnswer J.shows self.old.journal.now self.old.server.now journal → D.modeled ≡ true →
            IsBounded (K.live sink.old) self.old.tally.now.outgoing.text →
            WrittenInTime (serving (service_of journal self.old.server.now)) (state D.port self.old)
            (K.live sink.old) (K.held sink.old) (K.held sink.new) (IsInNextTurn (D.port self.new.port.now))) }
        ensures whole { IfOk result (λ status. (journal : JournalState) →
            MayAnswer J.shows self.old.journal.now self.old.server.now journal → status ≡ 0) }
        ensures status { IfOk result (λ status.
            ((status ≡ 0) × EndsServed (K.held sink.old) (K.held sink.new))
            ⊎ ((status ≡ 2) × EndsRefused (K.held sink.old) (K.held sink.new))) }
        ensures shown { (journal : JournalState) →
            J.shows self.old.journal.now journal → J.shows self.new.journal.now journal }
        ensures failures { (journal : JournalState) →
            MayAnswer J.shows self.old.journal.now self.old.server.now journal →
            CountsCommand (J.failed self.old.journal.now) (J.failed self.new.journal.now)
            (K.failed sink.old) (K.failed sink.new) result }
        ensures same { IsSame self.old self.new }
    {
        match self.take_turns(turns, buffer, sink)? {
            Some(status) => return Ok(status),
            None => {}
        }
        let told = self.tally.outgoing.unwritten();
        let Ok(()) = self.tally.push_last() else {
            return Err(
                self.tally
                    .outgoing
                    .end_with(told, CommandFault::Memory, sink),
            );
        };
        self.tally.outgoing.send(sink)?;
        Ok(0)
    }
}
