//! The requests that a publisher's server answers.

ghost use Rattle.std.specs.Prelude.{◌≡◌, ◌<◌, ◌≤◌, true, is_ok, length, IfErr, IfOk, MatchResult};
ghost use Rattle.mold_devices.specs.Devices.{Counts};
ghost use Rattle.mold_durable.specs.Life.{Life};
ghost use Rattle.mold_durable_publisher.specs.DurablePublisher.{IsAtRest, ShowsBytes, ShowsJournal, WasServed};
ghost use Rattle.mold_durable_publisher.specs.declared.durable_publisher.DurablePublisher.{DurablePublisher};
ghost use Rattle.mold_feeder.specs.Requests.{MayRespond, OffersFront, OffersNext, RepliesTo, responses};
ghost use Rattle.mold_feeder.specs.Requests.{sent_journal};
ghost use Rattle.mold_ports.specs.Ports.{cut, next_of, received};
ghost use Rattle.mold_session.specs.Answer.{planned};
ghost use Rattle.mold_session.specs.Journal.{JournalState};
ghost use Rattle.mold_session.specs.Loading.{CountsLoad};
ghost use Rattle.mold_session.specs.Server.{checked_request, counted_if};
ghost use Rattle.mold_session.specs.declared.error.FileError.{FileError};
ghost use Rattle.mold_wire.specs.declared.limits.TheConstants.{MAX_LIMIT};

use mold_durable::Storage;
use mold_durable_publisher::DurablePublisher;
use mold_ports::Datagrams;
use mold_session::laws::{answer_not_empty_law, answered_law, planned_law};
use mold_session::{FileError, Plan, Server};
use mold_wire::MAX_LIMIT;

/// The port of the requests, and the server that responds to them.
#[derive(Drop)]
pub struct Requests<D> {
    /// The port that requests are received on and responses are sent from.
    pub port: D,
    /// The server, which counts the requests that it answers.
    pub server: Server,
    /// The number of datagrams that were sent as responses. It stops at 18446744073709551615.
    pub answered: u64,
    /// The number of responses that ended early because the journal could not be read. It stops at
    /// 18446744073709551615.
    pub unread: u64,
}

impl<D: Datagrams + Drop> Requests<D> {
    /// Returns the requests of this port, which the server answers.
    pub fn new(port: D, server: Server) -> Requests<D>
        ensures { result ≡ record { port = port; server = server; answered = 0; unread = 0 } }
    {
        Requests {
            port,
            server,
            answered: 0,
            unread: 0,
        }
    }

    // Offers the next datagram of a plan to the requester. Returns whether there was one. After an error, nothing was
    // sent.
    fn offer_next<S: Storage + Drop>(
        &mut self,
        publisher: &mut DurablePublisher<S>,
        plan: &mut Plan,
        to: D::Peer,
    ) -> Result<bool, FileError>
        ensures offered { (journal : JournalState) →
            MayRespond S.shows S.may_leave publisher.old self.old.server plan.old journal → D.modeled ≡ true →
            MatchResult result (λ more. OffersNext to more (planned journal.messages self.old.server.limit plan.old)
            (planned journal.messages self.old.server.limit plan.new) (D.port self.old.port) (D.port self.new.port))
            (λ _. D.port self.new.port ≡ D.port self.old.port) }
        ensures less { IfOk result (λ more. more ≡ true → plan.new.left < plan.old.left) }
        ensures unread { self.new.unread ≡ self.old.unread }
        ensures session { plan.new.session ≡ plan.old.session }
        ensures to { plan.new.to ≡ plan.old.to }
        ensures server { self.new.server ≡ self.old.server }
        ensures refused { IfErr result (λ error. (journal : JournalState) →
            MayRespond S.shows S.may_leave publisher.old self.old.server plan.old journal →
            error ≡ FileError.Read) }
        ensures shown { (journal : JournalState) → ShowsJournal S.shows S.may_leave publisher.old journal →
            ShowsJournal S.shows S.may_leave publisher.new journal }
        ensures stays { (earlier : DurablePublisher S) →
            WasServed S.shows S.may_leave S.moment S.left_since earlier publisher.old →
            WasServed S.shows S.may_leave S.moment S.left_since earlier publisher.new }
        ensures failures { CountsLoad (S.failed publisher.old.durable.storage)
            (S.failed publisher.new.durable.storage) result }
    {
        planned_law();
        answer_not_empty_law();
        let datagram = match self.server.datagram_from(publisher, plan) {
            Ok(Some(datagram)) => datagram,
            Ok(None) => return Ok(false),
            Err(error) => return Err(error),
        };
        if self.port.send(to, datagram).is_ok() {
            self.answered = self.answered.saturating_add(1);
        }
        Ok(true)
    }

    // Offers the datagrams of a plan to the requester, in order. After an error, the first of them were offered.
    fn offer_all<S: Storage + Drop>(
        &mut self,
        publisher: &mut DurablePublisher<S>,
        plan: &mut Plan,
        to: D::Peer,
    ) -> Result<(), FileError>
        ensures offered { (journal : JournalState) →
            MayRespond S.shows S.may_leave publisher.old self.old.server plan.old journal → D.modeled ≡ true →
            OffersFront to (is_ok result) (planned journal.messages self.old.server.limit plan.old)
            (D.port self.old.port) (D.port self.new.port) }
        ensures unread { self.new.unread ≡ self.old.unread }
        ensures server { self.new.server ≡ self.old.server }
        ensures refused { IfErr result (λ error. (journal : JournalState) →
            MayRespond S.shows S.may_leave publisher.old self.old.server plan.old journal →
            error ≡ FileError.Read) }
        ensures stays { (earlier : DurablePublisher S) →
            WasServed S.shows S.may_leave S.moment S.left_since earlier publisher.old →
            WasServed S.shows S.may_leave S.moment S.left_since earlier publisher.new }
        ensures failures { CountsLoad (S.failed publisher.old.durable.storage)
            (S.failed publisher.new.durable.storage) result }
    {
        'packets: while self.offer_next(publisher, plan, to)? {}
        Ok(())
    }

    /// Answers a request from the messages that were sent on the lines, which it reads from the journal's file. A
    /// refused request gets no response. A failed send is counted by the port.
    ///
    /// After an error, the rest of the response is not sent, `unread` counts it, and the publisher goes on. The error is `Read` if a read
    /// failed. It is `Damaged` if the file was changed from outside, or while a message waits to be committed.
    pub fn answer<S: Storage + Drop>(
        &mut self,
        publisher: &mut DurablePublisher<S>,
        from: D::Peer,
        request: &[u8],
    ) -> Result<(), FileError>
        requires { publisher.old.publisher.journal.max_message ≤ self.old.server.max_message }
        ensures offered { (life : Life) → ShowsBytes S.shows → IsAtRest S.shows S.may_leave publisher.old life →
            D.modeled ≡ true → OffersFront from (is_ok result)
            (responses (sent_journal publisher.old.publisher) self.old.server request.now)
            (D.port self.old.port) (D.port self.new.port) }
        ensures counted { (life : Life) → ShowsBytes S.shows → IsAtRest S.shows S.may_leave publisher.old life →
            self.new.server ≡ counted_if
            (is_ok (checked_request (sent_journal publisher.old.publisher) request.now)) self.old.server }
        ensures limits { self.new.server ≡ record self.old.server { answered = self.new.server.answered } }
        ensures unread { Counts self.old.unread self.new.unread result }
        ensures refused { IfErr result (λ error. (life : Life) → ShowsBytes S.shows →
            IsAtRest S.shows S.may_leave publisher.old life → error ≡ FileError.Read) }
        ensures served { WasServed S.shows S.may_leave S.moment S.left_since publisher.old publisher.new }
        ensures failures { CountsLoad (S.failed publisher.old.durable.storage)
            (S.failed publisher.new.durable.storage) result }
    {
        answered_law();
        let below = publisher.count() + 1 - publisher.unsent();
        let Ok(mut plan) = self.server.plan_from(publisher, below, request) else {
            return Ok(());
        };
        let offered = self.offer_all(publisher, &mut plan, from);
        if offered.is_err() {
            self.unread = self.unread.saturating_add(1);
        }
        offered
    }

    /// Receives once, and answers the request that was received, if there was one. Only the first `MAX_LIMIT` bytes of
    /// a datagram are used. The errors are those of `answer`.
    pub fn answer_waiting<S: Storage + Drop>(
        &mut self,
        publisher: &mut DurablePublisher<S>,
        buffer: &mut [u8],
    ) -> Result<(), FileError>
        requires longest { publisher.old.publisher.journal.max_message ≤ self.old.server.max_message }
        requires buffer { length buffer.old ≡ MAX_LIMIT }
        ensures replied { (life : Life) → ShowsBytes S.shows → IsAtRest S.shows S.may_leave publisher.old life →
            D.modeled ≡ true → RepliesTo (sent_journal publisher.old.publisher) self.old.server (is_ok result)
            (cut MAX_LIMIT (next_of (D.port self.old.port))) (received (D.port self.old.port)) (D.port self.new.port) }
        ensures limits { self.new.server ≡ record self.old.server { answered = self.new.server.answered } }
        ensures unread { Counts self.old.unread self.new.unread result }
        ensures refused { IfErr result (λ error. (life : Life) → ShowsBytes S.shows →
            IsAtRest S.shows S.may_leave publisher.old life → error ≡ FileError.Read) }
        ensures served { WasServed S.shows S.may_leave S.moment S.left_since publisher.old publisher.new }
        ensures failures { CountsLoad (S.failed publisher.old.durable.storage)
            (S.failed publisher.new.durable.storage) result }
        ensures buffer { length buffer.new ≡ MAX_LIMIT }
    {
        let Ok(Some((len, from))) = self.port.receive(buffer) else {
            return Ok(());
        };
        self.answer(publisher, from, &buffer[..len])
    }
}
