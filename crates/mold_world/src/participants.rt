//! The parts of a world, and what each event does to them.

ghost use Rattle.std.specs.Prelude.{◌≡◌, ◌≤◌, ◌+◌, None, Some, Ok, length};
ghost use Rattle.std.specs.Prelude.{IfOk, IfErr, IfSome, IsOk, IsSome, OnOk, OnErr};
ghost use Rattle.std.specs.Option.{option_copied};
ghost use Rattle.mold_messages.specs.Listed.{HasRoom};
ghost use Rattle.mold_session.specs.Answer.{planned};
ghost use Rattle.mold_wire.specs.Reading.{reading};
ghost use Rattle.mold_world.specs.Effect.{bursting, is_own};
ghost use Rattle.mold_world.specs.declared.event.EventOf.TheVariants.{Publish, Datagram, Heartbeat, Close, End};
ghost use Rattle.mold_world.specs.declared.event.EventOf.TheVariants.{Request, Ask, Deliver, Noise, Restart};
ghost use Rattle.mold_world.specs.Inside.{AreParts, KeepsServing, world_of};
ghost use Rattle.mold_world.specs.Refusals.{Applies};
ghost use Rattle.mold_world.specs.Event.{seen};
ghost use Rattle.mold_world.specs.Sending.{stored, stored_report};
ghost use Rattle.mold_world.specs.declared.report.WorldError.{WorldError};

use crate::burst::send_all;
use crate::event::Event;
use crate::report::{Report, WorldError};
use crate::subscriber::Subscriber;
use crate::way::Way;
use mold_messages::MessageList;
use mold_receiver::laws::wanted_law;
use mold_session::laws::{answered_law, sending_law};
use mold_session::{Plan, Publisher, Server, SessionError};
use mold_wire::laws::{front_law, spelling_length_law};
use mold_wire::{MESSAGE_OVERHEAD, Session, decode};
use std::alloc::Global;

/// A publisher, a re-request server, all datagrams that they ever sent, and the receivers.
#[derive(Drop)]
pub(crate) struct Participants {
    pub(crate) alloc: Global,
    pub(crate) publisher: Publisher,
    pub(crate) server: Server,
    pub(crate) sent: MessageList,
    pub(crate) subscribers: Vec<Subscriber>,
}

// Appends the datagram, if there is one, to the datagrams that were sent. Reports its index.
fn store(sent: &mut MessageList, datagram: Option<&[u8]>) -> Result<Report, WorldError>
    ensures stored { OnOk result (sent.new.messages ≡ stored sent.old.messages (option_copied datagram.entry)) }
    ensures told { IfOk result (λ report. report ≡ stored_report sent.old.messages (option_copied datagram.entry)) }
    ensures same { OnErr result (sent.new.messages ≡ sent.old.messages) }
    ensures some { OnErr result (IsSome (option_copied datagram.entry)) }
    ensures memory { IfErr result (λ error. error ≡ WorldError.Memory) }
    ensures room { IfSome (option_copied datagram.entry) (λ bytes. HasRoom sent.old 1 (length bytes)) → IsOk result }
{
    let Some(bytes) = datagram else {
        return Ok(Report::Nothing);
    };
    let place = sent.len();
    sent.push(bytes)?;
    Ok(Report::Sent { place })
}

// Returns whether the bytes encode a packet of the session.
fn is_own(session: Session, bytes: &[u8]) -> bool
    ensures { result ≡ is_own session (reading bytes.now) }
{
    match decode(bytes) {
        Ok(packet) => packet.session == session,
        Err(_) => false,
    }
}

impl Participants {
    fn publish(&mut self, message: &[u8]) -> Result<Report, WorldError>
        ensures applied { Applies (world_of self.old) (Publish message.now) result (world_of self.new) }
        ensures serves { KeepsServing self.old self.new }
    {
        let number = self.publisher.publish(message)?;
        Ok(Report::Published { number })
    }

    // Sends the next data packet. Space for the longest datagram is allocated before the publisher counts messages as
    // sent.
    fn datagram(&mut self) -> Result<Report, WorldError>
        requires { AreParts self.old }
        ensures applied { Applies (world_of self.old) Datagram result (world_of self.new) }
        ensures serves { KeepsServing self.old self.new }
    {
        front_law();
        spelling_length_law();
        let limit = usize::from(self.publisher.journal().max_message()) + MESSAGE_OVERHEAD;
        self.sent.reserve(1, limit)?;
        let stored = store(&mut self.sent, self.publisher.datagram());
        Ok(stored.unwrap())
    }

    fn heartbeat(&mut self) -> Result<Report, WorldError>
        ensures applied { Applies (world_of self.old) Heartbeat result (world_of self.new) }
        ensures serves { KeepsServing self.old self.new }
    {
        store(&mut self.sent, self.publisher.heartbeat())
    }

    fn close(&mut self) -> Result<Report, WorldError>
        ensures applied { Applies (world_of self.old) Close result (world_of self.new) }
        ensures serves { KeepsServing self.old self.new }
    {
        match self.publisher.close() {
            Ok(()) => Ok(Report::Closed),
            Err(unsent) => Err(WorldError::Layer(SessionError::Close(unsent))),
        }
    }

    fn end(&mut self) -> Result<Report, WorldError>
        ensures applied { Applies (world_of self.old) End result (world_of self.new) }
        ensures serves { KeepsServing self.old self.new }
    {
        store(&mut self.sent, self.publisher.end())
    }

    // Sends all remaining datagrams of a plan. If an allocation fails, none is sent.
    fn send(&mut self, mut plan: Plan) -> Result<Report, WorldError>
        requires serves { self.old.publisher.journal.max_message ≤ self.old.server.max_message }
        requires session { plan.session ≡ self.old.publisher.journal.session }
        requires to { plan.to ≤ length self.old.publisher.journal.messages + 1 }
        ensures sent { IfOk result (λ report. bursting (world_of self.old)
            (planned self.old.publisher.journal.messages self.old.server.limit plan) ≡ Ok (report, world_of self.new)) }
        ensures same { OnErr result (world_of self.new ≡ world_of self.old) }
        ensures memory { IfErr result (λ error. error ≡ WorldError.Memory) }
        ensures serves { KeepsServing self.old self.new }
    {
        let first = self.sent.len();
        let sent = send_all(
            &mut self.server,
            self.publisher.journal(),
            &mut plan,
            &mut self.sent,
        );
        match sent {
            Ok(()) => Ok(Report::Burst {
                first,
                count: self.sent.len() - first,
            }),
            Err(error) => {
                self.sent.truncate(first);
                Err(WorldError::from(error))
            }
        }
    }

    // The server counts the request as answered even if an allocation fails.
    fn request(&mut self, bytes: &[u8]) -> Result<Report, WorldError>
        requires { AreParts self.old }
        ensures applied { Applies (world_of self.old) (Request bytes.now) result (world_of self.new) }
        ensures serves { KeepsServing self.old self.new }
    {
        answered_law();
        let plan = self.server.plan(self.publisher.journal(), bytes)?;
        self.send(plan)
    }

    fn ask(&mut self, r: usize) -> Result<Report, WorldError>
        requires { AreParts self.old }
        ensures applied { Applies (world_of self.old) (Ask r) result (world_of self.new) }
        ensures serves { KeepsServing self.old self.new }
    {
        answered_law();
        sending_law();
        wanted_law();
        let Some(subscriber) = self.subscribers.get(r) else {
            return Err(WorldError::NoReceiver);
        };
        match subscriber.receiver().wanted() {
            Some(request) => self.request(&request.encode()),
            None => Ok(Report::Nothing),
        }
    }

    fn deliver(&mut self, r: usize, way: Way, sent: usize) -> Result<Report, WorldError>
        requires { AreParts self.old }
        ensures applied { Applies (world_of self.old) (Deliver r way sent) result (world_of self.new) }
        ensures serves { KeepsServing self.old self.new }
    {
        let Some(subscriber) = self.subscribers.get_mut(r) else {
            return Err(WorldError::NoReceiver);
        };
        let Some(bytes) = self.sent.get(sent) else {
            return Err(WorldError::NoSuchDatagram);
        };
        Ok(subscriber.give(way, bytes)?)
    }

    fn noise(&mut self, r: usize, way: Way, bytes: &[u8]) -> Result<Report, WorldError>
        requires { AreParts self.old }
        ensures applied { Applies (world_of self.old) (Noise r way bytes.now) result (world_of self.new) }
        ensures serves { KeepsServing self.old self.new }
    {
        let Some(subscriber) = self.subscribers.get_mut(r) else {
            return Err(WorldError::NoReceiver);
        };
        if is_own(self.publisher.journal().session(), bytes) {
            return Err(WorldError::NotNoise);
        }
        Ok(subscriber.give(way, bytes)?)
    }

    fn restart(&mut self, r: usize, next: u64) -> Result<Report, WorldError>
        ensures applied { Applies (world_of self.old) (Restart r next) result (world_of self.new) }
        ensures serves { KeepsServing self.old self.new }
    {
        match self.subscribers.get_mut(r) {
            Some(subscriber) => subscriber.restart(self.alloc, next),
            None => Err(WorldError::NoReceiver),
        }
    }

    /// Applies an event.
    pub(crate) fn change(&mut self, event: &Event<'_>) -> Result<Report, WorldError>
        requires { AreParts self.old }
        ensures applied { Applies (world_of self.old) (seen event.now) result (world_of self.new) }
        ensures serves { KeepsServing self.old self.new }
    {
        match *event {
            Event::Publish(message) => self.publish(message),
            Event::Datagram => self.datagram(),
            Event::Heartbeat => self.heartbeat(),
            Event::Close => self.close(),
            Event::End => self.end(),
            Event::Request(bytes) => self.request(bytes),
            Event::Ask(r) => self.ask(r),
            Event::Deliver { r, way, sent } => self.deliver(r, way, sent),
            Event::Noise { r, way, bytes } => self.noise(r, way, bytes),
            Event::Restart { r, next } => self.restart(r, next),
        }
    }
}
