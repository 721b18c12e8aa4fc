//! A receiver of a world, with its arbiter and its book.

ghost use Rattle.std.specs.Prelude.{◌≡◌, None, Some, IfOk, OnOk, OnErr};
ghost use Rattle.mold_receiver.specs.Arbiter.{report_on};
ghost use Rattle.mold_receiver.specs.Batch.{Follows};
ghost use Rattle.mold_receiver.specs.Receive.{IsCopied, receive};
ghost use Rattle.mold_world.specs.Effect.{given, told};
ghost use Rattle.mold_world.specs.Restarts.{Restarts};
ghost use Rattle.mold_world.specs.World.{subscriber_at};

use crate::report::{Report, WorldError};
use crate::way::Way;
use mold_receiver::laws::no_memory_law;
use mold_receiver::{Arbiter, Batch, Line, LineReport, Receiver, Refusal};
use mold_wire::Session;
use std::alloc::{AllocError, Global};
use std::marker::Model;

/// A receiver with its arbiter and its book. The book has all messages that the receiver delivered, from message 1
/// on.
#[derive(Drop)]
pub(crate) struct Subscriber {
    arbiter: Arbiter,
    book: Batch,
}

impl Model for Subscriber {
    ghost use Rattle.mold_world.specs.Codes.{subscriber_code};
    ghost use Rattle.mold_world.specs.World.{SubscriberState};

    ghost Value = { SubscriberState };

    ghost coded = { subscriber_code };

    ghost view = { λ p. record { arbitration = p.arbiter; book = p.book } };
}

impl Subscriber {
    /// Returns a receiver that starts at message 1. It returns an error if the allocation of the window fails or the
    /// window is not valid.
    pub(crate) fn new(
        alloc: Global,
        session: Session,
        window: u32,
    ) -> Result<Subscriber, AllocError>
        ensures { IfOk result (λ subscriber. subscriber ≡ subscriber_at session window) }
    {
        match Receiver::new(alloc, session, 1, window) {
            Ok(receiver) => Ok(Subscriber {
                arbiter: Arbiter::new(receiver),
                book: Batch::new(alloc),
            }),
            Err(_) => Err(AllocError),
        }
    }

    /// Returns the receiver.
    pub(crate) fn receiver(&self) -> &Receiver
        ensures { result.now ≡ self.now.arbitration.view }
    {
        self.arbiter.receiver()
    }

    /// Returns the book.
    pub(crate) fn book(&self) -> &Batch
        ensures { result.now ≡ self.now.book }
    {
        &self.book
    }

    /// Returns the report of a line.
    pub(crate) fn report(&self, line: Line) -> LineReport
        ensures { result ≡ report_on line self.now.arbitration.reports }
    {
        self.arbiter.report(line)
    }

    /// Gives the receiver bytes that came in this way. It appends the messages that are delivered to the book.
    /// Returns an error if an allocation fails.
    // For the optimizer: a call would return the counts through memory, and their copy would wait until they reach it.
    #[inline(always)]
    pub(crate) fn give(&mut self, way: Way, bytes: &[u8]) -> Result<Report, AllocError>
        requires { Follows self.old.book self.old.arbitration.view.next }
        ensures told { IfOk result (λ report. report ≡ told (receive self.old.arbitration.view bytes.now)) }
        ensures given { OnOk result (self.new ≡ given self.old way bytes.now) }
        ensures copied { OnErr result (IsCopied self.old.arbitration.view bytes.now) }
        ensures same { OnErr result (self.new ≡ self.old) }
    {
        no_memory_law();
        match self.arbiter.take_from(way.origin(), bytes, &mut self.book) {
            Ok(taken) => Ok(Report::Delivered(taken)),
            Err(Refusal::Memory) => Err(AllocError),
            Err(refused) => Ok(Report::NoiseRefused(refused)),
        }
    }

    /// Restarts at a number that the receiver had reached, with the same window.
    pub(crate) fn restart(&mut self, alloc: Global, next: u64) -> Result<Report, WorldError>
        ensures { Restarts self.old next result self.new }
    {
        let receiver = self.arbiter.receiver();
        let reached = receiver.next();
        if next == 0 || reached < next {
            return Err(WorldError::NotReached { next: reached });
        }
        match Receiver::new(alloc, receiver.session(), next, receiver.window()) {
            Ok(receiver) => {
                self.arbiter = Arbiter::new(receiver);
                self.book.truncate((next - 1) as usize);
                Ok(Report::Restarted { next })
            }
            Err(_) => Err(WorldError::Memory),
        }
    }
}
