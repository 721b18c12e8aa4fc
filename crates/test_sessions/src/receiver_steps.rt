//! What the tests of receivers and arbiters share: packets of one session, and a receiver with its batch.

use crate::comparisons::{holds, holds_at};
pub use crate::journals::SESSION;
use mold_receiver::{Batch, Receiver, ReceiverError, Refusal, Taken};
use std::alloc::{AllocError, Global};
use std::process::Abort;

/// Packets of messages by their numbers: message 1 is `A`, message 2 is `B`.
pub const DATA_1: &[u8] = b"SESSION001\0\0\0\0\0\0\0\x01\0\x01\0\x01A";

pub const DATA_2: &[u8] = b"SESSION001\0\0\0\0\0\0\0\x02\0\x01\0\x01B";

pub const DATA_3: &[u8] = b"SESSION001\0\0\0\0\0\0\0\x03\0\x01\0\x01C";

pub const DATA_1_2: &[u8] = b"SESSION001\0\0\0\0\0\0\0\x01\0\x02\0\x01A\0\x01B";

pub const DATA_2_3: &[u8] = b"SESSION001\0\0\0\0\0\0\0\x02\0\x02\0\x01B\0\x01C";

pub const DATA_1_3: &[u8] = b"SESSION001\0\0\0\0\0\0\0\x01\0\x03\0\x01A\0\x01B\0\x01C";

/// The ends of sessions of 2 and of 3 messages.
pub const END_3: &[u8] = b"SESSION001\0\0\0\0\0\0\0\x03\xff\xff";

pub const END_4: &[u8] = b"SESSION001\0\0\0\0\0\0\0\x04\xff\xff";

/// The outcome of a packet of which this many messages are delivered, stored and beyond the window.
pub fn taken(counts: (u32, u32, u32)) -> Result<Taken, Refusal> {
    let (handed, kept, beyond) = counts;
    Ok(Taken {
        handed,
        kept,
        beyond,
    })
}

/// Whether the batch has these messages, the first of which has this number.
pub fn is_batch<'w, 'm>(batch: &Batch, first: u64, messages: &'w [&'m [u8]]) -> bool {
    for (i, message) in messages.iter().enumerate() {
        if batch.get(i) != Some(*message) {
            return false;
        }
    }
    batch.len() == messages.len() && batch.first() == Some(first)
}

/// A receiver of the session, and its batch.
#[derive(Drop)]
pub struct Reception {
    pub receiver: Receiver,
    pub batch: Batch,
}

/// A call of a receiver with its result, or what can be read of the receiver and its batch.
#[derive(Clone, Copy)]
pub enum Step {
    /// The session, and a window.
    Window(u32),
    /// A packet is taken: how many of its messages are delivered, stored and beyond the window.
    Taken(&'static [u8], (u32, u32, u32)),
    /// A packet is taken without a copy: this many of its messages are delivered. The batch is then empty.
    Heard(&'static [u8], u16),
    /// A packet is refused, and nothing changes.
    Refused(&'static [u8], Refusal),
    /// The next message, the greatest number that is known, and how many messages are stored.
    Numbers(u64, u64, u32),
    /// The request for missing messages, if there is one: its sequence number and its count.
    Wanted(Option<(u64, u16)>),
    /// The batch: the number of its first message, and its messages.
    Batch(u64, &'static [&'static [u8]]),
    /// The end that is known, and whether the receiver has all messages before it.
    Ended(Option<u64>, bool),
}

/// The state that a refusal leaves: `next`, `known`, `stored`, and the batch's length and first number.
pub type State = (u64, u64, u32, usize, Option<u64>);

impl Reception {
    pub fn new(alloc: Global, next: u64, window: u32) -> Result<Reception, ReceiverError> {
        let receiver = Receiver::new(alloc, SESSION, next, window)?;
        Ok(Reception {
            receiver,
            batch: Batch::new(alloc),
        })
    }

    pub fn state(&self) -> State {
        (
            self.receiver.next(),
            self.receiver.known(),
            self.receiver.stored(),
            self.batch.len(),
            self.batch.first(),
        )
    }

    pub fn take(&mut self, rt: &impl Abort, packet: &[u8]) -> Result<Taken, Refusal> {
        holds(rt, self.batch.follows(self.receiver.next()));
        self.receiver.take(packet, &mut self.batch)
    }

    pub fn take_all(&mut self, rt: &impl Abort, packets: &[&[u8]]) -> Result<(), Refusal> {
        for packet in packets {
            self.take(rt, packet)?;
        }
        Ok(())
    }

    fn is_refused(&mut self, rt: &impl Abort, packet: &[u8], refused: Refusal) -> bool {
        let (before, ended) = (self.state(), self.receiver.ended());
        self.take(rt, packet) == Err(refused)
            && self.state() == before
            && self.receiver.ended() == ended
    }

    fn hear(&mut self, packet: &[u8]) -> Result<u16, Refusal> {
        let heard = self.receiver.hear(packet, &mut self.batch)?;
        Ok(heard.own.len())
    }

    fn wanted(&self) -> Option<(u64, u16)> {
        let request = self.receiver.wanted()?;
        Some((request.sequence, request.count))
    }

    /// Gives up the gap at the next message. Returns how many stored messages were then delivered.
    fn skip(&mut self, rt: &impl Abort) -> Result<u32, AllocError> {
        let next = self.receiver.next();
        let Some(gap) = self.receiver.next_missing(next) else {
            return Ok(0);
        };
        holds(rt, gap.first == next);
        self.batch.clear();
        self.receiver.skip(gap.end, &mut self.batch)
    }

    /// Whether a step is as it states.
    fn takes(&mut self, rt: &impl Abort, step: Step) -> bool {
        match step {
            Step::Window(window) => {
                self.receiver.window() == window && self.receiver.segments() == 0
            }
            Step::Taken(packet, counts) => self.take(rt, packet) == taken(counts),
            Step::Heard(packet, own) => self.hear(packet) == Ok(own) && self.batch.is_empty(),
            Step::Refused(packet, refused) => self.is_refused(rt, packet, refused),
            Step::Numbers(next, known, stored) => {
                let (found_next, found_known, found_stored, _, _) = self.state();
                (found_next, found_known, found_stored) == (next, known, stored)
            }
            Step::Wanted(request) => self.wanted() == request,
            Step::Batch(first, messages) => is_batch(&self.batch, first, messages),
            Step::Ended(end, finished) => {
                self.receiver.ended() == end && self.receiver.finished() == finished
            }
        }
    }

    pub fn expect_steps(&mut self, rt: &impl Abort, name: &str, steps: &[Step]) {
        for (i, step) in steps.iter().enumerate() {
            holds_at(rt, self.takes(rt, *step), name, i);
        }
    }

    /// Takes a packet. If an allocation fails, nothing changes, and the packet is taken again.
    pub fn take_again(&mut self, rt: &impl Abort, packet: &[u8]) -> Result<Taken, Refusal> {
        let before = self.state();
        let found = self.take(rt, packet);
        if found != Err(Refusal::Memory) {
            return found;
        }
        holds(rt, self.state() == before);
        self.take(rt, packet)
    }

    /// Gives up a gap, in the same way.
    pub fn skip_again(&mut self, rt: &impl Abort) -> Result<u32, AllocError> {
        let before = self.state();
        let found = self.skip(rt);
        if found.is_ok() {
            return found;
        }
        holds(rt, self.state() == before);
        self.skip(rt)
    }
}
