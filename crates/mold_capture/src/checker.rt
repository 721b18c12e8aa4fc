//! The checker, which takes datagrams one by one.

ghost use Rattle.std.specs.Prelude.{◌≡◌, ◌+◌, ◌≤◌, ◌<◌, ◌^◌, [], ℕ, None, IfOk, IfErr, IfNone, IfSome, OnOk, OnErr};
ghost use Rattle.std.specs.Prelude.{length, slice_get};
ghost use Rattle.std.specs.FinMap as finite;
ghost use Rattle.std.specs.Option.{option_map, option_or};
ghost use Rattle.mold_wire.specs.Packet.{Spells, messages_of, top_of};
ghost use Rattle.mold_wire.specs.declared.packet.Packet.{Packet};
ghost use Rattle.mold_capture.specs.Refusal.{conflict, refusal, told};
ghost use Rattle.mold_rule.specs.Refusals.{conflict_at};
ghost use Rattle.mold_capture.specs.Seen.{BringNew, BringsNew, after, end_in, pairs_with, seen_of};
ghost use Rattle.mold_capture.specs.Verdict.{IsVerdict};
ghost use Rattle.mold_rule.specs.declared.refusal.Refusal.TheVariants.{Memory as IsMemory};

use crate::carried::Carried;
use crate::carried_run::CarriedRun;
use crate::memory::Memory;
use crate::verdict::Verdict;
use mold_rule::laws::refusal_law;
use mold_rule::{Refusal, check_header};
use mold_wire::{Body, Packet, Session, decode};
use std::alloc::Global;
use std::fmt;
use std::fmt::{Debug, Formatter};
use std::marker::Model;

// The sequence number of the first end packet, with this packet included.
fn known_end(packet: &Packet<'_>, ended: Option<u64>) -> Option<u64>
    ensures { result ≡ option_or ended (end_in packet.now.body packet.now.sequence) }
{
    match packet.body {
        Body::End => ended.or(Some(packet.sequence)),
        Body::Data(_) | Body::Heartbeat => ended,
    }
}

// Adds the messages of a packet to those of the earlier packets.
fn join_messages(carried: &mut Carried, packet: &Packet<'_>) -> Result<(), Refusal>
    requires { top_of packet.now < 2 ^ 64 }
    ensures refused { IfErr result (λ reason.
        conflict_at (conflict carried.old packet.now.sequence (messages_of packet.now.body)) ≡ told reason) }
    ensures taken { OnOk result (conflict carried.old packet.now.sequence (messages_of packet.now.body) ≡ None) }
    ensures ok { OnOk result (carried.new ≡ pairs_with carried.old packet.now.sequence (messages_of packet.now.body)) }
    ensures err { OnErr result (carried.new ≡ carried.old) }
    ensures new { IfErr result (λ reason. reason ≡ IsMemory →
        BringNew carried.old packet.now.sequence (messages_of packet.now.body)) }
{
    match &packet.body {
        Body::Data(blocks) => carried.join(packet.sequence, blocks),
        Body::Heartbeat | Body::End => Ok(()),
    }
}

/// A checker of datagrams. It keeps what the accepted datagrams state: the session, the largest top of a
/// packet, the end, and the messages. The datagrams may come in any order. Each message is stored once. A
/// datagram without a new message allocates nothing.
#[derive(Drop)]
pub struct Checker {
    session: Option<Session>,
    known: u64,
    ended: Option<u64>,
    carried: Carried,
    alloc: Global,
}

impl Debug for Checker {
    fn fmt<W: fmt::Write>(&self, f: &mut Formatter<W>) -> fmt::Result {
        f.debug_struct("Checker").finish_non_exhaustive()
    }
}

impl Model for Checker {
    ghost use Rattle.std.specs.Option.{option_map};
    ghost use Rattle.mold_capture.specs.Seen.{Seen, IsSound, seen_code, seen_by};

    ghost Value = { Seen };

    ghost coded = { seen_code };

    ghost view = { λ c. seen_by c.session c.known c.ended c.carried };

    ghost invariant = { λ c. IsSound (seen_by c.session c.known c.ended c.carried) };
}

impl Checker {
    /// Returns a checker that has accepted no datagram. This allocates nothing.
    pub fn new(alloc: Global) -> Checker
        ensures { result ≡ seen_of [] }
    {
        Checker {
            session: None,
            known: 1,
            ended: None,
            carried: Carried::new(alloc),
            alloc,
        }
    }

    /// Accepts a datagram, or refuses it for the first reason that applies. After an error the checker is unchanged.
    /// The session is that of the first accepted datagram, and `known` is the largest top of an accepted packet, at
    /// least 1.
    ///
    /// A message is compared with the accepted message of the same number, from whichever datagram it came. `Memory` is
    /// returned only if no other reason applies and a message is new.
    pub fn add(&mut self, bytes: &[u8]) -> Result<(), Refusal>
        ensures refused { IfErr result (λ reason. refusal self.old bytes.now ≡ told reason) }
        ensures taken { OnOk result (refusal self.old bytes.now ≡ None) }
        ensures spelled { OnOk result ((packet : Packet) × Spells packet bytes.now) }
        ensures ok { OnOk result (self.new ≡ after self.old bytes.now) }
        ensures err { OnErr result (self.new ≡ self.old) }
        ensures new { IfErr result (λ reason. reason ≡ IsMemory → BringsNew self.old bytes.now) }
    {
        refusal_law();
        let packet = match decode(bytes) {
            Ok(packet) => packet,
            Err(error) => return Err(Refusal::Malformed(error)),
        };
        let top = check_header(&packet, self.session, self.known, self.ended)?;
        let ended = known_end(&packet, self.ended);
        join_messages(&mut self.carried, &packet)?;
        self.session = self.session.or(Some(packet.session));
        self.known = self.known.max(top);
        self.ended = ended;
        Ok(())
    }

    /// Returns the session of the accepted datagrams, or `None` if no datagram was accepted.
    pub fn session(&self) -> Option<Session>
        ensures { option_map (λ s. s.0) result ≡ self.now.session }
    {
        self.session
    }

    /// Returns the sequence number of the end packet, which is one more than the number of messages in the session, or
    /// `None` if no end packet was accepted.
    pub fn end(&self) -> Option<u64>
        ensures { result ≡ self.now.ended }
    {
        self.ended
    }

    /// Returns the largest top of an accepted packet, at least 1. All numbers of carried messages are below it.
    pub fn known(&self) -> u64
        ensures { result ≡ self.now.known }
    {
        self.known
    }

    /// Returns the first carried message whose number is `number` or larger, and messages that follow it with
    /// consecutive numbers. They are not always all of these: `run_from(first + count)` continues. It returns `None` if
    /// no message is carried from `number` on. The messages are borrowed, and one or two runs are looked up.
    pub fn run_from(&self, number: u64) -> Option<CarriedRun<'_>>
        ensures none { IfNone result ((k : ℕ) → number ≤ k → finite.get self.now.pairs k ≡ None) }
        ensures first { IfSome result (λ run. number ≤ run.first) }
        ensures some { IfSome result (λ run. 0 < length run.messages) }
        ensures last { IfSome result (λ run. run.first + length run.messages < 2 ^ 64) }
        ensures before { IfSome result (λ run. (k : ℕ) → number ≤ k → k < run.first →
            finite.get self.now.pairs k ≡ None) }
        ensures carried { IfSome result (λ run. (i : ℕ) → i < length run.messages →
            finite.get self.now.pairs (run.first + i) ≡ slice_get run.messages i) }
    {
        self.carried.run_from(number)
    }

    /// Returns whether the accepted datagrams are a whole session, and what is missing if they aren't. Its cost
    /// depends on the stored messages, not on the numbers between them. It returns an error if the allocation for the
    /// ranges fails.
    pub fn verdict(&self) -> Result<Verdict, Memory>
        ensures { IfOk result (λ verdict. IsVerdict verdict self.now) }
    {
        let missing = match self.carried.missing(self.alloc, self.known) {
            Ok(missing) => missing,
            Err(_) => return Err(Memory),
        };
        match self.ended {
            None => Ok(Verdict::Incomplete { missing, end: None }),
            Some(end) if missing.is_empty() => Ok(Verdict::Whole { messages: end - 1 }),
            Some(end) => Ok(Verdict::Incomplete {
                missing,
                end: Some(end),
            }),
        }
    }
}
