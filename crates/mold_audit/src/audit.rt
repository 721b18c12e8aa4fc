//! The digests of the messages that were delivered last.

ghost use Rattle.std.specs.Prelude.{◌≡◌, ◌+◌, ◌<◌, ◌≤◌, ◌^◌, ◌==◌, ◌∷◌, [], length, drop, replicate, IfOk};
ghost use Rattle.std.specs.Prelude.{IsTrue, MatchOption, ◌↔◌};
ghost use Rattle.mold_audit.specs.Kept.{AgreesWith, AreEmptied, HasNoted, IsContradiction, differs, kept};
ghost use Rattle.mold_audit.specs.Kept.{size_of};

use crate::digest::digest_of;
use mold_receiver::Batch;
use mold_wire::Blocks;
use std::alloc::{AllocError, Global};

/// The greatest number of messages whose digests an audit keeps.
pub const MAX_AUDIT: u32 = 1_048_576;

// The value of a slot that has no digest. No digest is 0.
const EMPTY: u64 = 0;

/// The digests of the messages that were delivered last: of those among the last numbers, as many as its size. It takes
/// 8 bytes for each of them. A number that was given up has no digest, but counts.
#[derive(Drop)]
pub struct Audit {
    // A digest or `EMPTY` for each of the last numbers, at the number's remainder by the length.
    slots: Vec<u64>,
    // One more than the greatest number noted, or 0.
    next: u64,
}

// Empties the slots of the numbers from `from` to just below `to`.
fn empty_slots(slots: &mut [u64], from: u64, to: u64)
    requires { 0 < length slots.old }
    ensures { AreEmptied slots.old slots.new from to to }
{
    let size = slots.len() as u64;
    // After a long gap, one pass empties them.
    if to.saturating_sub(from) >= size {
        slots.fill(EMPTY);
        return;
    }
    for number in from..to {
        slots[(number % size) as usize] = EMPTY;
    }
}

impl Audit {
    /// Returns an audit that keeps this many digests, before a message was delivered. It takes its whole memory here,
    /// 8 bytes for each digest. With a size of 0 it keeps nothing and takes no memory.
    pub fn new(alloc: Global, size: u32) -> Result<Audit, AllocError>
        requires { size ≤ MAX_AUDIT }
        ensures slots { IfOk result (λ audit. audit.slots.items ≡ replicate size EMPTY) }
        ensures next { IfOk result (λ audit. audit.next ≡ 0) }
    {
        Ok(Audit {
            slots: vec![in alloc; EMPTY; size as usize]?,
            next: 0,
        })
    }

    /// Returns whether the audit keeps nothing.
    #[inline(always)]
    pub fn is_off(&self) -> bool
        ensures { result ≡ (size_of self.now == 0) }
    {
        self.slots.is_empty()
    }

    /// Returns one more than the greatest number noted, or 0.
    pub fn next(&self) -> u64
        ensures { result ≡ self.now.next }
    {
        self.next
    }

    // Returns the digest that is kept of the message with this number, if there is one.
    fn kept(&self, number: u64) -> Option<u64>
        ensures { result ≡ kept self.now number }
    {
        let size = self.slots.len() as u64;
        if number >= self.next || self.next - number > size {
            return None;
        }
        let slot = self.slots[(number % size) as usize];
        if slot == EMPTY { None } else { Some(slot) }
    }

    /// Notes that the message with this number was delivered. Numbers are noted in ascending order. Those that are left
    /// out were not delivered.
    pub fn note(&mut self, number: u64, message: &[u8])
        requires ascending { self.old.next ≤ number }
        requires few { number + 1 < 2 ^ 64 }
        ensures { HasNoted self.old self.new number (message.now ∷ []) }
    {
        let size = self.slots.len() as u64;
        if size == 0 {
            return;
        }
        let from = self.next.max(number.saturating_sub(size));
        empty_slots(&mut self.slots, from, number);
        self.slots[(number % size) as usize] = digest_of(message);
        self.next = number + 1;
    }

    /// Notes that the messages of a batch from this index on were delivered, the first of them with the number `first`.
    /// The other conditions are those of `note`.
    pub fn note_from(&mut self, first: u64, batch: &Batch, from: usize)
        requires ascending { self.old.next ≤ first }
        requires few { first + length (drop from batch.now.messages) < 2 ^ 64 }
        ensures { HasNoted self.old self.new first (drop from batch.now.messages) }
    {
        if self.is_off() {
            return;
        }
        let mut number = first;
        for index in from..batch.len() {
            if let Some(message) = batch.get(index) {
                self.note(number, message);
                number += 1;
            }
        }
    }

    // Returns whether another digest is kept of the message with this number.
    fn differs(&self, number: u64, message: &[u8]) -> bool
        ensures { result ≡ differs (kept self.now number) message.now }
    {
        match self.kept(number) {
            Some(delivered) => delivered != digest_of(message),
            None => false,
        }
    }

    /// Returns the least number of a packet that was delivered with another digest, if it is among those that are kept.
    /// The first of the messages has the number `first`. The cost grows with the number of bytes that are kept.
    pub fn check(&self, first: u64, blocks: &Blocks<'_>) -> Option<u64>
        ensures { MatchOption result (AgreesWith self.now first blocks.now)
            (IsContradiction self.now first blocks.now) }
    {
        let mut number = first;
        for message in blocks.iter() {
            if number >= self.next {
                return None;
            }
            if self.differs(number, message) {
                return Some(number);
            }
            number += 1;
        }
        None
    }
}
