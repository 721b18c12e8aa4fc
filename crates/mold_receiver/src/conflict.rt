//! The comparison of a packet's messages with the stored ones.

ghost use Rattle.std.specs.Prelude.{◌≡◌, ◌+◌, ◌<◌, ◌^◌, ◌&&◌, length, nat_le};
ghost use Rattle.std.specs.FinMap as finite;
ghost use Rattle.mold_wire.specs.Packet.{messages_of, top_of};
ghost use Rattle.mold_receiver.specs.Slots.{store_of};
ghost use Rattle.mold_receiver.specs.Store.{differs, first_conflict, from_next};

use crate::slots::Slots;
use mold_wire::{Blocks, Body, Packet};

// Returns whether a different message is stored with this number.
fn is_conflict(slots: &Slots, next: u64, number: u64, message: &[u8]) -> bool
    ensures { result ≡ (nat_le next number && differs (finite.get (store_of next slots.now) number) message.now) }
{
    if number < next {
        return false;
    }
    match slots.get((number - next) as usize) {
        Some(stored) => stored != message,
        None => false,
    }
}

// Returns the least number of the packet with which a different message is stored.
fn find_conflict(slots: &Slots, next: u64, first: u64, blocks: &Blocks<'_>) -> Option<u64>
    requires { first + length blocks.now < 2 ^ 64 }
    ensures { result ≡ first_conflict (store_of next slots.now) (from_next next first blocks.now) }
{
    let mut number = first;
    for message in blocks.iter() {
        if is_conflict(slots, next, number, message) {
            return Some(number);
        }
        number += 1;
    }
    None
}

/// Returns the least number from `next` on at which the packet and the store have different messages. If no number of
/// the packet is stored, or the packet is wholly below `next`, it doesn't look at the messages.
// This runs for each datagram. `receiver.rt` says why it is `inline(always)`.
#[inline(always)]
pub(crate) fn conflict_of(slots: &Slots, next: u64, packet: &Packet<'_>, top: u64) -> Option<u64>
    requires { top_of packet.now ≡ top }
    ensures { result ≡ first_conflict (store_of next slots.now)
        (from_next next packet.now.sequence (messages_of packet.now.body)) }
{
    let Body::Data(blocks) = &packet.body else {
        return None;
    };
    if top <= next {
        return None;
    }
    if slots.held() == 0 {
        return None;
    }
    let first = packet.sequence.max(next) - next;
    if slots.is_clear(first as usize, (top - next) as usize) {
        return None;
    }
    find_conflict(slots, next, packet.sequence, blocks)
}
