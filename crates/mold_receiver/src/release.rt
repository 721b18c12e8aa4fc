//! Release: the messages that leave the store.

ghost use Rattle.std.specs.Prelude.{◌≡◌, ℕ, ◌≤◌, ◌<◌, ◌^◌, ◌++◌, length, take, drop, replicate, None};
ghost use Rattle.mold_receiver.specs.Places.{count_in};
ghost use Rattle.mold_receiver.specs.Segments.{AreLost, AreSegments, live_at};
ghost use Rattle.mold_receiver.specs.Shelf.{slots_in};
ghost use Rattle.mold_receiver.specs.Slots.{count_held};

use crate::ring::Ring;
use crate::segments::Segments;

/// Drops the first `count` slots and appends as many empty ones. The messages in the dropped slots are subtracted from
/// the counts of their segments, and those that follow each other in one segment are subtracted together. Returns how
/// many messages they are.
pub(crate) fn release(segments: &mut Segments, ring: &mut Ring, count: usize) -> u32
    requires whole { AreSegments segments.old }
    requires counted { (key : ℕ) → count_in key ring.old ≤ live_at segments.old key }
    requires few { length ring.old < 2 ^ 32 }
    requires within { count ≤ length ring.old }
    ensures whole { AreSegments segments.new }
    ensures lost { AreLost segments.old segments.new (take count ring.old) }
    ensures count { result ≡ count_held (slots_in segments.old (take count ring.old)) }
    ensures moved { ring.new ≡ drop count ring.old ++ replicate count None }
{
    let mut key = 0;
    let mut pending = 0;
    let mut held = 0;
    for _slot in 0..count {
        if let Some(place) = ring.pop() {
            if place.segment != key {
                segments.let_go(key, pending);
                key = place.segment;
                pending = 0;
            }
            pending += 1;
            held += 1;
        }
    }
    segments.let_go(key, pending);
    held
}
