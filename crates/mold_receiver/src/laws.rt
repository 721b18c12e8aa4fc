//! Laws of the receiver's definitions, for all views and all datagrams. Each law is a function with an empty body
//! whose contract is the law.

ghost use Rattle.std.specs.Prelude.{◌≡◌, ◌⊎◌, ◌+◌, ◌-◌, ◌<◌, ◌≤◌, ◌^◌, ◌++◌, ◌∷◌, [], max, min, length, Bool, true};
ghost use Rattle.std.specs.Prelude.{false, List, ℕ, Option, None, Some, Ok, Err, is_some, slice_get};
ghost use Rattle.std.specs.FinMap as finite;
ghost use Rattle.std.specs.List.{sum_by};
ghost use Rattle.mold_wire.specs.Packet.{Spells, messages_of, top_of};
ghost use Rattle.mold_wire.specs.declared.limits.TheConstants.{MAX_COUNT, MAX_NUMBER};
ghost use Rattle.mold_wire.specs.declared.packet.Packet.{Packet};
ghost use Rattle.mold_wire.specs.declared.request.Request.{Request};
ghost use Rattle.mold_wire.specs.declared.session.Session.{Session};
ghost use Rattle.mold_rule.specs.Ranges.{lacking, size};
ghost use Rattle.mold_rule.specs.declared.refusal.Refusal.TheVariants.{Memory};
ghost use Rattle.mold_receiver.specs.Batch.{Handed, Follows, followed_by};
ghost use Rattle.mold_wire.specs.Truth.{Carries, IsTruePacket};
ghost use Rattle.mold_receiver.specs.Having.{HasAllOf, HasMessage};
ghost use Rattle.mold_receiver.specs.Honest.{IsHonest, IsSkippedHonestly, IsTakenHonestly};
ghost use Rattle.mold_receiver.specs.Receive.{HasRoomFor, IsTakenPacket, Reception, data_packet, ended_after};
ghost use Rattle.mold_receiver.specs.Receive.{handed_on};
ghost use Rattle.mold_receiver.specs.Receive.{is_dropped, receive, view_after};
ghost use Rattle.mold_receiver.specs.Skip.{skipped};
ghost use Rattle.mold_receiver.specs.Store.{Message, available};
ghost use Rattle.mold_receiver.specs.View.{View, IsRoom, IsWellFormed, fresh, fresh_within};
ghost use Rattle.mold_receiver.specs.declared.limits.TheConstants.{MIN_STORE};
ghost use Rattle.mold_receiver.specs.Wanted.{IsGap, gap_end, gaps, lacks, missing, wanted};
ghost use Rattle.mold_receiver.specs.Gap.{IsTakenInGap};

use mold_rule::laws::{cause_law, lacking_law, ranges_size_law, refusal_law};
use mold_wire::laws::{reading_law, true_packet_law};

/// States what is delivered, number by number. The packet's messages from the old `next` on and the stored messages are
/// available. The new `next` is the least number from the old one on that is not available. The delivered messages
/// are the available ones in between, in order.
#[tactic(auto, using(crate::proofs::LawLemmas::next_lacks, crate::proofs::LawLemmas::handed_reads))]
pub fn least_missing_law()
    ensures lacks { (v : View) (p : Packet) → IsWellFormed v →
        finite.get (available v.store v.next p.sequence (messages_of p.body)) (view_after v p).next ≡ None }
    ensures each { (v : View) (p : Packet) (i : ℕ) (m : Message) →
        slice_get (handed_on v p.sequence (messages_of p.body)) i ≡ Some m →
        finite.get (available v.store v.next p.sequence (messages_of p.body)) (v.next + i) ≡ Some m }
{}

/// A receiver invents nothing. Each message that it delivers or stores was already stored with the same number, or the
/// packet carries it with the same number. When messages are given up, no other message enters the store.
pub fn nothing_new_law()
    ensures handed { (v : View) (p : Packet) (i : ℕ) (m : Message) →
        slice_get (handed_on v p.sequence (messages_of p.body)) i ≡ Some m →
        (finite.get v.store (v.next + i) ≡ Some m) ⊎ Carries p (v.next + i) m }
    ensures stored { (v : View) (p : Packet) (number : ℕ) (m : Message) →
        finite.get (view_after v p).store number ≡ Some m →
        (finite.get v.store number ≡ Some m) ⊎ Carries p number m }
    ensures skipped { (v : View) (to number : ℕ) (m : Message) →
        finite.get (skipped v to).store number ≡ Some m → finite.get v.store number ≡ Some m }
{}

/// A well-formed view stays well formed when it accepts a datagram, and when messages are given up.
pub fn well_formed_law()
    ensures received { (v : View) (bytes : List ℕ) (r : Reception) →
        IsWellFormed v → receive v bytes ≡ Ok r → IsWellFormed r.view }
    ensures skipped { (v : View) (to : ℕ) →
        IsWellFormed v → v.next ≤ to → to ≤ v.known → IsWellFormed (skipped v to) }
{}

/// A message that came is never missing again. After a packet is accepted for which the store has room, the view has
/// each of its messages whose number is in the window. What a view has, it has after each later packet, and after
/// messages are given up.
pub fn having_law()
    ensures came { (v : View) (p : Packet) (number : ℕ) → IsWellFormed v → p.sequence ≤ number → number < top_of p →
        number < (view_after v p).next + v.window → HasRoomFor v p → HasMessage (view_after v p) number }
    ensures received { (v : View) (p : Packet) → IsWellFormed v → HasAllOf v (view_after v p) }
    ensures skipped { (v : View) (to : ℕ) → IsWellFormed v → v.next ≤ to → to ≤ v.known → HasAllOf v (skipped v to) }
{}

/// An honest view accepts every datagram that encodes a true packet of its session, and stays honest. Each message
/// that it delivers is the one that was published with its number.
pub fn honest_take_law()
    ensures { (v : View) (packet : Packet) (bytes : List ℕ) (published : List Message) (closed : Bool) →
        IsHonest v published closed → Spells packet bytes → packet.session ≡ v.session →
        IsTruePacket packet published closed → IsTakenHonestly v bytes published closed }
{
    reading_law();
    true_packet_law();
    refusal_law();
}

/// Which packets the store has room for. A packet that doesn't begin above `next` needs none, so the gap at `next`
/// can be filled whatever is stored. An empty store has room for each datagram of at most `MIN_STORE` bytes, and a
/// store without a limit for each packet. After a packet for which there is no room, the view knows of its messages,
/// and that is all that changed.
pub fn room_law()
    ensures next { (v : View) (p : Packet) → p.sequence ≤ v.next → HasRoomFor v p }
    ensures empty { (v : View) (p : Packet) (bytes : List ℕ) → IsWellFormed v → v.store ≡ finite.empty →
        Spells p bytes → length bytes ≤ MIN_STORE → HasRoomFor v p }
    ensures whole { (v : View) (p : Packet) → v.room ≡ None → HasRoomFor v p }
    ensures dropped { (v : View) (p : Packet) → IsWellFormed v → is_dropped v p ≡ true →
        view_after v p ≡ record v {
          known = max v.known (top_of p);
          ended = ended_after p.body p.sequence v.ended;
        } }
{}

/// A view stays honest when a message is published and when the session is closed. The view of a new receiver is
/// honest if it starts at a published message or at the next one, whatever the room of its store.
pub fn honest_stays_law()
    ensures published { (v : View) (published : List Message) (message : Message) →
        IsHonest v published false → IsHonest v (published ++ message ∷ []) false }
    ensures closed { (v : View) (published : List Message) →
        IsHonest v published false → IsHonest v published true }
    ensures fresh { (session : Session) (next window : ℕ) (published : List Message) (closed : Bool) →
        1 ≤ next → next ≤ length published + 1 → length published < MAX_NUMBER →
        IsHonest (fresh session next window) published closed }
    ensures within { (room : Option ℕ) (session : Session) (next window : ℕ) (published : List Message)
        (closed : Bool) → IsRoom room → 1 ≤ next → next ≤ length published + 1 → length published < MAX_NUMBER →
        IsHonest (fresh_within room session next window) published closed }
{}

/// A view stays honest when the messages below `to` are given up. Each message that it then delivers is the one that
/// was published with its number.
pub fn honest_skip_law()
    ensures { (v : View) (to : ℕ) (published : List Message) (closed : Bool) →
        IsHonest v published closed → v.next ≤ to → to ≤ v.known → IsSkippedHonestly v to published closed }
{}

/// A datagram that is accepted encodes a packet of the view's session to which no refusal applies. The result is the
/// one that the receiving rule states.
pub fn taken_law()
    ensures { (v : View) (bytes : List ℕ) (r : Reception) →
        receive v bytes ≡ Ok r → IsTakenPacket v bytes r }
{}

/// The receiving rule never refuses with `Memory`. Only an implementation can run out of memory.
pub fn no_memory_law()
    ensures { (v : View) (bytes : List ℕ) → receive v bytes ≡ Err Memory → ⊥ }
{
    cause_law();
}

/// If an accepted packet doesn't begin above `next`, the new `next` is at least the packet's top.
pub fn through_law()
    ensures { (v : View) (p : Packet) →
        IsWellFormed v → p.sequence ≤ v.next → top_of p ≤ (view_after v p).next }
{}

/// The wanted request starts at `next` and asks for the gap there, up to `MAX_COUNT` messages. If nothing is wanted,
/// no message below `known` is missing.
pub fn wanted_law()
    ensures asks { (v : View) (r : Request) → wanted v ≡ Some r →
        (r.session ≡ v.session) × (r.sequence ≡ v.next) × (r.count ≡ min MAX_COUNT (gap_end v - v.next)) }
    ensures gap { (v : View) (r : Request) → IsWellFormed v → wanted v ≡ Some r → IsGap v (gap_end v) }
    ensures none { (v : View) → wanted v ≡ None → v.next ≡ v.known }
{}

/// The number of missing messages is the number of messages from `next` to just below `known` that the store lacks.
/// It is also the sum of the sizes of the gaps.
pub fn missing_law()
    ensures lacking { (v : View) → IsWellFormed v →
        missing v ≡ lacking (lacks v.store) v.next (v.known - v.next) }
    ensures gaps { (v : View) → IsWellFormed v → missing v ≡ sum_by size (gaps v) }
{
    lacking_law();
    ranges_size_law();
}

/// A data packet that begins at `next` and doesn't go past the gap there is accepted. The number of missing messages
/// falls by the number of its messages. The same holds for a packet that responds to the wanted request.
pub fn round_law()
    ensures gap { (v : View) (end : ℕ) (messages : List Message) (bytes : List ℕ) →
        IsWellFormed v → IsGap v end → v.next + length messages ≤ end →
        Spells (data_packet v.session v.next messages) bytes → IsTakenInGap v messages bytes }
    ensures wanted { (v : View) (r : Request) (messages : List Message) (bytes : List ℕ) →
        IsWellFormed v → wanted v ≡ Some r → length messages ≤ r.count →
        Spells (data_packet v.session v.next messages) bytes → IsTakenInGap v messages bytes }
{
    reading_law();
    lacking_law();
    refusal_law();
}

/// After messages are appended to a batch, the message with the number after theirs may follow. Appending messages in
/// two parts is the same as appending them at once.
#[tactic(auto, using(crate::proofs::BatchLemmas::follows_after, crate::proofs::BatchLemmas::followed_twice))]
pub fn followed_law()
    ensures follows { (batch : Handed) (next : ℕ) (messages : List Message) →
        Follows batch next → Follows (followed_by batch next messages) (next + length messages) }
    ensures twice { (batch : Handed) (next : ℕ) (messages : List Message) (after : ℕ) (others : List Message) →
        next + length messages ≡ after →
        followed_by (followed_by batch next messages) after others ≡ followed_by batch next (messages ++ others) }
{}
