//! Laws on the number of requests. Each law is a function with an empty body whose contract is the law.

ghost use Rattle.std.specs.Prelude.{◌≡◌, ◌+◌, ◌<◌, ◌≤◌, [], ◌∷◌, List, ℕ, suc, length, take, drop};
ghost use Rattle.mold_receiver.specs.Store.{Message};
ghost use Rattle.mold_receiver.specs.View.{View, IsWellFormed};
ghost use Rattle.mold_receiver.specs.Wanted.{missing};
ghost use Rattle.mold_rounds.specs.Examples.{five, received, twenty};
ghost use Rattle.mold_rounds.specs.Rounds.{asks, brought, carried, nameless, rounds};
ghost use Rattle.mold_session.specs.Datagrams.{packing};
ghost use Rattle.mold_wire.specs.Packing.{front};
ghost use Rattle.mold_wire.specs.declared.header.TheConstants.{HEADER_LENGTH};
ghost use Rattle.mold_wire.specs.declared.limits.TheConstants.{MAX_COUNT};
ghost use Rattle.mold_wire.specs.declared.session.Session.{Session};

use mold_receiver::laws::missing_law;
use mold_session::laws::{first_part_law, packing_law};
use mold_wire::laws::front_law;

/// The number of requests that bring missing messages is at most the number of these messages. It is 0 if there is no
/// message, or if the first one fits no datagram. Otherwise the first request brings at least one message, and the rest
/// are counted in the same way. The number of messages in the responses depends neither on the session nor on the
/// sequence numbers.
pub fn asks_law()
    ensures none { (limit burst : ℕ) (messages : List Message) →
        length (front limit messages MAX_COUNT) ≡ 0 → asks limit burst messages ≡ 0 }
    ensures more { (limit burst : ℕ) (messages : List Message) → HEADER_LENGTH ≤ limit → 1 ≤ burst →
        0 < length (front limit messages MAX_COUNT) →
        asks limit burst messages ≡ suc (asks limit burst (drop (brought limit burst messages) messages)) }
    ensures some { (limit burst : ℕ) (messages : List Message) → HEADER_LENGTH ≤ limit → 1 ≤ burst →
        0 < length (front limit messages MAX_COUNT) → 0 < brought limit burst messages }
    ensures few { (limit burst : ℕ) (messages : List Message) → asks limit burst messages ≤ length messages }
    ensures any { (limit burst sequence : ℕ) (session : Session) (messages : List Message) →
        carried (take burst (packing limit session sequence messages))
        ≡ carried (take burst (packing limit nameless 1 messages)) }
{
    front_law();
    first_part_law();
    packing_law();
}

/// The number of requests that a receiver needs is at most the number of messages that it misses.
pub fn rounds_law()
    ensures few { (v : View) (published : List Message) (limit burst : ℕ) → IsWellFormed v →
        rounds v published limit burst ≤ missing v }
{
    missing_law();
}

/// Computes the rounds of the worked example, in which a datagram has room for two messages. In the first case
/// message 3 is stored, so there are two gaps. In the next three cases nothing is stored, and the burst is 1, 2 and 3
/// responses. In the last case messages 2 and 4 are stored, so there are three gaps of one message.
pub fn example_law()
    ensures two_gaps { rounds (received 8 ((3, twenty 3) ∷ [])) five 64 1 ≡ 2 }
    ensures one_gap { rounds (received 1 []) five 64 1 ≡ 3 }
    ensures bursts_of_two { rounds (received 1 []) five 64 2 ≡ 2 }
    ensures bursts_of_three { rounds (received 1 []) five 64 3 ≡ 1 }
    ensures three_gaps { rounds (received 8 ((2, twenty 2) ∷ (4, twenty 4) ∷ [])) five 64 1 ≡ 3 }
    ensures missing { (missing (received 8 ((3, twenty 3) ∷ [])) ≡ 4) × (missing (received 1 []) ≡ 5)
        × (missing (received 8 ((2, twenty 2) ∷ (4, twenty 4) ∷ [])) ≡ 3) }
{}
