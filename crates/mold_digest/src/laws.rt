//! Theorems about digested datagrams and their check. Each law is a function with an empty body whose contract is the
//! theorem.

ghost use Rattle.std.specs.Prelude.{◌≡◌, ◌↔◌, ◌⊎◌, Ok, Err, None, Some, List, ℕ, length};
ghost use Rattle.std.specs.List.{All};
ghost use Rattle.mold_wire.specs.Block.{IsBytes};
ghost use Rattle.mold_wire.specs.Packet.{Spells};
ghost use Rattle.mold_wire.specs.Reading.{reading};
ghost use Rattle.mold_wire.specs.declared.error.DecodeError.{DecodeError};
ghost use Rattle.mold_wire.specs.declared.packet.Packet.{Packet};
ghost use Rattle.mold_rule.specs.declared.refusal.Refusal.{Refusal};
ghost use Rattle.mold_rule.specs.declared.refusal.Refusal.TheVariants.{Conflict};
ghost use Rattle.mold_capture.specs.Consistent.{Consistent, Whole};
ghost use Rattle.mold_capture.specs.Outcome.{Outcome, IsOutcome, refused};
ghost use Rattle.mold_capture.specs.Refusal.{reason};
ghost use Rattle.mold_digest.specs.Conflicts.{IsNoConflict, IsWithoutConflict};
ghost use Rattle.mold_digest.specs.Digested.{digested, digested_list, digested_packet, digests};
ghost use Rattle.mold_digest.specs.Key.{digest};

use mold_capture::laws::{outcome_law, reason_law, whole_is_one_law};
use mold_rule::laws::ranges_walk_law;
use mold_wire::laws::reading_law;

/// A digested datagram is decoded as the packet with each message replaced by its digest. Bytes that do not encode a
/// packet keep their fault. A digest has 16 bytes.
pub fn digested_law()
    ensures length { (key message : List ℕ) → length (digest key message) ≡ 16 }
    ensures spelled { (key bytes : List ℕ) (packet : Packet) → Spells packet bytes →
        Spells (digested_packet key packet) (digested key bytes) }
    ensures read { (key bytes : List ℕ) (packet : Packet) → IsBytes bytes → reading bytes ≡ Ok packet →
        reading (digested key bytes) ≡ Ok (digested_packet key packet) }
    ensures fault { (key bytes : List ℕ) (error : DecodeError) → reading bytes ≡ Err error →
        digested key bytes ≡ bytes }
{
    reading_law();
}

/// A digested datagram after digested ones is refused for the reason for which the datagram is refused. The exception is
/// `Conflict`: two messages may have the same digest. If the digested datagram is refused for it, so is the datagram.
pub fn digested_reason_law()
    ensures other { (key bytes : List ℕ) (list : List (List ℕ)) (why : Refusal) →
        All IsBytes list → IsBytes bytes → IsNoConflict why → (reason list bytes ≡ Some why)
        ↔ (reason (digested_list key list) (digested key bytes) ≡ Some why) }
    ensures none { (key bytes : List ℕ) (list : List (List ℕ)) → All IsBytes list → IsBytes bytes →
        reason list bytes ≡ None → reason (digested_list key list) (digested key bytes) ≡ None }
    ensures conflict { (key bytes : List ℕ) (list : List (List ℕ)) (number : ℕ) →
        All IsBytes list → IsBytes bytes →
        reason (digested_list key list) (digested key bytes) ≡ Some (Conflict number) →
        (least : ℕ) × (reason list bytes ≡ Some (Conflict least)) }
{
    reading_law();
}

/// The outcome of a check of digested datagrams is that of the datagrams, unless these are refused for a conflict. If
/// the datagrams are consistent or whole, so are the digested ones.
pub fn digested_outcome_law()
    ensures consistent { (key : List ℕ) (list : List (List ℕ)) →
        Consistent list → Consistent (digested_list key list) }
    ensures whole { (key : List ℕ) (list messages : List (List ℕ)) →
        Whole list messages → Whole (digested_list key list) (digests key messages) }
    ensures outcome { (key : List ℕ) (list : List (List ℕ)) (outcome : Outcome) → All IsBytes list →
        IsWithoutConflict outcome → IsOutcome list outcome → IsOutcome (digested_list key list) outcome }
    ensures found { (key : List ℕ) (list : List (List ℕ)) (outcome : Outcome) → All IsBytes list →
        IsOutcome (digested_list key list) outcome → IsOutcome list outcome
        ⊎ ((index number : ℕ) × IsOutcome list (refused index (Conflict number))) }
{
    reading_law();
    reason_law();
    whole_is_one_law();
    outcome_law();
    ranges_walk_law();
}
