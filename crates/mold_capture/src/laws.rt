//! Laws about all lists of datagrams: theorems about the definitions alone. Each law is a function that does
//! nothing, and its contract is the theorem.

ghost use Rattle.std.specs.Prelude.{◌≡◌, ◌↔◌, ◌+◌, ◌++◌, ◌∷◌, [], None, List, ℕ, length};
ghost use Rattle.std.specs.List.{All};
ghost use Rattle.mold_wire.specs.Block.{IsBytes};
ghost use Rattle.mold_wire.specs.Packet.{Spells};
ghost use Rattle.mold_wire.specs.declared.packet.Packet.{Packet};
ghost use Rattle.mold_capture.specs.Consistent.{Consistent, Whole};
ghost use Rattle.mold_capture.specs.Outcome.{Outcome, IsOutcome};
ghost use Rattle.mold_capture.specs.Refusal.{reason};
ghost use Rattle.mold_capture.specs.Seen.{after, seen_of};
ghost use Rattle.mold_capture.specs.Verdict.{IsWholeSeen};

use mold_rule::laws::refusal_law;
use mold_wire::laws::reading_law;

/// `reason` refuses exactly the datagrams that would make a consistent list inconsistent. The empty list is
/// consistent, and so is each prefix of a consistent list.
pub fn reason_law()
    ensures none { Consistent [] }
    ensures front { (list more : List (List ℕ)) → Consistent (list ++ more) → Consistent list }
    ensures accepted { (list : List (List ℕ)) (bytes : List ℕ) → Consistent list → IsBytes bytes →
        reason list bytes ≡ None → Consistent (list ++ bytes ∷ []) }
    ensures refused { (list : List (List ℕ)) (bytes : List ℕ) →
        Consistent (list ++ bytes ∷ []) → reason list bytes ≡ None }
{
    reading_law();
    refusal_law();
}

/// What a list of datagrams states can be computed one datagram at a time.
pub fn after_law()
    ensures { (list : List (List ℕ)) (bytes : List ℕ) →
        Consistent (list ++ bytes ∷ []) → seen_of (list ++ bytes ∷ []) ≡ after (seen_of list) bytes }
{
    reading_law();
}

/// At most one list of messages makes datagrams whole. They are whole exactly when they are consistent, have an
/// end packet, and carry each number below the end.
pub fn whole_is_one_law()
    ensures one { (list one other : List (List ℕ)) → Whole list one → Whole list other → one ≡ other }
    ensures received { (list messages : List (List ℕ)) →
        Whole list messages → IsWholeSeen (seen_of list) (length messages + 1) }
    ensures whole { (list : List (List ℕ)) (count : ℕ) → Consistent list →
        IsWholeSeen (seen_of list) (count + 1) →
        (messages : List (List ℕ)) × (Whole list messages × (length messages ≡ count)) }
{
    reading_law();
}

/// Every list of datagrams has exactly one outcome.
pub fn outcome_law()
    ensures some { (list : List (List ℕ)) → All IsBytes list → (outcome : Outcome) × IsOutcome list outcome }
    ensures one { (list : List (List ℕ)) (one other : Outcome) →
        IsOutcome list one → IsOutcome list other → one ≡ other }
{
    reading_law();
    refusal_law();
}
