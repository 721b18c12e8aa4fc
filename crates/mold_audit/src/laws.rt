//! Theorems about all audits. Each law is a function with an empty body whose contract is the theorem.

ghost use Rattle.std.specs.Prelude.{◌≡◌, ◌+◌, ◌≤◌, ℕ, List, [], length};
ghost use Rattle.mold_audit.specs.Kept.{AgreesWith, HasNoted, size_of};
ghost use Rattle.mold_audit.specs.declared.audit.Audit.{Audit};

/// An audit that keeps nothing stays the same whatever is delivered, and no packet contradicts it.
#[tactic(auto, using(crate::proofs::LawLemmas::off_agrees, crate::proofs::LawLemmas::off_noted))]
pub fn off_law()
    ensures agrees { (a : Audit) (first : ℕ) (messages : List (List ℕ)) → size_of a ≡ 0 →
        AgreesWith a first messages }
    ensures noted { (a : Audit) (first : ℕ) (messages : List (List ℕ)) → size_of a ≡ 0 →
        HasNoted a a first messages }
{}

/// A packet above all numbers that were noted contradicts nothing. Nor does a packet without messages.
#[tactic(auto, using(crate::proofs::LawLemmas::above_agrees, crate::proofs::CheckLemmas::none_without_messages))]
pub fn agrees_law()
    ensures above { (a : Audit) (first : ℕ) (messages : List (List ℕ)) → a.next ≤ first →
        AgreesWith a first messages }
    ensures empty { (a : Audit) (first : ℕ) → AgreesWith a first [] }
{}

/// Noting messages notes no number above theirs.
#[tactic(auto, using(crate::proofs::LawLemmas::next_within))]
pub fn next_law()
    ensures { (old new : Audit) (first : ℕ) (messages : List (List ℕ)) → old.next ≤ first →
        HasNoted old new first messages → new.next ≤ first + length messages }
{}
