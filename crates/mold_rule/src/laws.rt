//! Theorems about the rule for all packets, and about the ranges of missing numbers. Each law is a function
//! with an empty body whose contract is the theorem.

ghost use Rattle.std.specs.Prelude.{◌≡◌, ◌⊎◌, ◌+◌, ◌<◌, ◌≤◌, ◌∷◌, [], true, false, Bool, ℕ, suc, List, Option};
ghost use Rattle.std.specs.Prelude.{None, Some, slice_get};
ghost use Rattle.std.specs.List.{sum_by};
ghost use Rattle.mold_wire.specs.declared.packet.Packet.{Packet};
ghost use Rattle.mold_rule.specs.Ranges.{Range, IsLongest, lacking, range, ranges, size};
ghost use Rattle.mold_rule.specs.Refusals.{IsAdmitted, refusal_of};
ghost use Rattle.mold_rule.specs.declared.refusal.Refusal.TheVariants.{Memory};

/// A packet is accepted exactly when `IsAdmitted` holds and none of its messages differs from the stored one.
pub fn refusal_law()
    ensures none { (session : Option (List ℕ)) (known : ℕ) (ended : Option ℕ) (p : Packet) →
        IsAdmitted session known ended p → refusal_of session known ended None p ≡ None }
    ensures admitted { (session : Option (List ℕ)) (known : ℕ) (ended differs : Option ℕ) (p : Packet) →
        refusal_of session known ended differs p ≡ None → IsAdmitted session known ended p }
    ensures same { (session : Option (List ℕ)) (known : ℕ) (ended differs : Option ℕ) (p : Packet) →
        refusal_of session known ended differs p ≡ None → differs ≡ None }
{}

/// The rule never returns `Memory`.
pub fn cause_law()
    ensures { (session : Option (List ℕ)) (known : ℕ) (ended differs : Option ℕ) (p : Packet) →
        refusal_of session known ended differs p ≡ Some Memory → ⊥ }
{}

/// The ranges are exactly the longest ranges of missing numbers, in ascending order. At least one present
/// number lies between any two of them.
pub fn ranges_law()
    ensures longest { (lacks : ℕ → Bool) (low count i : ℕ) (r : Range) →
        slice_get (ranges lacks low count) i ≡ Some r → IsLongest lacks low (low + count) r }
    ensures each { (lacks : ℕ → Bool) (low count : ℕ) (r : Range) →
        IsLongest lacks low (low + count) r → (i : ℕ) × (slice_get (ranges lacks low count) i ≡ Some r) }
    ensures ascending { (lacks : ℕ → Bool) (low count i j : ℕ) (r s : Range) →
        slice_get (ranges lacks low count) i ≡ Some r → slice_get (ranges lacks low count) j ≡ Some s →
        i < j → r.last + 1 < s.first }
{}

/// Iterating over the numbers finds the ranges: present numbers are skipped, and the missing ones up to the next
/// present one, or up to the end, are the next range. The ranges depend only on which of the given numbers are missing.
pub fn ranges_walk_law()
    ensures none { (lacks : ℕ → Bool) (low : ℕ) → ranges lacks low 0 ≡ [] }
    ensures skip { (lacks : ℕ → Bool) (low count more : ℕ) →
        ((number : ℕ) → low ≤ number → number < low + count → lacks number ≡ false) →
        ranges lacks low (count + more) ≡ ranges lacks (low + count) more }
    ensures run { (lacks : ℕ → Bool) (low count more : ℕ) →
        ((number : ℕ) → low ≤ number → number < low + suc count → lacks number ≡ true) →
        (more ≡ 0) ⊎ (lacks (low + suc count) ≡ false) →
        ranges lacks low (suc count + more) ≡ range low (low + count) ∷ ranges lacks (low + suc count) more }
    ensures same { (lacks other : ℕ → Bool) (low count : ℕ) →
        ((number : ℕ) → low ≤ number → number < low + count → lacks number ≡ other number) →
        ranges lacks low count ≡ ranges other low count }
{}

/// The sizes of the ranges add up to the count of missing numbers.
#[tactic(auto, using(crate::proofs::RangeLemmas::ranges_size))]
pub fn ranges_size_law()
    ensures { (lacks : ℕ → Bool) (low count : ℕ) →
        sum_by size (ranges lacks low count) ≡ lacking lacks low count }
{}

/// The counts of missing numbers in two adjacent parts add up to the count of both. The count of a part is
/// its length if all its numbers are missing, and 0 if none is. It depends only on which of its numbers are
/// missing.
pub fn lacking_law()
    ensures parts { (lacks : ℕ → Bool) (low count more : ℕ) →
        lacking lacks low (count + more) ≡ lacking lacks low count + lacking lacks (low + count) more }
    ensures all { (lacks : ℕ → Bool) (low count : ℕ) →
        ((number : ℕ) → low ≤ number → number < low + count → lacks number ≡ true) →
        lacking lacks low count ≡ count }
    ensures none { (lacks : ℕ → Bool) (low count : ℕ) →
        ((number : ℕ) → low ≤ number → number < low + count → lacks number ≡ false) →
        lacking lacks low count ≡ 0 }
    ensures same { (lacks other : ℕ → Bool) (low count : ℕ) →
        ((number : ℕ) → low ≤ number → number < low + count → lacks number ≡ other number) →
        lacking lacks low count ≡ lacking other low count }
{}
