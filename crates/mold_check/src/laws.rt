//! The laws of this crate: theorems about the definitions alone. Each is a function that does nothing, and its
//! contract is the theorem.

ghost use Rattle.std.specs.Prelude.{◌≡◌, ◌⊎◌, ℕ, List};
ghost use Rattle.std.specs.List.{All};
ghost use Rattle.mold_wire.specs.Block.{IsBytes};
ghost use Rattle.mold_capture.specs.Outcome.{IsOutcome, refused};
ghost use Rattle.mold_check.specs.CheckLines.{check_status, check_text, datagrams_of, outcome_of};
ghost use Rattle.mold_check.specs.Checking.{all_taken, beginning, checking_status, checking_text};
ghost use Rattle.mold_check.specs.DigestCheck.{digest_judging, numbered_by_digest};
ghost use Rattle.mold_check.specs.Digested.{digested_beginning, digested_judging, digested_numbered};
ghost use Rattle.mold_check.specs.EachCheck.{all_judged, each_judging, sessions_status, sessions_text, with_numbers};
ghost use Rattle.mold_check.specs.EachLines.{each_lines_status, each_lines_text};
ghost use Rattle.mold_check.specs.Judgement.{all_added, datagram_judging, judgement_status, judgement_text, no_judgement};
ghost use Rattle.mold_check.specs.Judgement.{numbered_text};
ghost use Rattle.mold_check.specs.Naming.{counted};
ghost use Rattle.mold_check.specs.Report.{outcome_status};
ghost use Rattle.mold_devices.specs.Lines.{lines_of};
ghost use Rattle.mold_digest.specs.Digested.{digested_list};
ghost use Rattle.mold_rule.specs.declared.refusal.Refusal.TheVariants.{Conflict};

use mold_capture::laws::{after_law, outcome_law, reason_law, whole_is_one_law};
use mold_digest::laws::digested_outcome_law;
use mold_rule::laws::lacking_law;

/// The computed outcome of datagrams is the one that `mold_capture` defines, so `mold check` reports the same for
/// datagrams in files and in lines. Only the clause `datagrams` requires that each element of a datagram is a byte.
pub fn lines_outcome_law()
    ensures datagrams { (list : List (List ℕ)) → All IsBytes list → IsOutcome list (outcome_of list) }
    ensures lines { (lines : List (ℕ × List ℕ)) → IsOutcome (datagrams_of lines) (outcome_of (datagrams_of lines)) }
{
    reason_law();
    after_law();
    whole_is_one_law();
    lacking_law();
}

/// A `DatagramCheck` to which these datagrams were added, with the numbers from 1 on, prints the outcome of the
/// datagrams.
pub fn datagram_check_law()
    ensures text { (word : List ℕ) (list : List (List ℕ)) →
        judgement_text word (all_added no_judgement 1 list) ≡ numbered_text word 1 (outcome_of list) }
    ensures status { (list : List (List ℕ)) →
        judgement_status (all_added no_judgement 1 list) ≡ outcome_status (outcome_of list) }
{}

/// An `EachCheck<DatagramCheck>` to which these datagrams were added, each with its number, prints each session in the
/// order of first appearance, with the outcome of its datagrams. Of those that do not encode a packet it prints the
/// number. Its status is the greatest.
pub fn each_check_law()
    ensures text { (names : ℕ → List ℕ) (list : List (ℕ × List ℕ)) →
        (each_judging datagram_judging).text names (all_judged (each_judging datagram_judging) (each_judging datagram_judging).begins list)
        ≡ sessions_text names list }
    ensures status { (list : List (ℕ × List ℕ)) →
        (each_judging datagram_judging).status (all_judged (each_judging datagram_judging) (each_judging datagram_judging).begins list)
        ≡ sessions_status list }
{}

/// What a `LineCheck` prints that has taken all lines of an input is a function of the input, for one session and for
/// each session by itself.
pub fn line_check_law()
    ensures text { (input : List ℕ) →
        checking_text datagram_judging (all_taken datagram_judging (beginning datagram_judging) (lines_of input))
        ≡ check_text input }
    ensures status { (input : List ℕ) →
        checking_status datagram_judging (all_taken datagram_judging (beginning datagram_judging) (lines_of input))
        ≡ check_status input }
    ensures each_text { (input : List ℕ) →
        checking_text (each_judging datagram_judging)
        (all_taken (each_judging datagram_judging) (beginning (each_judging datagram_judging)) (lines_of input))
        ≡ each_lines_text input }
    ensures each_status { (input : List ℕ) →
        checking_status (each_judging datagram_judging)
        (all_taken (each_judging datagram_judging) (beginning (each_judging datagram_judging)) (lines_of input))
        ≡ each_lines_status input }
{}

/// A `Digested<DigestCheck>` to which these datagrams were added, with the numbers from 1 on, prints the outcome of the
/// digested datagrams. This is the outcome of the datagrams, unless a datagram is refused for a conflict. The judge of a
/// `Digested<EachCheck<DigestCheck>>` has the digested datagrams with their numbers.
pub fn digested_check_law()
    ensures text { (key word : List ℕ) (list : List (List ℕ)) →
        (digested_judging digest_judging).text (counted word)
        (all_judged (digested_judging digest_judging) (digested_beginning key digest_judging) (with_numbers 1 list))
        ≡ numbered_by_digest word 1 (outcome_of (digested_list key list)) }
    ensures status { (key : List ℕ) (list : List (List ℕ)) →
        (digested_judging digest_judging).status
        (all_judged (digested_judging digest_judging) (digested_beginning key digest_judging) (with_numbers 1 list))
        ≡ outcome_status (outcome_of (digested_list key list)) }
    ensures outcome { (key : List ℕ) (list : List (List ℕ)) →
        All IsBytes list → All IsBytes (digested_list key list) →
        (outcome_of (digested_list key list) ≡ outcome_of list)
        ⊎ ((index number : ℕ) × (outcome_of list ≡ refused index (Conflict number))) }
    ensures each { (key : List ℕ) (list : List (ℕ × List ℕ)) →
        (all_judged (digested_judging (each_judging digest_judging))
        (digested_beginning key (each_judging digest_judging)) list).judge
        ≡ all_judged (each_judging digest_judging) (each_judging digest_judging).begins (digested_numbered key list) }
{
    lines_outcome_law();
    digested_outcome_law();
    outcome_law();
}
