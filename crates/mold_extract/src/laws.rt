//! Laws about what is written of datagrams: theorems about the definitions alone. Each law is a function that does
//! nothing, and its contract is the theorem.

ghost use Rattle.std.specs.Prelude.{◌≡◌, [], List, ℕ, length, Option, true};
ghost use Rattle.std.specs.Io.KnownBytes.{Appends};
ghost use Rattle.std.specs.List.{flat_map};
ghost use Rattle.mold_wire.specs.Block.{blocks};
ghost use Rattle.mold_wire.specs.declared.session.Session.{Session};
ghost use Rattle.mold_session.specs.File.{AppendsFile, AppendsFilePrefix};
ghost use Rattle.mold_capture.specs.Consistent.{Consistent, Explains, Whole};
ghost use Rattle.mold_capture.specs.Seen.{Seen, numbered, seen_of};
ghost use Rattle.mold_extract.specs.Carried.{IsInFull};
ghost use Rattle.mold_extract.specs.Extracting.{ExtractsBlocks};
ghost use Rattle.mold_extract.specs.Journal.{AppendsJournalPrefix, Saves};
ghost use Rattle.mold_extract.specs.Text.{blocks_in, entry_line, lines_in};
ghost use Rattle.mold_extract.specs.declared.extracted.Extracted.{Extracted};
ghost use Rattle.mold_extract.specs.declared.extracted.Extracted.TheVariants.{All as IsAll, Holes};
ghost use Rattle.mold_extract.specs.declared.number_range.NumberRange.{NumberRange};

use mold_wire::laws::reading_law;

/// If datagrams are whole, exactly one list of messages and one name of a session explain them. What `save_journal`
/// writes is then the file of the closed journal of this session. If they are consistent but not whole, it writes
/// nothing.
pub fn journal_law()
    ensures one { (list P Q : List (List ℕ)) (session : List ℕ) → Whole list P → Explains session Q list → Q ≡ P }
    ensures name { (list P Q : List (List ℕ)) (session other : List ℕ) → Whole list P → Explains session P list →
        Explains other Q list → other ≡ session }
    ensures saved { (list P : List (List ℕ)) (session : Session) (old new : Option (List ℕ)) (saved : Extracted) →
        Whole list P → Explains session.0 P list → Saves old new (seen_of list) saved →
        (saved ≡ IsAll (length P)) × AppendsFile old new session P true }
    ensures prefix { (list P : List (List ℕ)) (session : Session) (old new : Option (List ℕ)) →
        Whole list P → Explains session.0 P list → AppendsJournalPrefix old new (seen_of list) →
        AppendsFilePrefix old new session P true }
    ensures holes { (list : List (List ℕ)) (old new : Option (List ℕ)) (saved : Extracted) → Consistent list →
        ((P : List (List ℕ)) → Whole list P → ⊥) → Saves old new (seen_of list) saved →
        (saved ≡ Holes) × Appends old new [] }
{
    reading_law();
}

/// If datagrams are whole, their messages are carried in full, and the blocks and lines of all numbers are those of the
/// messages of the session.
pub fn whole_law()
    ensures full { (list P : List (List ℕ)) (range : NumberRange) → Whole list P → IsInFull (seen_of list) range }
    ensures blocks { (list P : List (List ℕ)) → Whole list P →
        blocks_in (seen_of list).pairs (record { from = 1; count = u64.MAX }) ≡ blocks P }
    ensures lines { (list P : List (List ℕ)) → Whole list P →
        lines_in (seen_of list).pairs (record { from = 1; count = u64.MAX }) ≡ flat_map entry_line (numbered 1 P) }
{
    reading_law();
}

/// Whether and how many messages are written depends only on what the checker states, and not on the sink.
pub fn one_result_law()
    ensures saved { (seen : Seen) (old new before after : Option (List ℕ)) (one other : Extracted) →
        Saves old new seen one → Saves before after seen other → one ≡ other }
    ensures blocks { (seen : Seen) (range : NumberRange) (old new before after : Option (List ℕ))
        (one other : Extracted) → ExtractsBlocks old new seen range one →
        ExtractsBlocks before after seen range other → one ≡ other }
{}
