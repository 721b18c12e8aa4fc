//! Theorems about the definitions of the calls. A law is a function that does nothing; its contract is the theorem.

ghost use Rattle.std.specs.Prelude.{◌≡◌, [], List, ℕ, length, ◌+◌, ◌-◌, ◌<◌, ◌≤◌, ◌++◌, ◌∷◌, Some, take, drop};
ghost use Rattle.std.specs.Prelude.{false, slice_get};
ghost use Rattle.std.specs.List.{All};
ghost use Rattle.mold_capture.specs.Consistent.{Consistent, Whole};
ghost use Rattle.mold_capture.specs.Seen.{seen_of};
ghost use Rattle.mold_ffi.specs.Checker.MoldVerdict.{IsMissingVerdict, IsWholeVerdict};
ghost use Rattle.mold_ffi.specs.Laws.{AreTaken, said};
ghost use Rattle.mold_ffi.specs.Packets.MoldPlace.{places_read};
ghost use Rattle.mold_ffi.specs.Publisher.Appending.{written_at};
ghost use Rattle.mold_ffi.specs.Publisher.Records.{empty_file, records_from};
ghost use Rattle.mold_ffi.specs.Publisher.Resuming.{end_offset};
ghost use Rattle.mold_ffi.specs.declared.checker.mold_verdict.MoldVerdict.{MoldVerdict};
ghost use Rattle.mold_ffi.specs.declared.packets.mold_place.MoldPlace.{MoldPlace};
ghost use Rattle.mold_session.specs.Journal.{IsJournal, JournalState};
ghost use Rattle.mold_session.specs.Records.{SpellsJournal3};
ghost use Rattle.mold_wire.specs.Block.{IsBytes};
ghost use Rattle.mold_wire.specs.Packet.{Spells, messages_of};
ghost use Rattle.mold_wire.specs.Packing.{packet_length};
ghost use Rattle.mold_wire.specs.Reading.{reading};
ghost use Rattle.mold_wire.specs.declared.block.TheConstants.{MAX_MESSAGE};
ghost use Rattle.mold_wire.specs.declared.packet.Packet.{Packet};
ghost use Rattle.mold_wire.specs.declared.session.Session.{Session};

use mold_capture::laws::{after_law, reason_law, whole_is_one_law};
use mold_wire::laws::{message_place_law, reading_law};

/// All datagrams that a checker has taken since it was made are consistent. If its verdict is a whole session, they are
/// whole, with that number of messages. If its verdict is that something is missing, they are not whole.
pub fn checked_law()
    ensures consistent { (list : List (List ℕ)) → All IsBytes list → AreTaken (seen_of []) list → Consistent list }
    ensures said { (list : List (List ℕ)) → All IsBytes list → AreTaken (seen_of []) list →
        said (seen_of []) list ≡ seen_of list }
    ensures whole { (list : List (List ℕ)) (verdict : MoldVerdict) → All IsBytes list →
        AreTaken (seen_of []) list → IsWholeVerdict (said (seen_of []) list) verdict →
        (messages : List (List ℕ)) × (Whole list messages × (length messages ≡ verdict.messages)) }
    ensures missing { (list : List (List ℕ)) (verdict : MoldVerdict) → All IsBytes list →
        AreTaken (seen_of []) list → IsMissingVerdict (said (seen_of []) list) verdict →
        (messages : List (List ℕ)) → Whole list messages → ⊥ }
{
    reason_law();
    after_law();
    whole_is_one_law();
}

/// `mold_read` writes a place for each message, as far as the array has room, and leaves its other elements unchanged.
/// A place is after the header, the blocks before the message, and the two bytes of its length. The bytes at the place
/// are the message.
pub fn places_law()
    ensures placed { (packet : Packet) (bytes : List ℕ) (before behind : List (List ℕ)) (message : List ℕ)
        (old : List MoldPlace) → Spells packet bytes → messages_of packet.body ≡ before ++ message ∷ behind →
        length before < length old → slice_get (places_read (reading bytes) old) (length before)
        ≡ Some (record { offset = packet_length before + 2; length = length message }) }
    ensures lies { (packet : Packet) (bytes : List ℕ) (before behind : List (List ℕ)) (message : List ℕ)
        (old : List MoldPlace) (place : MoldPlace) →
        Spells packet bytes → messages_of packet.body ≡ before ++ message ∷ behind → length before < length old →
        slice_get (places_read (reading bytes) old) (length before) ≡ Some place →
        take place.length (drop place.offset bytes) ≡ message }
    ensures kept { (packet : Packet) (bytes : List ℕ) (old : List MoldPlace) (i : ℕ) →
        Spells packet bytes → length (messages_of packet.body) ≤ i →
        slice_get (places_read (reading bytes) old) i ≡ slice_get old i }
{
    reading_law();
    message_place_law();
}

/// How a program keeps a journal in a file of version 3, in the order that `mold.h` states.
///
/// The bytes of `mold_journal_head` are the file of a session without messages. Bytes after the shut gate do not change
/// which journal a file is, nor does a gate of another value, unless the value is 1. After the bytes of
/// `mold_journal_records` are written at the offset of the shut gate, the file is the journal with all messages. The
/// first of these bytes may be written after the others. If the session is open, the last of them is the next shut gate.
pub fn appending_law()
    ensures empty { (session : Session) → length session.0 ≡ 10 → SpellsJournal3 session [] false (empty_file session) }
    ensures waiting { (session : Session) (messages : List (List ℕ)) (file more : List ℕ) →
        SpellsJournal3 session messages false file →
        SpellsJournal3 session messages false (take (end_offset messages + 1) file ++ more) }
    ensures torn { (session : Session) (messages : List (List ℕ)) (file more : List ℕ) (gate : ℕ) → ¬ (gate ≡ 1) →
        SpellsJournal3 session messages false file →
        SpellsJournal3 session messages false (take (end_offset messages) file ++ gate ∷ more) }
    ensures order { (at : ℕ) (text file : List ℕ) → at < length file → 1 ≤ length text →
        written_at at (take 1 text) (written_at (at + 1) (drop 1 text) file) ≡ written_at at text file }
    ensures grown { (journal : JournalState) (from : ℕ) (file : List ℕ) → IsJournal journal →
        journal.max_message ≤ MAX_MESSAGE →
        SpellsJournal3 journal.session (take (from - 1) journal.messages) false file →
        SpellsJournal3 journal.session journal.messages journal.closed
        (written_at (end_offset (take (from - 1) journal.messages)) (records_from journal from) file) }
    ensures next { (journal : JournalState) (from : ℕ) → journal.closed ≡ false →
        end_offset (take (from - 1) journal.messages) + length (records_from journal from)
        ≡ end_offset journal.messages + 1 }
{}
