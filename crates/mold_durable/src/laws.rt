//! Laws: theorems about the definitions alone. A law is a function that exists only for its contract, the theorem.

ghost use Rattle.std.specs.Prelude.{◌≡◌, ◌+◌, ◌<◌, ◌≤◌, List, ℕ, Bool, length};
ghost use Rattle.std.specs.List.{AllByRecursion};
ghost use Rattle.mold_wire.specs.declared.block.TheConstants.{MAX_MESSAGE};
ghost use Rattle.mold_wire.specs.declared.session.Session.{Session};
ghost use Rattle.mold_session.specs.Contents.{IsFront};
ghost use Rattle.mold_session.specs.Journal.{AreMessages, IsWithin};
ghost use Rattle.mold_session.specs.Records.{SpellsJournal3};
ghost use Rattle.mold_durable.specs.Following.{Writes};
ghost use Rattle.mold_durable.specs.GrowingFile.{ReadsAmong};
ghost use Rattle.mold_durable.specs.Reading.{IsOfDevice, OpenFault};
ghost use Rattle.mold_durable.specs.Stepwise.{stepwise_file, stepwise_writer, whole_file};
ghost use Rattle.mold_durable.specs.declared.error.OpenError.{OpenError};

use mold_session::laws::one_file_law;

/// Bytes are the file of at most one session: of one name, one list of messages and one end. Such a file has no fault
/// if no message is longer than the maximum that `open` is given. So an opened journal has exactly the messages of the
/// file.
pub fn one_session_law()
    ensures session { (one other : Session) (messages others : List (List ℕ)) (closed shut : Bool) (bytes : List ℕ) →
        SpellsJournal3 one messages closed bytes → SpellsJournal3 other others shut bytes →
        (one ≡ other) × (messages ≡ others) × (closed ≡ shut) }
    ensures no_fault { (most : ℕ) (session : Session) (messages : List (List ℕ)) (closed : Bool) (bytes : List ℕ)
        (error : OpenError) → most ≤ MAX_MESSAGE → SpellsJournal3 session messages closed bytes →
        AllByRecursion (IsWithin most) messages → OpenFault most bytes error → IsOfDevice error }
{
    one_file_law();
}

/// States why a follower needs one read for each message. The records of all messages may be in a file before its
/// writer opens the gates, one at each moment. A crash of an earlier writer may leave such bytes after a shut gate.
///
/// A read that begins at one moment and ends at the next may return what a read of the whole file returns. It returns
/// the gate that opens meanwhile as it is at its end, and all other bytes as they are at its beginning. So `n` reads in
/// a row may show the whole file, and the journal then has `n` messages. A follower that took more of them would return
/// messages that are not in the journal.
///
/// - `writes`: this is a writer whose files a follower reads.
/// - `alike`: each read may return what a read of the whole file returns.
/// - `few`: a list with which the journal begins at moment `n` has at most `n` messages.
pub fn single_reads_law()
    ensures writes { (session : Session) (messages : List (List ℕ)) → length session.0 ≡ 10 →
        AreMessages MAX_MESSAGE messages →
        Writes (stepwise_writer session messages) (stepwise_file session messages) }
    ensures alike { (session : Session) (messages : List (List ℕ)) (moment one two at count : ℕ) (buffer : List ℕ) →
        length session.0 ≡ 10 → moment < length messages →
        ReadsAmong (λ now. whole_file session messages) one two at count buffer →
        ReadsAmong (stepwise_file session messages) moment (moment + 1) at count buffer }
    ensures few { (session : Session) (messages told : List (List ℕ)) (moment : ℕ) →
        IsFront told ((stepwise_writer session messages).messages moment) → length told ≤ moment }
{}
