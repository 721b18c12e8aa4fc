//! Theorems about all files. Each law is a function with an empty body whose contract is the theorem.

ghost use Rattle.std.specs.Prelude.{◌≡◌, ℕ, List, length};
ghost use Rattle.mold_session.specs.Contents.{IsFront};
ghost use Rattle.mold_session.specs.File.{SpellsJournal, SpellsJournal2};
ghost use Rattle.mold_session.specs.Journal.{JournalState};
ghost use Rattle.mold_session.specs.Records.{SpellsJournal3};
ghost use Rattle.mold_session.specs.declared.file_version.FileVersion.{FileVersion};
ghost use Rattle.mold_session.specs.declared.file_version.FileVersion.TheVariants.{One, Two, Three};
ghost use Rattle.mold_durable.specs.Following.{Writer, Writes};
ghost use Rattle.mold_indexed_file.specs.Shown.{HasSince};

/// A file that nobody writes has, from any moment on, the journal whose file it is.
pub fn finished_file_law()
    ensures first { (journal : JournalState) (bytes : List ℕ) (since : ℕ) →
        SpellsJournal journal.session journal.messages bytes → HasSince (λ moment. bytes) since One journal }
    ensures second { (journal : JournalState) (bytes : List ℕ) (since : ℕ) →
        SpellsJournal2 journal.session journal.messages journal.closed bytes →
        HasSince (λ moment. bytes) since (Two (length journal.messages)) journal }
    ensures third { (journal : JournalState) (bytes : List ℕ) (since : ℕ) →
        SpellsJournal3 journal.session journal.messages journal.closed bytes →
        HasSince (λ moment. bytes) since Three journal }
{}

/// A file that a writer writes has, from any moment on, each journal whose messages are the first messages that the
/// writer's journal had at that moment. Their bytes stay.
pub fn growing_file_law()
    ensures { (writer : Writer) (bytes : ℕ → List ℕ) (since : ℕ) (journal : JournalState) → Writes writer bytes →
        journal.session ≡ writer.session → IsFront journal.messages (writer.messages since) →
        HasSince bytes since Three journal }
{}

/// A file that has a journal has each journal with the first of its messages.
pub fn prefix_law()
    ensures { (bytes : ℕ → List ℕ) (since : ℕ) (version : FileVersion) (journal front : JournalState) →
        HasSince bytes since version journal → front.session ≡ journal.session → front.closed ≡ journal.closed →
        IsFront front.messages journal.messages → HasSince bytes since version front }
{}
