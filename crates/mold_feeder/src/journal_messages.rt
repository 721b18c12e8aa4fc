//! The messages of a journal's file, one after the other.

ghost use Rattle.std.specs.Prelude.{◌≡◌, ◌<◌, ℕ, Bool, List, [], Some, length, IfErr, IfOk};
ghost use Rattle.std.specs.Bool.{OnFalse, OnTrue};
ghost use Rattle.mold_session.specs.Contents.{Gives};
ghost use Rattle.mold_session.specs.Loading.{CountsLoad, IsOfHead, Refuses};
ghost use Rattle.mold_session.specs.Records.{SpellsJournal3};
ghost use Rattle.mold_wire.specs.declared.session.Session.{Session};
ghost use Rattle.mold_feeder.specs.JournalMessages.{HasMessageRead, HasMessages, IsOfDevice};

use mold_devices::Source;
use mold_session::{FileError, JournalReader};
use std::alloc::Global;

/// The messages of a journal's file that were not compared yet. It holds the longest message so far and the bytes of
/// one read, at most 32,768.
#[derive(Drop)]
pub struct JournalMessages<J> {
    reader: JournalReader,
    source: J,
}

impl<J: Source + Drop> JournalMessages<J> {
    /// Reads the head of the file that `source` has, or returns its fault. No message is read yet.
    pub fn open(alloc: Global, source: J) -> Result<JournalMessages<J>, FileError>
        ensures opened { (session : Session) (messages : List (List ℕ)) (closed : Bool) (bytes : List ℕ) →
            J.left source ≡ Some bytes → SpellsJournal3 session messages closed bytes →
            IfOk result (λ journal. HasMessages J.left journal messages 1) }
        ensures refused { IfErr result (λ error.
            Refuses (λ bytes why. Gives bytes [] (Some why)) (J.left source) error) }
        ensures headed { IfErr result IsOfHead }
        ensures failures { IfOk result (λ journal. J.failed journal.source ≡ J.failed source) }
    {
        let mut source = source;
        let reader = JournalReader::new(alloc, &mut source)?;
        Ok(JournalMessages { reader, source })
    }

    /// Reads the message of this number, unless it was the last that was read. Returns false if the file ends before
    /// it. `number` is that of the message that was read last, or the one after it.
    ///
    /// It allocates only for a message that is longer than all before it. After an error, or at the end, it must not be
    /// called again.
    pub fn read_to(&mut self, number: u64) -> Result<bool, FileError>
        ensures read { (messages : List (List ℕ)) → HasMessages J.left self.old messages number →
            IfOk result (λ more. OnTrue more (HasMessageRead J.left self.new messages number)) }
        ensures end { (messages : List (List ℕ)) → HasMessages J.left self.old messages number →
            IfOk result (λ more. OnFalse more (length messages < number)) }
        ensures refused { (messages : List (List ℕ)) → HasMessages J.left self.old messages number →
            IfErr result IsOfDevice }
        ensures failures { CountsLoad (J.failed self.old.source) (J.failed self.new.source) result }
    {
        if number <= self.reader.count() {
            return Ok(true);
        }
        Ok(self.reader.advance(&mut self.source)?)
    }

    /// Returns the message that was read last. It is empty before the first one.
    pub fn message(&self) -> &[u8]
        ensures { result.now ≡ self.now.reader.message }
    {
        self.reader.message()
    }
}
