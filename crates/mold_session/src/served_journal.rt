//! The trait of the journals that a server responds from.

ghost use Rattle.std.specs.Prelude.{◌≡◌, ◌+◌, ◌≤◌, ℕ, length, IfOk, IfErr};
ghost use Rattle.mold_session.specs.Journal.{IsJournal, JournalState};
ghost use Rattle.mold_session.specs.Loading.{CountsLoad};
ghost use Rattle.mold_session.specs.Serving.{HasBegunNext, HasPackedNext, MayPack};
ghost use Rattle.mold_session.specs.declared.error.FileError.{FileError};

use crate::error::FileError;
use crate::journal::Journal;
use crate::packing::pack_plan;
use crate::plan::Plan;
use mold_wire::{Packer, Session};

/// A journal that a server responds from. It is in memory, or in a file that is read when its messages are sent.
pub trait ServedJournal {
    // The journals that this may be. If nothing is known of a file's bytes, there are none.
    ghost shows: { Self → JournalState → Type 0 };

    // What stays the same while the journal is served, as a relation of an earlier state and the present one.
    ghost stays: { Self → Self → Type 0 };

    // The number of failures. It stays at `u64::MAX` once it is there.
    ghost failed: { Self → ℕ };

    /// Returns the session that the messages belong to.
    fn session(&self) -> Session
        ensures { (journal : JournalState) → shows self.now journal → result ≡ journal.session };

    /// Returns the largest length of a message, in bytes.
    fn max_message(&self) -> u16
        ensures { (journal : JournalState) → shows self.now journal → result ≡ journal.max_message };

    /// Returns the sequence number that the next message gets: one more than the number of messages.
    fn next(&self) -> u64
        ensures value { (journal : JournalState) → shows self.now journal → result ≡ length journal.messages + 1 }
        ensures journal { (journal : JournalState) → shows self.now journal → IsJournal journal };

    /// Packs the next datagram of a plan and returns the number of its messages.
    ///
    /// `Read` is returned if a read fails. If the file was damaged after it was opened, another error states its fault.
    /// A journal in memory returns an error only if it lacks the plan's next message, or if that is too long for a
    /// datagram: `BlockCut` with the message's number. After an error, the contents of the packer are unspecified.
    fn pack(&mut self, packer: &mut Packer, plan: &Plan) -> Result<u64, FileError>
        ensures packed { IfOk result (λ count. (journal : JournalState) → shows self.old journal →
            MayPack journal packer.old.limit plan.now →
            HasPackedNext packer.old packer.new journal plan.now count) }
        ensures begun { IfOk result (HasBegunNext packer.old packer.new plan.now) }
        ensures limit { packer.new.limit ≡ packer.old.limit }
        ensures refused { IfErr result (λ error. (journal : JournalState) → shows self.old journal →
            MayPack journal packer.old.limit plan.now → error ≡ FileError.Read) }
        ensures shown { (journal : JournalState) → shows self.old journal → shows self.new journal }
        ensures stays { (earlier : Self) → stays earlier self.old → stays earlier self.new }
        ensures failures { CountsLoad (failed self.old) (failed self.new) result };
}

impl ServedJournal for &Journal {
    ghost shows = { λ j journal. journal ≡ j.now };

    ghost stays = { λ earlier j. j.now ≡ earlier.now };

    ghost failed = { λ _. 0 };

    fn session(&self) -> Session {
        (**self).session()
    }

    fn max_message(&self) -> u16 {
        (**self).max_message()
    }

    fn next(&self) -> u64 {
        (**self).next()
    }

    fn pack(&mut self, packer: &mut Packer, plan: &Plan) -> Result<u64, FileError> {
        match pack_plan(packer, *self, plan) {
            0 if plan.from() < plan.to() => Err(FileError::BlockCut {
                number: plan.from(),
            }),
            count => Ok(count),
        }
    }
}
