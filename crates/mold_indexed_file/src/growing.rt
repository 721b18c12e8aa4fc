//! An indexed file that a follower reads.

ghost use Rattle.std.specs.Prelude.{◌≡◌, ◌<◌, ◌++◌, [], true, false, ℕ, List, length, IfOk, IfErr, OnErr};
ghost use Rattle.mold_session.specs.Journal.{JournalState};
ghost use Rattle.mold_durable.specs.Follower.{Follows, follower_of};
ghost use Rattle.mold_durable.specs.Following.{AllWithin, HasAll, Writer, Writes};
ghost use Rattle.mold_durable.specs.GrowingFile.{Passes};
ghost use Rattle.mold_durable.specs.Reading.{CountsOpen, IsOfDevice};
ghost use Rattle.mold_indexed_file.specs.Shown.{Shows};

use crate::indexed_file::IndexedFile;
use mold_durable::{GrowingFile, OpenError, RecordFollower};

impl<F: GrowingFile> IndexedFile<F> {
    /// Polls the follower of the file, as `Follower::poll` does. The index is unchanged: the caller then pushes the
    /// length of each message that the poll gained.
    pub fn poll(&mut self, follower: &mut RecordFollower) -> Result<bool, OpenError>
        ensures gained { (writer : Writer) (bytes : ℕ → List ℕ) (told : List (List ℕ)) → Writes writer bytes →
            Follows F.history F.synced writer bytes (follower_of self.old.file follower.old) told →
            Follows F.history F.synced writer bytes (follower_of self.new.file follower.new)
            (told ++ follower.new.news) }
        ensures nothing { (writer : Writer) (bytes : ℕ → List ℕ) (told : List (List ℕ)) → Writes writer bytes →
            Follows F.history F.synced writer bytes (follower_of self.old.file follower.old) told →
            IfOk result (λ more. more ≡ false →
            HasAll writer (told ++ follower.new.news) follower.new.closed (F.moment self.old.file)) }
        ensures more { IfOk result (λ more. more ≡ true →
            (0 < length follower.new.news) × (follower.new.closed ≡ false)) }
        ensures same { OnErr result (follower.new ≡ record follower.old { news = [] }) }
        ensures kept { follower.new ≡ record follower.old {
          count = follower.new.count;
          end = follower.new.end;
          closed = follower.new.closed;
          news = follower.new.news;
        } }
        ensures accepted { (writer : Writer) (bytes : ℕ → List ℕ) (told : List (List ℕ)) → Writes writer bytes →
            AllWithin follower.old.max_message writer →
            Follows F.history F.synced writer bytes (follower_of self.old.file follower.old) told →
            IfErr result IsOfDevice }
        ensures index { self.new ≡ record self.old { file = self.new.file } }
        ensures shown { (journal : JournalState) →
            Shows F.history F.moment self.old journal → Shows F.history F.moment self.new journal }
        ensures passes { Passes F.history F.moment F.synced self.old.file self.new.file }
        ensures cause { CountsOpen (F.failed self.old.file) (F.failed self.new.file) result }
    {
        follower.poll(&mut self.file)
    }
}
