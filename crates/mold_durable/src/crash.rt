//! The theorem about crashes: what was committed is in every journal that is opened after a crash at any later moment.

ghost use Rattle.std.specs.Prelude.{ℕ, List, IfOk, IfErr};
ghost use Rattle.mold_wire.specs.declared.session.Session.{Session};
ghost use Rattle.mold_durable.specs.Crash.{HasPrefix, IsLaterFile, IsLive};
ghost use Rattle.mold_durable.specs.DurableJournal.{IsSettled};
ghost use Rattle.mold_durable.specs.Reading.{IsOfDevice};
ghost use Rattle.mold_durable.specs.Storage.{LeavesOnly};

use crate::durable_journal::DurableJournal;
use crate::error::NotOpened;
use crate::storage::Storage;
use mold_wire::MAX_MESSAGE;
use std::alloc::Global;

/// A call on a durable journal.
#[derive(Drop)]
pub enum Step {
    /// Appends this message.
    Append(Vec<u8>),
    /// Commits the waiting messages.
    Commit,
    /// Closes the session.
    Close,
}

// Makes a call on the journal. What it returns does not matter.
fn take_step<S: Storage>(journal: &mut DurableJournal<S>, step: &Step)
    ensures live { (session : Session) (messages : List (List ℕ)) →
        IsLive S.shows S.may_leave session messages journal.old →
        IsLive S.shows S.may_leave session messages journal.new }
    ensures any_moment { (session : Session) (messages : List (List ℕ)) →
        IsLive S.shows S.may_leave session messages journal.old →
        LeavesOnly S.moment S.left_since journal.old.storage journal.new.storage (IsLaterFile session messages) }
{
    match step {
        Step::Append(message) => {
            let _ = journal.append(message);
        }
        Step::Commit => {
            let _ = journal.commit();
        }
        Step::Close => {
            let _ = journal.close();
        }
    }
}

/// Makes calls on a journal, whatever each returns. A crash during these calls leaves a file that begins with the
/// messages that were committed before.
pub fn take_steps<S: Storage>(journal: &mut DurableJournal<S>, steps: &[Step])
    ensures live { (session : Session) (messages : List (List ℕ)) →
        IsLive S.shows S.may_leave session messages journal.old →
        IsLive S.shows S.may_leave session messages journal.new }
    ensures any_moment { (session : Session) (messages : List (List ℕ)) →
        IsLive S.shows S.may_leave session messages journal.old →
        LeavesOnly S.moment S.left_since journal.old.storage journal.new.storage (IsLaterFile session messages) }
{
    for step in steps {
        take_step(journal, step);
    }
}

/// A theorem about `append`, `commit`, `close` and `open` together. `journal` has committed messages. The function
/// makes any calls on it, and then opens `disk`. `disk` has what a crash during or after these calls may leave. The
/// opened journal begins with the committed messages. `open` fails only if the disk or an allocation fails.
pub fn open_after_crash<S: Storage, D: Storage>(
    alloc: Global,
    journal: &mut DurableJournal<S>,
    steps: &[Step],
    disk: D,
) -> Result<DurableJournal<D>, NotOpened<D>>
    ensures kept { (messages : List (List ℕ)) (bytes : List ℕ) → IsSettled S.shows S.may_leave journal.old messages →
        D.shows disk bytes → S.left_since journal.new.storage (S.moment journal.old.storage) bytes →
        IfOk result (HasPrefix D.shows D.may_leave journal.old.session messages) }
    ensures accepted { (messages : List (List ℕ)) (bytes : List ℕ) →
        IsSettled S.shows S.may_leave journal.old messages → D.shows disk bytes →
        S.left_since journal.new.storage (S.moment journal.old.storage) bytes →
        IfErr result (λ fault. IsOfDevice fault.error) }
{
    take_steps(journal, steps);
    DurableJournal::open(alloc, MAX_MESSAGE, disk)
}
