//! Appends messages to a durable journal, and commits them when they are due.

ghost use Rattle.std.specs.Prelude.{◌≡◌, ◌⊎◌, ◌∷◌, [], true, OnErr, OnOk};
ghost use Rattle.mold_recorder.specs.Appending.{HasAppended, HasAppendedSome, IsSaved, LeavesParts};
ghost use Rattle.mold_recorder.specs.CommitPlan.{IsPlanOf, plan_of_none};

use crate::commit_plan::CommitPlan;
use mold_devices::CommandFault;
use mold_durable::{DurableJournal, Storage, WaitingError};
use mold_receiver::Batch;
use mold_session::AppendError;

// Returns the fault of a command whose journal refuses a message.
fn fault_of(error: WaitingError) -> CommandFault {
    match error {
        WaitingError::Append(AppendError::Memory) => CommandFault::Memory,
        WaitingError::Append(_) | WaitingError::Broken => CommandFault::Write,
    }
}

/// Commits the waiting messages. The fault is `Write`.
pub(crate) fn commit<S: Storage>(
    journal: &mut DurableJournal<S>,
    plan: &mut CommitPlan,
) -> Result<(), CommandFault>
    ensures appended { OnOk result
        (HasAppended S.shows S.may_leave S.moment S.left_since journal.old journal.new []) }
    ensures plan { OnOk result (IsPlanOf plan.new journal.new.waiting) }
    ensures none { OnOk result (plan.new ≡ plan_of_none) }
    ensures broken { OnErr result (journal.new.broken ≡ true) }
    ensures some { OnErr result
        (HasAppendedSome S.shows S.may_leave S.moment S.left_since journal.old journal.new []) }
{
    match journal.commit() {
        Ok(()) => {
            *plan = CommitPlan::new();
            Ok(())
        }
        Err(_) => Err(CommandFault::Write),
    }
}

// Appends a message at the time `now`. Commits if `MOST_WAITING` bytes wait.
fn append<S: Storage>(
    journal: &mut DurableJournal<S>,
    plan: &mut CommitPlan,
    message: &[u8],
    now: u64,
) -> Result<(), CommandFault>
    requires plan { IsPlanOf plan.old journal.old.waiting }
    ensures appended { OnOk result
        (HasAppended S.shows S.may_leave S.moment S.left_since journal.old journal.new (message.now ∷ [])) }
    ensures plan { OnOk result (IsPlanOf plan.new journal.new.waiting) }
    ensures some { OnErr result
        (HasAppendedSome S.shows S.may_leave S.moment S.left_since journal.old journal.new (message.now ∷ [])) }
{
    match journal.append(message) {
        Ok(_) => {}
        Err(error) => return Err(fault_of(error)),
    }
    plan.add(message.len(), now);
    if plan.is_large() {
        return commit(journal, plan);
    }
    Ok(())
}

/// Appends the messages of the batch at the time `now`, in order. Commits whenever `MOST_WAITING` bytes wait. After a
/// fault, a prefix of them is appended.
pub(crate) fn append_batch<S: Storage>(
    journal: &mut DurableJournal<S>,
    plan: &mut CommitPlan,
    batch: &Batch,
    now: u64,
) -> Result<(), CommandFault>
    requires plan { IsPlanOf plan.old journal.old.waiting }
    ensures appended { OnOk result
        (HasAppended S.shows S.may_leave S.moment S.left_since journal.old journal.new batch.now.messages) }
    ensures plan { OnOk result (IsPlanOf plan.new journal.new.waiting) }
    ensures some { OnErr result
        (HasAppendedSome S.shows S.may_leave S.moment S.left_since journal.old journal.new batch.now.messages) }
{
    for message in batch.iter() {
        append(journal, plan, message, now)?;
    }
    Ok(())
}

/// Commits the waiting messages before the loop ends with a fault, so that none of them is lost. If the journal is
/// broken, it does nothing.
pub(crate) fn save<S: Storage>(journal: &mut DurableJournal<S>)
    ensures unwritten { journal.old.broken ≡ true → journal.new ≡ journal.old }
    ensures committed { (journal.new.broken ≡ true)
        ⊎ HasAppended S.shows S.may_leave S.moment S.left_since journal.old journal.new [] }
    ensures leaves { LeavesParts S.shows S.may_leave S.moment S.left_since journal.old journal.new [] }
    ensures saved { IsSaved journal.new }
{
    let _ = journal.commit();
}
