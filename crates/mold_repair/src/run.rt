//! Runs of a repairer: its calls, one after the other.

ghost use Rattle.std.specs.Prelude.{◌≡◌, ◌⊎◌, ◌<◌, ◌^◌, None, true, IfOk, OnErr};
ghost use Rattle.std.specs.List.{list_all};
ghost use Rattle.mold_repair.specs.Came.{range};
ghost use Rattle.mold_repair.specs.Run.{HasLostSome, HasPolledOnce, HasStepped, HasTaken, HasWaited, IsRepaired};
ghost use Rattle.mold_repair.specs.Run.{after_lost, can_step, delivers, nothing};

use crate::origin::RepairOrigin;
use crate::outcome::Outcome;
use crate::repairer::Repairer;
use crate::step::RepairStep;
use mold_pacing::Gap;
use mold_receiver::Batch;
use std::alloc::{AllocError, Global};

// Returns the numbers from `first` to just below the receiver's `next`.
fn delivered(repairer: &Repairer, first: u64) -> Gap
    ensures { result ≡ range first repairer.now.arbiter.view.next }
{
    Gap {
        first,
        end: repairer.arbiter().receiver().next(),
    }
}

// Returns the number after the messages that were given up, or `next` if none were.
fn after_lost(next: u64, lost: Option<Gap>) -> u64
    ensures { result ≡ after_lost next lost }
{
    match lost {
        Some(gap) => gap.end,
        None => next,
    }
}

fn take(
    repairer: &mut Repairer,
    time: u64,
    origin: RepairOrigin,
    datagram: &[u8],
    batch: &mut Batch,
) -> Outcome
    requires time { time < 2 ^ 62 }
    requires empty { batch.old ≡ nothing }
    ensures taken { HasTaken repairer.old repairer.new time origin datagram.now batch.new }
    ensures outcome { result ≡ delivers repairer.old repairer.new None None }
    ensures options { repairer.new.options ≡ repairer.old.options }
{
    let first = repairer.arbiter().receiver().next();
    let _taken = repairer.take(time, origin, datagram, batch);
    Outcome {
        ask: None,
        lost: None,
        delivered: delivered(repairer, first),
    }
}

fn poll(repairer: &mut Repairer, time: u64, batch: &Batch) -> Outcome
    requires time { time < 2 ^ 62 }
    requires empty { batch.now ≡ nothing }
    ensures polled { HasPolledOnce repairer.old repairer.new time batch.now result }
    ensures options { repairer.new.options ≡ repairer.old.options }
{
    let first = repairer.arbiter().receiver().next();
    let ask = repairer.poll(time);
    Outcome {
        ask,
        lost: None,
        delivered: delivered(repairer, first),
    }
}

fn lose(repairer: &mut Repairer, time: u64, batch: &mut Batch) -> Outcome
    requires time { time < 2 ^ 62 }
    requires empty { batch.old ≡ nothing }
    ensures lost { HasLostSome repairer.old repairer.new time batch.new result
        ⊎ HasWaited repairer.old repairer.new time batch.new result }
    ensures options { repairer.new.options ≡ repairer.old.options }
{
    let first = repairer.arbiter().receiver().next();
    match repairer.lost(time, batch) {
        Ok(lost) => Outcome {
            ask: None,
            lost,
            delivered: delivered(repairer, after_lost(first, lost)),
        },
        Err(_) => Outcome {
            ask: None,
            lost: None,
            delivered: delivered(repairer, first),
        },
    }
}

fn pass(repairer: &mut Repairer, time: u64, batch: &Batch) -> Outcome
    requires time { time < 2 ^ 62 }
    requires empty { batch.now ≡ nothing }
    ensures waited { HasWaited repairer.old repairer.new time batch.now result }
    ensures options { repairer.new.options ≡ repairer.old.options }
{
    let first = repairer.arbiter().receiver().next();
    let _deadline = repairer.deadline(time);
    Outcome {
        ask: None,
        lost: None,
        delivered: delivered(repairer, first),
    }
}

/// Applies a step: one of the repairer's calls. The batch is cleared before. Afterwards it has the messages that the
/// step delivered.
pub fn apply(repairer: &mut Repairer, step: RepairStep<'_>, batch: &mut Batch) -> Outcome
    requires { can_step step ≡ true }
    ensures stepped { HasStepped repairer.old repairer.new step.entry batch.new result }
    ensures options { repairer.new.options ≡ repairer.old.options }
{
    batch.clear();
    match step {
        RepairStep::Take {
            time,
            origin,
            datagram,
        } => take(repairer, time, origin, datagram, batch),
        RepairStep::Poll { time } => poll(repairer, time, batch),
        RepairStep::Lost { time } => lose(repairer, time, batch),
        RepairStep::Pass { time } => pass(repairer, time, batch),
    }
}

/// Applies the steps one after the other. Returns an outcome for each. The batch then has the messages that the last
/// step delivered. If the allocation of the outcomes fails, no step is applied.
pub fn run(
    repairer: &mut Repairer,
    alloc: Global,
    steps: &[RepairStep<'_>],
    batch: &mut Batch,
) -> Result<Vec<Outcome>, AllocError>
    requires { list_all can_step steps.now ≡ true }
    ensures ran { IfOk result (λ outcomes. IsRepaired repairer.old repairer.new steps.now outcomes.items) }
    ensures same { OnErr result (repairer.new ≡ repairer.old) }
{
    let mut outcomes = Vec::with_capacity(alloc, steps.len())?;
    for step in steps {
        let outcome = apply(repairer, *step, batch);
        outcomes.push_reserved(outcome);
    }
    Ok(outcomes)
}
