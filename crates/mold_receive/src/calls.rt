//! The calls of the repairer that a turn makes, each as one step of a run.

ghost use Rattle.std.specs.Prelude.{◌≡◌, ◌⊎◌, ◌<◌, ◌^◌, None, IfErr, IfOk, OnErr};
ghost use Rattle.mold_repair.specs.Run.{HasLostSome, HasPolledOnce, HasTaken, HasWaited, delivers, nothing};

use mold_pacing::Gap;
use mold_receiver::{Batch, Refusal};
use mold_repair::{Ask, RepairOrigin, Repairer};
use std::alloc::AllocError;

/// Takes a datagram into an empty batch.
pub(crate) fn take(
    repairer: &mut Repairer,
    time: u64,
    origin: RepairOrigin,
    datagram: &[u8],
    batch: &mut Batch,
) -> Result<(), Refusal>
    requires time { time < 2 ^ 62 }
    requires empty { batch.old ≡ nothing }
    ensures taken { HasTaken repairer.old repairer.new time origin datagram.now batch.new }
    ensures refused { OnErr result (batch.new ≡ nothing) }
    ensures options { repairer.new.options ≡ repairer.old.options }
{
    repairer.take(time, origin, datagram, batch)?;
    Ok(())
}

/// Polls once.
pub(crate) fn poll(repairer: &mut Repairer, time: u64) -> Option<Ask>
    requires { time < 2 ^ 62 }
    ensures polled { HasPolledOnce repairer.old repairer.new time nothing (delivers repairer.old repairer.new result None) }
    ensures options { repairer.new.options ≡ repairer.old.options }
{
    repairer.poll(time)
}

/// Gives up the first missing messages, if that is due. What was stored after them is put into an empty batch.
pub(crate) fn lost(
    repairer: &mut Repairer,
    time: u64,
    batch: &mut Batch,
) -> Result<Option<Gap>, AllocError>
    requires time { time < 2 ^ 62 }
    requires empty { batch.old ≡ nothing }
    ensures lost { IfOk result (λ lost.
        HasLostSome repairer.old repairer.new time batch.new (delivers repairer.old repairer.new None lost)) }
    ensures waited { OnErr result
        (HasWaited repairer.old repairer.new time batch.new (delivers repairer.old repairer.new None None)) }
    ensures options { repairer.new.options ≡ repairer.old.options }
{
    repairer.lost(time, batch)
}

/// Lets the time pass. Returns when to call `lost` and `poll` next, as `Repairer::deadline` does.
pub(crate) fn pass(repairer: &mut Repairer, time: u64) -> Option<u64>
    requires { time < 2 ^ 62 }
    ensures waited { HasWaited repairer.old repairer.new time nothing (delivers repairer.old repairer.new None None) }
    ensures options { repairer.new.options ≡ repairer.old.options }
{
    repairer.deadline(time)
}
