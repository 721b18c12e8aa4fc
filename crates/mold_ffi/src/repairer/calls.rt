//! The calls on a repairer.

ghost use Rattle.std.specs.Prelude.{◌≡◌, ◌⊎◌, ◌<◌, ◌≤◌, ◌^◌, None, Some, is_some, true, false};
ghost use Rattle.mold_ffi.specs.Listener.Room.{room_of};
ghost use Rattle.mold_receiver.specs.View.{IsRoom, IsWideWindow};
ghost use Rattle.mold_repair.specs.declared.origin.RepairOrigin.{RepairOrigin as AnOrigin};
ghost use Rattle.mold_ffi.specs.Handle.Borrow.{IsNoRepairer};
ghost use Rattle.mold_ffi.specs.Repairer.BatchedRepairer.{IsFresh};
ghost use Rattle.mold_ffi.specs.Repairer.Calls.{HasDeadlineAt, HoldsRepairer, LosesAt, PollsAt, TakesAt};
ghost use Rattle.mold_ffi.specs.Repairer.MoldRepairOptions.{are_fields};
ghost use Rattle.mold_ffi.specs.Repairer.MoldRepairStats.{AreStatsOf};
ghost use Rattle.mold_ffi.specs.Repairer.Origin.{repair_origin_at};
ghost use Rattle.mold_ffi.specs.declared.code.TheConstants as codes;
ghost use Rattle.mold_ffi.specs.declared.handle.held.Held.TheVariants.{Repairer as ARepairer};
ghost use Rattle.mold_ffi.specs.declared.repairer.batched_repairer.BatchedRepairer.{BatchedRepairer as ABatchedRepairer};

use crate::checker::mold_range::MoldRange;
use crate::code::{BROKEN, DONE, LINE, TIME};
use crate::handle::held::Held;
use crate::handle::mold_handle::MoldHandle;
use crate::listener::mold_taken::MoldTaken;
use crate::repairer::batched_repairer::BatchedRepairer;
use crate::repairer::mold_repair_options::MoldRepairOptions;
use crate::repairer::mold_repair_stats::MoldRepairStats;
use crate::repairer::origin::repair_origin_of;
use mold_wire::Session;
use std::alloc::Global;

// The greatest time, in nanoseconds.
const MAX_TIME: u64 = (1 << 62) - 1;

/// Makes a repairer for a session. The handle must be empty.
#[unsafe(no_mangle)]
pub extern "C" fn mold_repairer_new(
    alloc: Global,
    repairer: &mut MoldHandle,
    session: &[u8; 10],
    options: &MoldRepairOptions,
) -> u32
    ensures full { is_some repairer.old.handle.value ≡ true →
        (result ≡ codes.BROKEN) × (repairer.new.handle.value ≡ repairer.old.handle.value) }
    ensures options { repairer.old.handle.value ≡ None → are_fields options.now ≡ false →
        (result ≡ codes.OPTIONS) × (repairer.new.handle.value ≡ None) }
    ensures zero { repairer.old.handle.value ≡ None → are_fields options.now ≡ true → options.now.next ≡ 0 →
        (result ≡ codes.NEXT_ZERO) × (repairer.new.handle.value ≡ None) }
    ensures window { repairer.old.handle.value ≡ None → are_fields options.now ≡ true → 0 < options.now.next →
        (IsWideWindow options.now.window → ⊥) → (result ≡ codes.WINDOW) × (repairer.new.handle.value ≡ None) }
    ensures store { repairer.old.handle.value ≡ None → are_fields options.now ≡ true → 0 < options.now.next →
        IsWideWindow options.now.window → (IsRoom (room_of options.now.store) → ⊥) →
        (result ≡ codes.OPTIONS) × (repairer.new.handle.value ≡ None) }
    ensures made { repairer.old.handle.value ≡ None → are_fields options.now ≡ true → 0 < options.now.next →
        IsWideWindow options.now.window → IsRoom (room_of options.now.store) →
        ((result ≡ codes.DONE)
        × HoldsRepairer repairer.new.handle.value (IsFresh (record { 0 = session.now }) options.now))
        ⊎ ((result ≡ codes.MEMORY) × (repairer.new.handle.value ≡ None)) }
{
    if repairer.live {
        return BROKEN;
    }
    match BatchedRepairer::new(alloc, Session(*session), options) {
        Ok(made) => repairer.hold(alloc, Held::Repairer(made)),
        Err(code) => code,
    }
}

/// Takes a datagram that arrived at the time `now`. `origin` is 0 for line A, 1 for line B, and 2 + k for a response of
/// server k. The messages that are delivered are added to the batch.
#[unsafe(no_mangle)]
pub extern "C" fn mold_repairer_take(
    repairer: &mut MoldHandle,
    now: u64,
    origin: u32,
    bytes: &[u8],
    taken: &mut MoldTaken,
) -> u32
    ensures takes { (timed : ABatchedRepairer) (from : AnOrigin) →
        repairer.old.handle.value ≡ Some (ARepairer timed) → repair_origin_at timed.servers origin ≡ Some from →
        now < 2 ^ 62 → TakesAt now from bytes.now timed taken.old.unused result taken.new repairer.new.handle.value }
    ensures line { (timed : ABatchedRepairer) → repairer.old.handle.value ≡ Some (ARepairer timed) →
        repair_origin_at timed.servers origin ≡ None → (result ≡ codes.LINE) × (taken.new ≡ taken.old)
        × (repairer.new.handle.value ≡ repairer.old.handle.value) }
    ensures time { (timed : ABatchedRepairer) (from : AnOrigin) →
        repairer.old.handle.value ≡ Some (ARepairer timed) → repair_origin_at timed.servers origin ≡ Some from →
        2 ^ 62 ≤ now → (result ≡ codes.TIME) × (taken.new ≡ taken.old)
        × (repairer.new.handle.value ≡ repairer.old.handle.value) }
    ensures broken { IsNoRepairer repairer.old.handle.value → (result ≡ codes.BROKEN) × (taken.new ≡ taken.old)
        × (repairer.new.handle.value ≡ repairer.old.handle.value) }
{
    if !repairer.live {
        return BROKEN;
    }
    let Held::Repairer(held) = repairer.handle.lend() else {
        return BROKEN;
    };
    let Some(from) = repair_origin_of(held.servers, origin) else {
        return LINE;
    };
    if now > MAX_TIME {
        return TIME;
    }
    held.take(now, from, bytes, taken)
}

/// Writes the next request that may be sent at the time `now`, and the index of its server. It counts as sent.
#[unsafe(no_mangle)]
pub extern "C" fn mold_repairer_poll(
    repairer: &mut MoldHandle,
    now: u64,
    request: &mut [u8; 20],
    server: &mut u32,
) -> u32
    ensures polls { (timed : ABatchedRepairer) → repairer.old.handle.value ≡ Some (ARepairer timed) → now < 2 ^ 62 →
        PollsAt now timed result request.old request.new server.old server.new repairer.new.handle.value }
    ensures time { (timed : ABatchedRepairer) → repairer.old.handle.value ≡ Some (ARepairer timed) → 2 ^ 62 ≤ now →
        (result ≡ codes.TIME) × (request.new ≡ request.old) × (server.new ≡ server.old)
        × (repairer.new.handle.value ≡ repairer.old.handle.value) }
    ensures broken { IsNoRepairer repairer.old.handle.value → (result ≡ codes.BROKEN)
        × (request.new ≡ request.old) × (server.new ≡ server.old)
        × (repairer.new.handle.value ≡ repairer.old.handle.value) }
{
    if !repairer.live {
        return BROKEN;
    }
    let Held::Repairer(held) = repairer.handle.lend() else {
        return BROKEN;
    };
    if now > MAX_TIME {
        return TIME;
    }
    held.poll(now, request, server)
}

/// Writes the time at which to poll next, if a message is missing and no datagram arrives before.
#[unsafe(no_mangle)]
pub extern "C" fn mold_repairer_deadline(
    repairer: &mut MoldHandle,
    now: u64,
    deadline: &mut u64,
) -> u32
    ensures deadline { (timed : ABatchedRepairer) → repairer.old.handle.value ≡ Some (ARepairer timed) →
        now < 2 ^ 62 → HasDeadlineAt now timed result deadline.old deadline.new repairer.new.handle.value }
    ensures time { (timed : ABatchedRepairer) → repairer.old.handle.value ≡ Some (ARepairer timed) → 2 ^ 62 ≤ now →
        (result ≡ codes.TIME) × (deadline.new ≡ deadline.old)
        × (repairer.new.handle.value ≡ repairer.old.handle.value) }
    ensures broken { IsNoRepairer repairer.old.handle.value → (result ≡ codes.BROKEN)
        × (deadline.new ≡ deadline.old) × (repairer.new.handle.value ≡ repairer.old.handle.value) }
{
    if !repairer.live {
        return BROKEN;
    }
    let Held::Repairer(held) = repairer.handle.lend() else {
        return BROKEN;
    };
    if now > MAX_TIME {
        return TIME;
    }
    held.deadline(now, deadline)
}

/// Gives up the messages that are to be given up at the time `now`, and writes their numbers. The batch must be empty,
/// and gets the stored messages that follow.
#[unsafe(no_mangle)]
pub extern "C" fn mold_repairer_lost(
    repairer: &mut MoldHandle,
    now: u64,
    lost: &mut MoldRange,
) -> u32
    ensures loses { (timed : ABatchedRepairer) → repairer.old.handle.value ≡ Some (ARepairer timed) → now < 2 ^ 62 →
        LosesAt now timed result lost.old lost.new repairer.new.handle.value }
    ensures time { (timed : ABatchedRepairer) → repairer.old.handle.value ≡ Some (ARepairer timed) → 2 ^ 62 ≤ now →
        (result ≡ codes.TIME) × (lost.new ≡ lost.old)
        × (repairer.new.handle.value ≡ repairer.old.handle.value) }
    ensures broken { IsNoRepairer repairer.old.handle.value → (result ≡ codes.BROKEN)
        × (lost.new ≡ lost.old) × (repairer.new.handle.value ≡ repairer.old.handle.value) }
{
    if !repairer.live {
        return BROKEN;
    }
    let Held::Repairer(held) = repairer.handle.lend() else {
        return BROKEN;
    };
    if now > MAX_TIME {
        return TIME;
    }
    held.lost(now, lost)
}

/// Writes the statistics.
#[unsafe(no_mangle)]
pub extern "C" fn mold_repairer_stats(repairer: &mut MoldHandle, stats: &mut MoldRepairStats) -> u32
    ensures stats { (timed : ABatchedRepairer) → repairer.old.handle.value ≡ Some (ARepairer timed) →
        (result ≡ codes.DONE) × AreStatsOf timed.repairer stats.new }
    ensures broken { IsNoRepairer repairer.old.handle.value → (result ≡ codes.BROKEN) × (stats.new ≡ stats.old) }
    ensures same { repairer.new.handle.value ≡ repairer.old.handle.value }
{
    if !repairer.live {
        return BROKEN;
    }
    let Held::Repairer(held) = repairer.handle.lend() else {
        return BROKEN;
    };
    held.stats(stats);
    DONE
}
