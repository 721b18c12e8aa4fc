//! What a repairer's handle holds: the repairer, and the batch of the messages that it delivered.

ghost use Rattle.std.specs.Prelude.{◌≡◌};
ghost use Rattle.mold_receiver.specs.Batch.{Follows};
ghost use Rattle.mold_ffi.specs.Repairer.Followed.{FollowsIn-prop};

use crate::checker::mold_range::MoldRange;
use crate::code::{ABSENT, BATCH, DONE, MEMORY, NEXT_ZERO, OPTIONS, WINDOW};
use crate::listener::mold_taken::MoldTaken;
use crate::listener::room::room_of;
use crate::repairer::mold_repair_options::MoldRepairOptions;
use crate::repairer::mold_repair_stats::MoldRepairStats;
use mold_receiver::laws::{followed_law, taken_law};
use mold_receiver::{Arbiter, Batch, Receiver, ReceiverError};
use mold_repair::{RepairError, RepairOrigin, Repairer};
use mold_wire::Session;
use std::alloc::Global;

/// A repairer, and the batch of the messages that it delivered since the last `clear`.
#[derive(Drop)]
pub struct BatchedRepairer {
    /// The repairer.
    pub(crate) repairer: Repairer,
    /// The batch.
    pub(crate) batch: Batch,
    /// The number of servers.
    pub(crate) servers: u32,
    ghost followed: { Follows batch repairer.arbiter.view.next } by { FollowsIn-prop batch.first batch.messages repairer.arbiter.view.next },
    ghost served: { servers ≡ repairer.options.servers },
}

impl BatchedRepairer {
    ghost use Rattle.std.specs.Prelude.{◌<◌, ◌^◌, ◌-◌, [], true, false, Some, IfErr, IfOk, OnOk, OnErr};
    ghost use Rattle.mold_receiver.specs.View.{IsRoom, IsWideWindow};
    ghost use Rattle.mold_ffi.specs.Listener.Room.{room_of};
    ghost use Rattle.mold_ffi.specs.Repairer.BatchedRepairer.{IsCleared, IsFresh};
    ghost use Rattle.mold_ffi.specs.Repairer.Calls.{HasDeadlineAt, LosesAt, PollsAt, TakesAt};
    ghost use Rattle.mold_ffi.specs.Repairer.MoldRepairOptions.{are_fields};
    ghost use Rattle.mold_ffi.specs.Repairer.MoldRepairStats.{AreStatsOf};
    ghost use Rattle.mold_ffi.specs.declared.code.TheConstants as codes;
    ghost use Rattle.mold_ffi.specs.declared.handle.held.Held.TheVariants.{Repairer as ARepairer};

    /// A repairer with these options, or the code of the first reason why it cannot be made.
    pub(crate) fn new(
        alloc: Global,
        session: Session,
        fields: &MoldRepairOptions,
    ) -> Result<BatchedRepairer, u32>
        ensures made { IfOk result (IsFresh session fields.now) }
        ensures options { are_fields fields.now ≡ false → IfErr result (λ code. code ≡ codes.OPTIONS) }
        ensures zero { are_fields fields.now ≡ true → fields.now.next ≡ 0 →
            IfErr result (λ code. code ≡ codes.NEXT_ZERO) }
        ensures window { are_fields fields.now ≡ true → 0 < fields.now.next → (IsWideWindow fields.now.window → ⊥) →
            IfErr result (λ code. code ≡ codes.WINDOW) }
        ensures store { are_fields fields.now ≡ true → 0 < fields.now.next → IsWideWindow fields.now.window →
            (IsRoom (room_of fields.now.store) → ⊥) → IfErr result (λ code. code ≡ codes.OPTIONS) }
        ensures memory { are_fields fields.now ≡ true → 0 < fields.now.next → IsWideWindow fields.now.window →
            IsRoom (room_of fields.now.store) → IfErr result (λ code. code ≡ codes.MEMORY) }
        ensures ok { OnOk result (are_fields fields.now ≡ true) }
        ensures begins { OnOk result (0 < fields.now.next) }
        ensures wide { OnOk result (IsWideWindow fields.now.window) }
        ensures room { OnOk result (IsRoom (room_of fields.now.store)) }
    {
        if !fields.are_valid() {
            return Err(OPTIONS);
        }
        let room = room_of(fields.store);
        let receiver = match Receiver::bounded(alloc, session, fields.next, fields.window, room) {
            Ok(receiver) => receiver,
            Err(ReceiverError::NextZero) => return Err(NEXT_ZERO),
            Err(ReceiverError::Window) => return Err(WINDOW),
            Err(ReceiverError::Store) => return Err(OPTIONS),
            Err(ReceiverError::Memory) => return Err(MEMORY),
        };
        match Repairer::new(alloc, Arbiter::new(receiver), fields.options()) {
            Ok(repairer) => Ok(BatchedRepairer {
                repairer,
                batch: Batch::new(alloc),
                servers: fields.servers,
            }),
            Err(RepairError::Options) => Err(OPTIONS),
            Err(RepairError::Memory) => Err(MEMORY),
        }
    }

    /// Takes a datagram at the time `now`. The messages that are delivered join the batch.
    pub(crate) fn take(
        &mut self,
        now: u64,
        origin: RepairOrigin,
        bytes: &[u8],
        taken: &mut MoldTaken,
    ) -> u32
        requires { now < 2 ^ 62 }
        ensures { TakesAt now origin bytes.now self.old taken.old.unused result taken.new (Some (ARepairer self.new)) }
    {
        taken_law();
        followed_law();
        match self.repairer.take(now, origin, bytes, &mut self.batch) {
            Ok(counts) => {
                taken.write_taken(counts);
                DONE
            }
            Err(refused) => taken.write_refused(refused),
        }
    }

    /// Writes the next request that may be sent at the time `now`, and its server.
    pub(crate) fn poll(&mut self, now: u64, request: &mut [u8; 20], server: &mut u32) -> u32
        requires { now < 2 ^ 62 }
        ensures { PollsAt now self.old result request.old request.new server.old server.new
            (Some (ARepairer self.new)) }
    {
        match self.repairer.poll(now) {
            Some(ask) => {
                *request = ask.request.encode();
                *server = ask.server;
                DONE
            }
            None => ABSENT,
        }
    }

    /// Writes the deadline at the time `now`, if a message is missing.
    pub(crate) fn deadline(&mut self, now: u64, deadline: &mut u64) -> u32
        requires { now < 2 ^ 62 }
        ensures { HasDeadlineAt now self.old result deadline.old deadline.new (Some (ARepairer self.new)) }
    {
        let receiver = self.repairer.arbiter().receiver();
        let is_missing = receiver.next() != receiver.known();
        let found = self.repairer.deadline(now);
        if !is_missing {
            return ABSENT;
        }
        match found {
            Some(time) => {
                *deadline = time;
                DONE
            }
            None => ABSENT,
        }
    }

    /// Gives up the messages that are to be given up at the time `now`, and writes their numbers. The batch must be
    /// empty, and gets the stored messages that follow.
    pub(crate) fn lost(&mut self, now: u64, lost: &mut MoldRange) -> u32
        requires { now < 2 ^ 62 }
        ensures { LosesAt now self.old result lost.old lost.new (Some (ARepairer self.new)) }
    {
        followed_law();
        if self.batch.len() > 0 {
            return BATCH;
        }
        match self.repairer.lost(now, &mut self.batch) {
            Ok(Some(gap)) => {
                *lost = MoldRange {
                    first: gap.first,
                    last: gap.end - 1,
                };
                DONE
            }
            Ok(None) => ABSENT,
            Err(_) => MEMORY,
        }
    }

    /// Writes the statistics.
    pub(crate) fn stats(&self, stats: &mut MoldRepairStats)
        ensures { AreStatsOf self.now.repairer stats.new }
    {
        *stats = MoldRepairStats::of(&self.repairer.stats());
    }

    /// The arbiter.
    pub(crate) fn arbiter(&self) -> &Arbiter
        ensures { result.now ≡ self.now.repairer.arbiter }
    {
        self.repairer.arbiter()
    }

    /// The messages that were delivered since the last `clear`.
    pub(crate) fn batch(&self) -> &Batch
        ensures { result.now ≡ self.now.batch }
    {
        &self.batch
    }

    /// Empties the batch, and keeps its memory.
    pub(crate) fn clear(&mut self)
        ensures { IsCleared self.old self.new }
    {
        self.batch.clear();
    }
}
