//! One round of catching up: a request for missing messages, and the responses to it.

ghost use Rattle.std.specs.Prelude.{◌≡◌, ◌+◌, ◌≤◌, ◌<◌, Some, length, IfOk, OnOk, OnErr};
ghost use Rattle.mold_receiver.specs.Batch.{Follows, followed_by};
ghost use Rattle.mold_receiver.specs.View.{IsWellFormed};
ghost use Rattle.mold_receiver.specs.Wanted.{wanted};
ghost use Rattle.mold_rounds.specs.CatchUp.{IsPartOfRound, filled};
ghost use Rattle.mold_rounds.specs.Rounds.{rounds};
ghost use Rattle.mold_rounds.specs.Taking.{Awaits, IsAhead, IsRound, TakesNext};
ghost use Rattle.mold_session.specs.Answer.{planned};
ghost use Rattle.mold_session.specs.Server.{IsServer, counted};

use crate::memory::Memory;
use mold_receiver::laws::{followed_law, round_law, wanted_law};
use mold_receiver::{Batch, Receiver, Refusal};
use mold_rule::laws::ranges_walk_law;
use mold_session::laws::{
    answer_not_empty_law, answered_law, first_part_law, packing_law, planned_law,
};
use mold_session::{Journal, Plan, Server};
use mold_wire::Request;
use mold_wire::laws::{front_law, one_spelling_law, true_packet_law};

/// Takes the next response of a plan. If the plan has none left, it returns false and changes nothing. After an
/// error, only the plan may have changed.
pub fn take_next(
    receiver: &mut Receiver,
    server: &mut Server,
    journal: &Journal,
    plan: &mut Plan,
    batch: &mut Batch,
) -> Result<bool, Memory>
    requires awaits { Awaits receiver.old journal.now plan.old }
    requires longest { journal.now.max_message ≤ server.old.max_message }
    requires follows { Follows batch.old receiver.old.next }
    ensures taken { IfOk result (λ more. TakesNext more receiver.old batch.old journal.now server.old.limit plan.old
        receiver.new batch.new plan.new) }
    ensures server { server.new ≡ server.old }
    ensures left { OnErr result (0 < length (planned journal.now.messages server.old.limit plan.old)) }
    ensures receiver { OnErr result (receiver.new ≡ receiver.old) }
    ensures batch { OnErr result (batch.new ≡ batch.old) }
{
    answer_not_empty_law();
    one_spelling_law();
    planned_law();
    round_law();
    true_packet_law();
    let Some(datagram) = server.datagram(journal, plan) else {
        return Ok(false);
    };
    match receiver.take(datagram, batch) {
        Ok(_) => Ok(true),
        Err(error) => match error {
            Refusal::Memory => Err(Memory),
            // The datagram is true of the session, so no other refusal applies.
            _ => unreachable!(),
        },
    }
}

/// Requests what the receiver wants and takes all responses in order. After an error, it has taken a prefix of them.
pub fn take_round(
    receiver: &mut Receiver,
    server: &mut Server,
    journal: &Journal,
    request: &Request,
    batch: &mut Batch,
) -> Result<(), Memory>
    requires wanted { wanted receiver.old ≡ Some request.now }
    requires well_formed { IsWellFormed receiver.old }
    requires session { receiver.old.session ≡ journal.now.session }
    requires known { receiver.old.known ≤ length journal.now.messages + 1 }
    requires longest { journal.now.max_message ≤ server.old.max_message }
    requires follows { Follows batch.old receiver.old.next }
    ensures some { 0 < rounds receiver.old journal.now.messages server.old.limit server.old.burst }
    ensures counted { server.new ≡ counted server.old }
    ensures server { IsServer server.old }
    ensures ahead { IsAhead receiver.old receiver.new }
    ensures batch { batch.new ≡ followed_by batch.old receiver.old.next
        (filled receiver.old journal.now.messages receiver.new.next) }
    ensures round { OnOk result
        (IsRound receiver.old journal.now.messages server.old.limit server.old.burst receiver.new) }
    ensures part { OnErr result
        (IsPartOfRound receiver.old journal.now.messages server.old.limit server.old.burst receiver.new) }
{
    answer_not_empty_law();
    answered_law();
    first_part_law();
    followed_law();
    front_law();
    packing_law();
    ranges_walk_law();
    wanted_law();
    let mut plan = server.plan(journal, &request.encode()).unwrap();
    while take_next(receiver, server, journal, &mut plan, batch)? {}
    Ok(())
}
