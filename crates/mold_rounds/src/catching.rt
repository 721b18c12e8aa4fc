//! Catching up, round by round, until the receiver misses nothing.

ghost use Rattle.std.specs.Prelude.{◌≡◌, ◌+◌, ◌≤◌, length, IfOk, OnOk, OnErr};
ghost use Rattle.mold_receiver.specs.Batch.{Follows, followed_by};
ghost use Rattle.mold_receiver.specs.Wanted.{missing};
ghost use Rattle.mold_rounds.specs.CatchUp.{IsStopped, caught_up, counted_by, filled};
ghost use Rattle.mold_rounds.specs.Rounds.{rounds};

use crate::memory::Memory;
use crate::rounding::take_round;
use mold_receiver::laws::{followed_law, wanted_law};
use mold_receiver::{Batch, Receiver};
use mold_rule::laws::ranges_walk_law;
use mold_session::{Journal, Server};

/// Brings a receiver up to date with its session's journal and returns the number of rounds. In each round, the
/// receiver takes all responses to the request that it wants, in order. The number of rounds is the least that the
/// gaps, the server's limit and its burst allow, and at most the number of missing messages. The delivered messages are
/// appended to the batch, and the cost of a round depends on its own messages only.
///
/// The receiver and the journal must be of one session, and the receiver's `known` at most one more than the number of
/// the journal's messages. The journal's maximum message length must not exceed the server's. The batch must be empty
/// or end just before the receiver's `next`.
///
/// The function stops early only if an allocation fails. The rounds before are then complete, and the receiver has
/// taken a prefix of the last round's responses. A further call continues from there.
pub fn catch_up(
    receiver: &mut Receiver,
    server: &mut Server,
    journal: &Journal,
    batch: &mut Batch,
) -> Result<u64, Memory>
    requires session { receiver.old.session ≡ journal.now.session }
    requires known { receiver.old.known ≤ length journal.now.messages + 1 }
    requires longest { journal.now.max_message ≤ server.old.max_message }
    requires follows { Follows batch.old receiver.old.next }

    // The number of rounds, and what they did.
    ensures rounds { IfOk result
        (λ count. count ≡ rounds receiver.old journal.now.messages server.old.limit server.old.burst) }
    ensures few { IfOk result (λ count. count ≤ missing receiver.old) }
    ensures whole { OnOk result (receiver.new ≡ caught_up receiver.old) }
    ensures served { IfOk result (λ count. server.new ≡ counted_by server.old count) }

    // What holds after success and after an error.
    ensures batch { batch.new ≡ followed_by batch.old receiver.old.next
        (filled receiver.old journal.now.messages receiver.new.next) }
    ensures known { receiver.new.known ≡ receiver.old.known }
    ensures ended { receiver.new.ended ≡ receiver.old.ended }

    // How far it got if an allocation failed.
    ensures stopped { OnErr result (IsStopped receiver.old journal.now server.old receiver.new server.new) }
{
    followed_law();
    ranges_walk_law();
    wanted_law();
    let mut count = 0u64;
    while let Some(request) = receiver.wanted() {
        take_round(receiver, server, journal, &request, batch)?;
        count += 1;
    }
    Ok(count)
}
