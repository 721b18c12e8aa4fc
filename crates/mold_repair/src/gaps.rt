//! The missing messages that may be requested.

ghost use Rattle.std.specs.Prelude.{◌≡◌, ◌<◌, ◌≤◌, ℕ, true, IfNone, IfSome};
ghost use Rattle.mold_pacing.specs.Flight.{in_flight};
ghost use Rattle.mold_repair.specs.Front.{IsFront};
ghost use Rattle.mold_repair.specs.Gaps.{IsLimit};
ghost use Rattle.mold_repair.specs.Missing.{IsMissing};
ghost use Rattle.mold_repair.specs.Polls.{AreAllSent, IsFree, IsLeastFree};

use crate::front::Front;
use mold_pacing::{Cursor, Gap, Pacer};
use mold_receiver::Arbiter;

// Returns the number below which missing numbers may be requested.
fn limit_of(arbiter: &Arbiter, pacer: &Pacer) -> u64
    ensures { IsLimit arbiter.now.view pacer.now.state.ripe result }
{
    let receiver = arbiter.receiver();
    let past = receiver.next().saturating_add(u64::from(receiver.window()));
    past.min(receiver.known()).min(pacer.state().ripe)
}

// Returns the front if it holds now. Otherwise it is the number of the next message.
fn front_now(arbiter: &Arbiter, pacer: &Pacer, front: Front) -> Front
    requires front { IsFront arbiter.now.view pacer.now.flights.items front.number front.until }
    ensures sent { (time q : ℕ) → time < result.until → q < result.number → IsMissing arbiter.now.view q →
        in_flight time q pacer.now.flights.items ≡ true }
    ensures low { arbiter.now.view.next ≤ result.number }
    ensures later { pacer.now.state.now < result.until }
{
    let next = arbiter.receiver().next();
    if next <= front.number && pacer.state().now < front.until {
        return front;
    }
    Front {
        number: next,
        until: u64::MAX,
    }
}

// Returns the least number that may be requested and is not in flight, and the front. Each turn looks for a missing
// number between two requests in flight, so there is a turn for each request at most, however many gaps there are.
fn least_free(arbiter: &Arbiter, pacer: &Pacer, limit: u64, front: Front) -> (Option<u64>, Front)
    requires limit { IsLimit arbiter.now.view pacer.now.state.ripe limit }
    requires front { IsFront arbiter.now.view pacer.now.flights.items front.number front.until }
    ensures some { IfSome result.0 (IsLeastFree arbiter.now.view pacer.now) }
    ensures none { IfNone result.0 (AreAllSent arbiter.now.view pacer.now) }
    ensures front { IsFront arbiter.now.view pacer.now.flights.items result.1.number result.1.until }
    ensures later { pacer.now.state.now < result.1.until }
{
    let known = arbiter.receiver().known();
    let front = front_now(arbiter, pacer, front);
    let mut until = front.until;
    let mut from = pacer.cursor(front.number);
    while from.number < limit {
        let hole = pacer.hole(from);
        let first = arbiter.first_absent(hole.first);
        until = until.min(hole.until);
        if first < hole.end {
            let front = Front {
                number: first.min(known),
                until,
            };
            return if first < limit {
                (Some(first), front)
            } else {
                (None, front)
            };
        }
        from = Cursor {
            index: hole.index,
            number: hole.end,
        };
    }
    let front = Front {
        number: from.number.min(known),
        until,
    };
    (None, front)
}

/// What a search found: the gap, and the front for the next search.
#[derive(Clone, Copy)]
pub(crate) struct Found {
    pub(crate) gap: Option<Gap>,
    pub(crate) front: Front,
}

// Returns the gap that begins with this number, up to the limit.
fn gap_at(arbiter: &Arbiter, pacer: &Pacer, limit: u64, first: u64) -> Option<Gap>
    requires limit { IsLimit arbiter.now.view pacer.now.state.ripe limit }
    requires least { IsLeastFree arbiter.now.view pacer.now first }
    ensures some { IfSome result (IsFree arbiter.now.view pacer.now) }
    ensures none { IfNone result (AreAllSent arbiter.now.view pacer.now) }
{
    let gap = arbiter.next_missing(first)?;
    Some(Gap {
        first,
        end: gap.end.min(limit),
    })
}

/// Returns the gap that begins with the least number that may be requested and is not in flight. The search begins at
/// the front.
pub(crate) fn find_free(arbiter: &Arbiter, pacer: &Pacer, front: Front) -> Found
    requires { IsFront arbiter.now.view pacer.now.flights.items front.number front.until }
    ensures some { IfSome result.gap (IsFree arbiter.now.view pacer.now) }
    ensures none { IfNone result.gap (AreAllSent arbiter.now.view pacer.now) }
    ensures front { IsFront arbiter.now.view pacer.now.flights.items result.front.number result.front.until }
    ensures later { pacer.now.state.now < result.front.until }
{
    let limit = limit_of(arbiter, pacer);
    let (first, front) = least_free(arbiter, pacer, limit, front);
    let gap = match first {
        Some(first) => gap_at(arbiter, pacer, limit, first),
        None => None,
    };
    Found { gap, front }
}
