//! The parts of the command `receive`.

ghost use Rattle.std.specs.Prelude.{◌≡◌, ◌<◌, IfErr, IfOk, true};
ghost use Rattle.mold_repair.specs.Options.{are_options};
ghost use Rattle.mold_wiring.specs.Receiving.{HasRepairerOf, repair_options, request_bucket, request_interval};

use mold_receiver::{Arbiter, Receiver};
use mold_repair::{RepairOptions, Repairer};
use mold_wire::Session;
use mold_words::ReceiveOrder;
use std::alloc::{AllocError, Global};

const NANOS_PER_SECOND: u64 = 1_000_000_000;

const NANOS_PER_MILLI: u64 = 1_000_000;

const NANOS_PER_MICRO: u64 = 1000;

const BYTES_PER_MIB: u64 = 1_048_576;

/// The most requests that may be sent at once, whatever the order allows in a second.
const MOST_AT_ONCE: u32 = 32;

/// Of the requests that the order allows in a second, one in this many may be sent at once.
const AT_ONCE_PART: u32 = 8;

/// How long a request stays in flight after a response that did not bring all of its numbers, in nanoseconds.
const SETTLE: u64 = 2 * NANOS_PER_MILLI;

// Returns how many requests may be sent at once, if this number may be sent in a second.
fn request_bucket(requests: u32) -> u32
    ensures { result ≡ request_bucket requests }
{
    (requests / AT_ONCE_PART).min(MOST_AT_ONCE).max(1)
}

// Returns the time after which another request may be sent, in nanoseconds, rounded up.
fn request_interval(requests: u32) -> u64
    ensures { result ≡ request_interval requests }
{
    let others = u64::from(requests.saturating_sub(request_bucket(requests)));
    (NANOS_PER_SECOND + others) / (others + 1)
}

/// Returns the options of the repairer that the order asks for.
pub fn repair_options(order: &ReceiveOrder) -> RepairOptions
    ensures value { result ≡ repair_options order.now }
    ensures valid { are_options result ≡ true }
{
    RepairOptions {
        patience: u64::from(order.patience) * NANOS_PER_MICRO,
        timeout: u64::from(order.timeout) * NANOS_PER_MILLI,
        ceiling: u64::from(order.ceiling) * NANOS_PER_MILLI,
        settle: SETTLE,
        interval: request_interval(order.requests),
        bucket: request_bucket(order.requests),
        places: order.in_flight,
        servers: order.servers.len() as u32,
        give_up: order.give_up,
        audit: order.audit,
    }
}

/// Returns the repairer that the order asks for, of this session and from the number `next` on. The numbers of an order
/// are in range, so an error means out of memory, or that `next` is 0.
pub fn make_repairer(
    alloc: Global,
    order: &ReceiveOrder,
    session: Session,
    next: u64,
) -> Result<Repairer, AllocError>
    ensures { IfOk result (HasRepairerOf order.now session next) }
{
    let store = u64::from(order.store) * BYTES_PER_MIB;
    let Ok(receiver) = Receiver::bounded(alloc, session, next, order.window, Some(store)) else {
        return Err(AllocError);
    };
    match Repairer::new(alloc, Arbiter::new(receiver), repair_options(order)) {
        Ok(repairer) => Ok(repairer),
        Err(_) => Err(AllocError),
    }
}
