//! What a handle may hold.

use crate::listener::batched_arbiter::BatchedArbiter;
use crate::publisher::exchange::Exchange;
use crate::repairer::batched_repairer::BatchedRepairer;
use crate::server::serving::Serving;
use mold_capture::Checker;

/// What a handle may hold.
#[derive(Drop)]
pub(crate) enum Held {
    /// A listener.
    Listener(BatchedArbiter),
    /// A publisher, which may have a server.
    Publisher(Exchange),
    /// A server of a saved journal.
    Server(Serving),
    /// A checker.
    Checker(Checker),
    /// A repairer.
    Repairer(BatchedRepairer),
}
