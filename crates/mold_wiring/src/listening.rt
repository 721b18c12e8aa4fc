//! The parts of the command `listen`.

ghost use Rattle.std.specs.Prelude.{◌≡◌, IfOk};
ghost use Rattle.mold_wiring.specs.Wiring.{arbiter_of};

use mold_receiver::{Arbiter, Receiver};
use mold_wire::Session;
use mold_words::ListenOrder;
use std::alloc::{AllocError, Global};

/// Returns the arbiter that the order asks for. The numbers of an order are in range, so an error means out of memory.
pub fn make_arbiter(alloc: Global, order: &ListenOrder) -> Result<Arbiter, AllocError>
    ensures { IfOk result (λ arbiter. arbiter ≡ arbiter_of order.now) }
{
    match Receiver::new(alloc, Session(order.session), order.next, order.window) {
        Ok(receiver) => Ok(Arbiter::new(receiver)),
        Err(_) => Err(AllocError),
    }
}
