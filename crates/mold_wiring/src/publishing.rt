//! The parts of the command `publish`.

ghost use Rattle.std.specs.Prelude.{◌≡◌, IfOk};
ghost use Rattle.mold_wiring.specs.Wiring.{publisher_of};

use mold_session::Publisher;
use mold_wire::Session;
use mold_words::PublishOrder;
use std::alloc::{AllocError, Global};

/// Returns the publisher that the order asks for. The limit of an order is in range, so an error means out of memory.
pub fn make_publisher(alloc: Global, order: &PublishOrder) -> Result<Publisher, AllocError>
    ensures { IfOk result (λ publisher. publisher ≡ publisher_of order.now) }
{
    match Publisher::new(alloc, Session(order.session), order.limit) {
        Ok(publisher) => Ok(publisher),
        Err(_) => Err(AllocError),
    }
}
