//! Makes the options and parts of a loop from the parsed command line.

ghost use Rattle.mold_wire.specs.declared.limits.TheConstants.{MESSAGE_OVERHEAD};
ghost use Rattle.std.specs.Prelude.{◌≡◌, ◌-◌, ◌≤◌, IfOk};
ghost use Rattle.mold_loop.specs.Ordered.{drops_of, loop_arbiter_of, loop_publisher_of, loop_server_of};
ghost use Rattle.mold_publish.specs.Publishing.{HasRoom};
ghost use Rattle.mold_turns.specs.Outgoing.{nothing_in};

use crate::loop_parts::{Drops, Listener, LoopOptions, LoopParts, LoopPeers};
use mold_listen::Printer;
use mold_receiver::{Arbiter, Receiver};
use mold_session::{Publisher, Server};
use mold_wire::Session;
use mold_wire::laws::packet_length_law;
use mold_wiring::longest_message;
use mold_words::LoopOrder;
use std::alloc::{AllocError, Global};

// The limit is in its range, so only an allocation can fail.
fn make_publisher(alloc: Global, order: &LoopOrder) -> Result<Publisher, AllocError>
    ensures made { IfOk result (λ publisher. publisher ≡ loop_publisher_of order.now) }
    ensures room { IfOk result (λ publisher. HasRoom publisher) }
    ensures longest { IfOk result (λ publisher.
        publisher.journal.max_message ≡ order.now.limits.limit - MESSAGE_OVERHEAD) }
{
    packet_length_law();
    match Publisher::new(alloc, Session(order.session), order.limits.limit) {
        Ok(publisher) => Ok(publisher),
        Err(_) => Err(AllocError),
    }
}

// The limits and the burst are in their ranges, so only an allocation can fail.
fn make_server(alloc: Global, order: &LoopOrder) -> Result<Server, AllocError>
    ensures made { IfOk result (λ server. server ≡ loop_server_of order.now) }
    ensures longest { IfOk result (λ server. server.max_message ≡ order.now.limits.limit - MESSAGE_OVERHEAD) }
{
    let limits = order.limits;
    let longest = longest_message(limits.limit);
    match Server::new(alloc, limits.server_limit, longest, order.burst) {
        Ok(server) => Ok(server),
        Err(_) => Err(AllocError),
    }
}

// The listener starts at message 1 and has nothing to print. It prints in the order's format. The window is in its
// range, so only an allocation can fail.
fn make_listener(alloc: Global, order: &LoopOrder) -> Result<Listener, AllocError>
    ensures arbiter { IfOk result (λ listener. listener.arbiter ≡ loop_arbiter_of order.now) }
    ensures printer { IfOk result (λ listener. listener.printer.outgoing ≡ nothing_in order.now.format) }
{
    match Receiver::new(alloc, Session(order.session), 1, order.window) {
        Ok(receiver) => Ok(Listener {
            arbiter: Arbiter::new(receiver),
            printer: Printer::new(alloc, order.format),
        }),
        Err(_) => Err(AllocError),
    }
}

// Returns the data packets that each line leaves out.
fn make_drops(order: &LoopOrder) -> Drops
    ensures { result ≡ drops_of order.now }
{
    Drops {
        a: order.drop_a,
        b: order.drop_b,
    }
}

/// Returns the options of the order's loop. `peers` are the addresses that its ports receive at.
pub fn loop_options<P: Copy>(order: &LoopOrder, peers: LoopPeers<P>) -> LoopOptions<P>
    ensures peers { result.peers ≡ peers }
    ensures drops { result.drops ≡ drops_of order.now }
    ensures turns { result.turns ≡ order.now.turns }
    ensures reporting { result.reporting ≡ order.now.report }
{
    LoopOptions {
        peers,
        drops: make_drops(order),
        turns: order.turns,
        reporting: order.report,
    }
}

/// Returns the publisher, the server and the listener of the order. The listener starts at message 1.
pub fn make_parts(alloc: Global, order: &LoopOrder) -> Result<LoopParts, AllocError>
    ensures publisher { IfOk result (λ parts. parts.publisher ≡ loop_publisher_of order.now) }
    ensures server { IfOk result (λ parts. parts.server ≡ loop_server_of order.now) }
    ensures arbiter { IfOk result (λ parts. parts.listener.arbiter ≡ loop_arbiter_of order.now) }
    ensures printer { IfOk result (λ parts. parts.listener.printer.outgoing ≡ nothing_in order.now.format) }
    ensures room { IfOk result (λ parts. HasRoom parts.publisher) }
    ensures longest { IfOk result (λ parts. parts.publisher.journal.max_message ≤ parts.server.max_message) }
{
    let publisher = make_publisher(alloc, order)?;
    let server = make_server(alloc, order)?;
    let listener = make_listener(alloc, order)?;
    Ok(LoopParts {
        alloc,
        publisher,
        server,
        listener,
    })
}
