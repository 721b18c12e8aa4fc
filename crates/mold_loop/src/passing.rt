//! Sends a datagram of the loop's publisher on the lines that do not leave it out.

ghost use Rattle.std.specs.Prelude.{◌≡◌, true};
ghost use Rattle.mold_loop.specs.Looping.{ComesOf, ComesOfBoth};
ghost use Rattle.mold_loop.specs.Passing.{goes, routes_of};
ghost use Rattle.mold_turns.specs.Outgoing.{KeepsSide};

use crate::loop_parts::{Drops, Listener, LoopPeers, Routes};
use mold_ports::Datagrams;
use mold_turns::Outgoing;

// Whether data packet `number` is sent on a line that leaves out every `left_out`-th one. The first is number 1.
fn goes(left_out: u32, number: u64) -> bool
    ensures { result ≡ goes left_out number }
{
    left_out == 0 || number % u64::from(left_out) != 0
}

// Returns the lines that data packet `number` is sent on. The first is number 1.
pub(crate) fn routes_of(drops: Drops, number: u64) -> Routes
    ensures { result ≡ routes_of drops number }
{
    Routes {
        a: goes(drops.a, number),
        b: goes(drops.b, number),
    }
}

// Sends a datagram if `on` is true, and counts a failure. Returns whether it was sent.
fn is_sent<D: Datagrams>(
    port: &mut D,
    on: bool,
    to: D::Peer,
    datagram: &[u8],
    outgoing: &mut Outgoing,
) -> bool
    ensures comes { D.modeled ≡ true →
        ComesOf on result to datagram.now (D.port port.old) (D.port port.new) outgoing.old outgoing.new }
    ensures text { outgoing.new.text ≡ outgoing.old.text }
    ensures keeps { KeepsSide outgoing.old outgoing.new }
{
    if !on {
        return false;
    }
    if port.send(to, datagram).is_err() {
        outgoing.count_failure();
        return false;
    }
    true
}

// Sends a datagram on the lines of `routes`, A first. Returns the lines on which the send succeeded.
pub(crate) fn send_on<D: Datagrams>(
    port: &mut D,
    peers: &LoopPeers<D::Peer>,
    routes: Routes,
    datagram: &[u8],
    listener: &mut Listener,
) -> Routes
    ensures comes { D.modeled ≡ true → ComesOfBoth routes result peers.now.a peers.now.b datagram.now
        (D.port port.old) (D.port port.new) listener.old.printer.outgoing listener.new.printer.outgoing }
    ensures arbiter { listener.new.arbiter ≡ listener.old.arbiter }
    ensures text { listener.new.printer.outgoing.text ≡ listener.old.printer.outgoing.text }
    ensures keeps { KeepsSide listener.old.printer.outgoing listener.new.printer.outgoing }
{
    let outgoing = &mut listener.printer.outgoing;
    Routes {
        a: is_sent(port, routes.a, peers.a, datagram, outgoing),
        b: is_sent(port, routes.b, peers.b, datagram, outgoing),
    }
}
