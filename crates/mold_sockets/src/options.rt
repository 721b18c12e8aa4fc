//! The options of the loops over sockets, from the parsed command lines.

ghost use Rattle.std.specs.Prelude.{◌≡◌, ◌-◌, ◌^◌};
ghost use Rattle.std.specs.Option.{option_map_or};
ghost use Rattle.mold_wiring.specs.Addresses.{IsPeerOf};

use mold_listen::ListenOptions;
use mold_send::PublishOptions;
use mold_wiring::peer_address;
use mold_words::{ListenOrder, PublishOrder, ServeOrder};
use std::net::SocketAddr;

/// Returns the options of the listener that the order asks for. Its server is at the order's address.
pub(crate) fn listen_options(order: &ListenOrder) -> ListenOptions<SocketAddr>
    ensures server { IsPeerOf order.now.server result.server }
    ensures burst { result.burst ≡ order.now.burst }
    ensures turns { result.turns ≡ order.now.turns }
    ensures reporting { result.reporting ≡ order.now.report }
    ensures format { result.format ≡ order.now.output }
{
    ListenOptions {
        server: peer_address(order.server),
        burst: order.burst,
        turns: u64::from(order.turns),
        reporting: order.report,
        format: order.output,
    }
}

/// Returns the options of the publisher that the order asks for. It sends each line to that line's address.
pub(crate) fn publish_options(order: &PublishOrder) -> PublishOptions<SocketAddr>
    ensures a { IsPeerOf order.now.a result.a }
    ensures b { IsPeerOf order.now.b result.b }
    ensures beats { result.beats ≡ order.now.beats }
    ensures ends { result.ends ≡ order.now.ends }
{
    PublishOptions {
        a: peer_address(order.a),
        b: peer_address(order.b),
        beats: order.beats,
        ends: order.ends,
    }
}

/// Returns the number of turns that the server makes. Without a bound it is `u64::MAX`, which no server reaches.
pub(crate) fn serve_turns(order: &ServeOrder) -> u64
    ensures { result ≡ option_map_or (λ turns. turns) order.now.turns (2 ^ 64 - 1) }
{
    match order.turns {
        Some(turns) => u64::from(turns),
        None => u64::MAX,
    }
}
