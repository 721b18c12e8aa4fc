//! The options of the loop, from the parsed command line.

ghost use Rattle.std.specs.Prelude.{◌≡◌};
ghost use Rattle.mold_feed_command.specs.Ports.{IsSecondLine};
ghost use Rattle.mold_wiring.specs.Addresses.{IsSocketOf};

use mold_feeder::{FeedEnd, FeedLines, FeedOptions};
use mold_wiring::socket_address;
use mold_words::FeedOrder;
use std::net::SocketAddrV4;

/// Returns the options of the loop that the order asks for. `resumed` states whether the journal file existed.
pub(crate) fn feed_options(order: &FeedOrder, resumed: bool) -> FeedOptions<SocketAddrV4>
    ensures a { IsSocketOf order.now.lines.a result.lines.a }
    ensures b { IsSecondLine order.now.lines.b result.lines.b }
    ensures beats { result.end.beats ≡ order.now.beats }
    ensures ends { result.end.ends ≡ order.now.ends }
    ensures open { result.end.stays_open ≡ order.now.open }
    ensures resumed { result.resumed ≡ resumed }
    ensures appends { result.appends ≡ order.now.append }
    ensures linger { result.linger ≡ order.now.times.linger }
{
    let b = match order.lines.b {
        Some(address) => Some(socket_address(address)),
        None => None,
    };
    FeedOptions {
        lines: FeedLines {
            a: socket_address(order.lines.a),
            b,
        },
        end: FeedEnd {
            beats: order.beats,
            ends: order.ends,
            stays_open: order.open,
        },
        resumed,
        appends: order.append,
        linger: order.times.linger,
    }
}
