//! The lines of a publisher.

ghost use Rattle.std.specs.Prelude.{◌≡◌, [], ◌∷◌, true, replicate};
ghost use Rattle.mold_feeder.specs.FeedLines.{SendsOn, lines_at};

use crate::send_counts::LineCounts;
use mold_port_set::PortSet;

/// The addresses of a publisher's lines. Line A is sent from the port with index 0 of a set of ports, and line B from
/// the port with index 1.
#[derive(Clone, Copy)]
pub struct FeedLines<P: Copy> {
    /// The address of line A.
    pub a: P,
    /// The address of line B, if there is a line B.
    pub b: Option<P>,
}

/// Sends a datagram on line A, and then on line B if there is one. The ports count a failure, and `counts` each send.
pub fn send_on_lines<L: PortSet>(
    ports: &mut L,
    lines: &FeedLines<L::Peer>,
    counts: &mut LineCounts,
    datagram: &[u8],
)
    ensures sends { L.modeled ≡ true → SendsOn lines.now (datagram.now ∷ [])
        (lines_at (L.state ports.old).sent counts.old) (lines_at (L.state ports.new).sent counts.new) }
    ensures given { L.modeled ≡ true → (L.state ports.new).given ≡ (L.state ports.old).given }
    ensures clock { (L.state ports.new).now ≡ (L.state ports.old).now }
{
    let sent = ports.send(0, lines.a, datagram);
    counts.a.note(sent.is_err());
    if let Some(b) = lines.b {
        let sent = ports.send(1, b, datagram);
        counts.b.note(sent.is_err());
    }
}

/// Sends a datagram `times` times, each time on line A and then on line B.
pub fn send_often<L: PortSet>(
    ports: &mut L,
    lines: &FeedLines<L::Peer>,
    counts: &mut LineCounts,
    datagram: &[u8],
    times: u32,
)
    ensures sends { L.modeled ≡ true → SendsOn lines.now (replicate times datagram.now)
        (lines_at (L.state ports.old).sent counts.old) (lines_at (L.state ports.new).sent counts.new) }
    ensures given { L.modeled ≡ true → (L.state ports.new).given ≡ (L.state ports.old).given }
    ensures clock { (L.state ports.new).now ≡ (L.state ports.old).now }
{
    for _time in 0..times {
        send_on_lines(ports, lines, counts, datagram);
    }
}
