//! Datagrams that are sent on two lines.

ghost use Rattle.std.specs.Prelude.{◌≡◌, [], ◌∷◌, true, replicate};
ghost use Rattle.mold_send.specs.PublishLoop.{IsSameLines, Sends, SendsBoth, lines_state};
ghost use Rattle.mold_session.specs.Publisher.{IsPublisher};

use mold_ports::Datagrams;
use mold_session::Publisher;
use mold_turns::Outgoing;

/// A sender on two lines: the port, the address of each line, and the outgoing text and failures.
// The peers are borrowed for the prover. Beside a value whose type may hold a reference, it does not know the final
// values of the other references.
#[derive(Drop)]
pub(crate) struct TwoLines<'a, 'p, D: Datagrams> {
    pub(crate) port: &'a mut D,
    pub(crate) a: &'p D::Peer,
    pub(crate) b: &'p D::Peer,
    pub(crate) outgoing: &'a mut Outgoing,
}

impl<'a, 'p, D: Datagrams> TwoLines<'a, 'p, D> {
    // Sends a datagram, and counts a failure.
    fn send_one(&mut self, to: D::Peer, datagram: &[u8])
        ensures sends { D.modeled ≡ true →
            Sends ((to, datagram.now) ∷ []) (lines_state D.port self.old) (lines_state D.port self.new) }
        ensures same { IsSameLines self.old self.new }
    {
        if self.port.send(to, datagram).is_err() {
            self.outgoing.count_failure();
        }
    }

    /// Sends a datagram to `a` and then to `b`.
    pub(crate) fn send_both(&mut self, datagram: &[u8])
        ensures sends { D.modeled ≡ true → SendsBoth D.port (datagram.now ∷ []) self.old self.new }
        ensures same { IsSameLines self.old self.new }
    {
        self.send_one(*self.a, datagram);
        self.send_one(*self.b, datagram);
    }

    /// Sends a datagram `times` times, each time to `a` and then to `b`.
    pub(crate) fn send_often(&mut self, datagram: &[u8], times: u32)
        ensures sends { D.modeled ≡ true → SendsBoth D.port (replicate times datagram.now) self.old self.new }
        ensures same { IsSameLines self.old self.new }
    {
        for _time in 0..times {
            self.send_both(datagram);
        }
    }
}

/// Does nothing. A call makes the publisher's invariant known to the prover, which a law cannot do.
#[inline(always)]
pub fn publisher_holds(publisher: &Publisher)
    ensures { IsPublisher publisher.now }
{
    let _ = publisher.unsent();
}
