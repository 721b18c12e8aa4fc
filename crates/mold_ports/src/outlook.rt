//! The states of a UDP port that is beside other ports. The state decides what its next receive does first.

ghost use Rattle.std.specs.Prelude.{◌≡◌};
ghost use Rattle.mold_ports.specs.Outlook.{after_nothing, after_sent};

/// What the next receive of a port beside other ports does first. Sends and receives change the state:
///
/// | State | Next receive | A send succeeds | A receive gives a datagram | A receive gives none, or fails |
/// |---|---|---|---|---|
/// | `Quiet` | waits for a datagram at this port or at one beside it | `Asking` | `Busy` | `Quiet` |
/// | `Busy` | looks without waiting, then waits as `Quiet` | `Asking` | `Busy` | `Quiet` |
/// | `Asking` | waits for a response at this port only, then waits as `Quiet` | `Asking` | `Busy` | `Unanswered` |
/// | `Unanswered` | waits as `Quiet` | `Unanswered` | `Busy` | `Unanswered` |
///
/// A send that fails does not change the state. A new port is `Quiet`.
#[derive(Clone, Copy)]
pub enum Outlook {
    /// The last receive gave nothing.
    Quiet,
    /// The last receive gave a datagram, and the next one may be here already.
    Busy,
    /// A datagram was sent, and a response to it is expected.
    Asking,
    /// The last wait for a response gave nothing. Another send does not start a new wait for a response until a
    /// datagram was received.
    Unanswered,
}

impl Outlook {
    // The state after a datagram was sent.
    pub(crate) fn after_sent(self) -> Outlook
        ensures { result ≡ after_sent self }
    {
        match self {
            Outlook::Quiet | Outlook::Busy | Outlook::Asking => Outlook::Asking,
            Outlook::Unanswered => Outlook::Unanswered,
        }
    }

    // The state after a receive that gave no datagram.
    pub(crate) fn after_nothing(self) -> Outlook
        ensures { result ≡ after_nothing self }
    {
        match self {
            Outlook::Quiet | Outlook::Busy => Outlook::Quiet,
            Outlook::Asking | Outlook::Unanswered => Outlook::Unanswered,
        }
    }
}
