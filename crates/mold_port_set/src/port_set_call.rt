//! The calls of a set of ports that can fail.

ghost use Rattle.std.specs.Prelude.{◌≡◌};
ghost use Rattle.mold_port_set.specs.Memory.{is_receive};

/// A call of a set of ports that can fail.
#[derive(Clone, Copy, PartialEq, Eq)]
pub enum PortSetCall {
    /// A wait.
    Wait,
    /// A receive on a port.
    Receive { port: usize },
    /// A send from a port.
    Send { port: usize },
}

impl PortSetCall {
    // Whether the call is a receive.
    pub(crate) fn is_receive(self) -> bool
        ensures { result ≡ is_receive self }
    {
        matches!(self, PortSetCall::Receive { .. })
    }
}
