//! The steps of the script of a set of ports in memory.

ghost use Rattle.std.specs.Prelude.{◌≡◌};
ghost use Rattle.mold_port_set.specs.Memory.{call_of, earlier, is_due, is_ready, time_of};

use crate::port_set_call::PortSetCall;

/// A step of the script of a set of ports in memory. It is taken at the time `at` or later, in nanoseconds since the
/// set was made. If `at` is 2^62 or more, it is never taken, because the clock stops below.
#[derive(Drop)]
pub enum PortSetStep {
    /// A datagram arrives at a port. A receive on the port gives it.
    Come {
        at: u64,
        port: usize,
        bytes: Vec<u8>,
    },
    /// A call fails.
    Fail {
        at: u64,
        call: PortSetCall,
    },
}

impl PortSetStep {
    // The time from which on the step is due.
    pub(crate) fn time(&self) -> u64
        ensures { result ≡ time_of self.now }
    {
        match self {
            PortSetStep::Come { at, .. } | PortSetStep::Fail { at, .. } => *at,
        }
    }

    // The call that the step is for.
    pub(crate) fn call(&self) -> PortSetCall
        ensures { result ≡ call_of self.now }
    {
        match self {
            PortSetStep::Come { port, .. } => PortSetCall::Receive { port: *port },
            PortSetStep::Fail { call, .. } => *call,
        }
    }

    // Whether the step is for this call, and due.
    pub(crate) fn is_due(&self, call: PortSetCall, now: u64) -> bool
        ensures { result ≡ is_due call now self.now }
    {
        self.time() <= now && self.call() == call
    }

    // Whether the step is for a receive, and due.
    pub(crate) fn is_ready(&self, now: u64) -> bool
        ensures { result ≡ is_ready now self.now }
    {
        self.time() <= now && self.call().is_receive()
    }

    // The earlier of `time` and the step's time, or `time` if the step is for a send.
    pub(crate) fn earlier(&self, time: u64) -> u64
        ensures { result ≡ earlier time self.now }
    {
        match self.call() {
            PortSetCall::Wait | PortSetCall::Receive { .. } => self.time().min(time),
            PortSetCall::Send { .. } => time,
        }
    }
}
