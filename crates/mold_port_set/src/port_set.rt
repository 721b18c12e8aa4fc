//! The trait of sets of ports.

ghost use Rattle.std.specs.Prelude.{◌≡◌, ◌≤◌, ◌<◌, ◌^◌, ◌++◌, Bool, true, length, is_err, IfOk, IfSome};
ghost use Rattle.mold_devices.specs.Devices.{Counts};
ghost use Rattle.mold_port_set.specs.PortSet.{PortSetState, given_by, sent_by};

use mold_devices::DeviceFault;

/// A set of ports, each with an index from 0, and a clock. One wait is for all of them. No receive and no send waits.
pub trait PortSet {
    /// The address that a datagram is sent to.
    type Peer: Copy;

    // Whether contracts know what the ports gave and what they sent.
    ghost modeled: { Bool };

    // What the ports gave and sent, the clock, and the count of failures. The count stops at `u64::MAX`.
    ghost state: { Self → PortSetState Self.Peer };

    /// Returns the time of the last wait or receive, in nanoseconds since the set was made. It never falls.
    fn now(&self) -> u64
        ensures value { result ≡ (state self.now).now }
        ensures limit { result < 2 ^ 62 };

    /// Waits until a datagram is at a port, at most until the time `until`. It may end before. Returns whether a
    /// datagram may be at a port. A failure is counted.
    fn wait(&mut self, until: u64) -> Result<bool, DeviceFault>
        ensures given { modeled ≡ true → (state self.new).given ≡ (state self.old).given }
        ensures sent { modeled ≡ true → (state self.new).sent ≡ (state self.old).sent }
        ensures clock { (state self.old).now ≤ (state self.new).now }
        ensures failures { Counts (state self.old).failures (state self.new).failures result };

    /// Receives a datagram that is at the port into a prefix of `buffer`, truncated to the buffer's length. Returns its
    /// length, or `None` if there is none. After a failure, which is counted, the contents of `buffer` are unspecified.
    fn receive(&mut self, port: usize, buffer: &mut [u8]) -> Result<Option<usize>, DeviceFault>
        ensures count { IfOk result (λ answer. IfSome answer (λ count. count ≤ length buffer.new)) }
        ensures same { length buffer.new ≡ length buffer.old }
        ensures given { modeled ≡ true →
            (state self.new).given ≡ (state self.old).given ++ given_by port result buffer.new }
        ensures sent { modeled ≡ true → (state self.new).sent ≡ (state self.old).sent }
        ensures clock { (state self.old).now ≤ (state self.new).now }
        ensures failures { Counts (state self.old).failures (state self.new).failures result };

    /// Sends a datagram from the port. A failure is counted.
    fn send(&mut self, port: usize, to: Self::Peer, bytes: &[u8]) -> Result<(), DeviceFault>
        ensures given { modeled ≡ true → (state self.new).given ≡ (state self.old).given }
        ensures sent { modeled ≡ true →
            (state self.new).sent ≡ (state self.old).sent ++ sent_by (is_err result) port to bytes.now }
        ensures clock { (state self.new).now ≡ (state self.old).now }
        ensures failures { Counts (state self.old).failures (state self.new).failures result };

    /// Returns the number of datagrams that were dropped at the ports before a receive could give them, or `None` if it
    /// is not known.
    fn drops(&mut self) -> Option<u64>
        ensures { state self.new ≡ state self.old };

    /// Returns the number of datagrams that the port ignored because another sender sent them.
    fn passed_over(&self, port: usize) -> u64;

    /// Returns the number of waits, receives and sends that failed. It stops at `u64::MAX`.
    fn failures(&self) -> u64
        ensures { result ≡ (state self.now).failures };
}
