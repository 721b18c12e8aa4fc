//! The trait of ports: what sends and receives datagrams.

ghost use Rattle.std.specs.Prelude.{◌≡◌, ◌≤◌, Bool, true, length, is_err, IfOk, IfSome};
ghost use Rattle.mold_devices.specs.Devices.{Counts};
ghost use Rattle.mold_ports.specs.Ports.{Port, cut, next_of, offered, receipt_of, received};

use mold_devices::DeviceFault;

/// A port, which sends and receives datagrams.
pub trait Datagrams {
    /// The address that a datagram is sent to or comes from.
    type Peer: Copy;

    // Whether contracts know what the receives of such ports will give and what the ports sent.
    ghost modeled: { Bool };

    // What the port's receives will give, what it sent, and its count of failures. The count stops at `u64::MAX`.
    ghost port: { Self → Port Self.Peer };

    /// Sends a datagram. A fault is counted.
    fn send(&mut self, to: Self::Peer, bytes: &[u8]) -> Result<(), DeviceFault>
        ensures sent { modeled ≡ true → port self.new ≡ offered (is_err result) to bytes.now (port self.old) }
        ensures failures { Counts (port self.old).failures (port self.new).failures result };

    /// Receives a datagram into a prefix of `buffer`, truncated to the buffer's length. Returns its length and its
    /// sender, or `None` if nothing came within the port's timeout. After a fault, which is counted, the contents of
    /// `buffer` are unspecified.
    fn receive(&mut self, buffer: &mut [u8]) -> Result<Option<(usize, Self::Peer)>, DeviceFault>
        ensures count { IfOk result (λ answer. IfSome answer (λ found. found.0 ≤ length buffer.new)) }
        ensures came { modeled ≡ true →
            receipt_of result buffer.new ≡ cut (length buffer.new) (next_of (port self.old)) }
        ensures left { modeled ≡ true → port self.new ≡ received (port self.old) }
        ensures failures { Counts (port self.old).failures (port self.new).failures result };

    /// Returns the number of sends and receives that failed. It stops at `u64::MAX`.
    fn failures(&self) -> u64
        ensures { result ≡ (port self.now).failures };
}
