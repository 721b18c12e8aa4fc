//! The trait of the ports of a publisher, which also wait for its input.

ghost use Rattle.std.specs.Prelude.{◌≡◌, ◌≤◌, true};
ghost use Rattle.mold_devices.specs.Devices.{Counts};

use mold_devices::DeviceFault;
use mold_port_set::PortSet;

/// The ports that a publisher sends its lines from, its clock, and what it waits for.
pub trait FeedPorts: PortSet {
    /// Waits until a request is at the port of the requests, until the input can be read if `input` is true, or until
    /// the time `until`, as `PortSet::wait`. It may end before. Returns whether a read of the input returns at once. An
    /// end of the input and an error can be read too. A failure is counted, and takes a millisecond at least. An
    /// interrupted wait is not a failure.
    fn wait_for_input(&mut self, until: u64, input: bool) -> Result<bool, DeviceFault>
        ensures given { Self.modeled ≡ true → (Self.state self.new).given ≡ (Self.state self.old).given }
        ensures sent { Self.modeled ≡ true → (Self.state self.new).sent ≡ (Self.state self.old).sent }
        ensures clock { (Self.state self.old).now ≤ (Self.state self.new).now }
        ensures failures { Counts (Self.state self.old).failures (Self.state self.new).failures result };
}
