//! Makes one receive of the loop's listener.

ghost use Rattle.std.specs.Prelude.{◌≡◌, true, length, OnOk};
ghost use Rattle.mold_listen.specs.Listening.{with_next_receipt, progress};
ghost use Rattle.mold_loop.specs.Looping.{after_line_if, received_if};
ghost use Rattle.mold_ports.specs.Ports.{received};
ghost use Rattle.mold_receiver.specs.Origin.{line_of};
ghost use Rattle.mold_turns.specs.Outgoing.{KeepsSide};
ghost use Rattle.mold_turns.specs.Runs.{Begins};
ghost use Rattle.mold_wire.specs.declared.limits.TheConstants.{MAX_LIMIT};

use crate::loop_parts::Listener;
use mold_listen::receive_on;
use mold_ports::Datagrams;
use mold_receiver::{Line, Origin};
use std::alloc::AllocError;

/// Receives once on `port`, as `receive_on` does with the listener's arbiter and printer. Returns whether a datagram
/// came.
pub(crate) fn receive_once<D: Datagrams>(
    port: &mut D,
    origin: Origin,
    buffer: &mut [u8],
    listener: &mut Listener,
) -> Result<bool, AllocError>
    requires { length buffer.old ≡ MAX_LIMIT }
    ensures port { D.modeled ≡ true → D.port port.new ≡ received (D.port port.old) }
    ensures received { D.modeled ≡ true →
        OnOk result (progress listener.new.arbiter listener.new.printer.outgoing
        ≡ with_next_receipt (line_of origin) (D.port port.old)
        (progress listener.old.arbiter listener.old.printer.outgoing)) }
    ensures prints { Begins listener.old.printer.outgoing.text listener.new.printer.outgoing.text }
    ensures keeps { KeepsSide listener.old.printer.outgoing listener.new.printer.outgoing }
{
    let Listener { arbiter, printer } = listener;
    receive_on(port, origin, buffer, arbiter, printer)
}

/// Receives once on the port of this line if `on` is true, as `receive_once` does.
pub(crate) fn receive_if<D: Datagrams>(
    port: &mut D,
    on: bool,
    line: Line,
    buffer: &mut [u8],
    listener: &mut Listener,
) -> Result<(), AllocError>
    requires { length buffer.old ≡ MAX_LIMIT }
    ensures port { D.modeled ≡ true → D.port port.new ≡ received_if on (D.port port.old) }
    ensures sent { D.modeled ≡ true → (D.port port.new).sent ≡ (D.port port.old).sent }
    ensures received { D.modeled ≡ true →
        OnOk result (progress listener.new.arbiter listener.new.printer.outgoing
        ≡ after_line_if on line (D.port port.old)
        (progress listener.old.arbiter listener.old.printer.outgoing)) }
    ensures prints { Begins listener.old.printer.outgoing.text listener.new.printer.outgoing.text }
    ensures keeps { KeepsSide listener.old.printer.outgoing listener.new.printer.outgoing }
{
    if !on {
        return Ok(());
    }
    receive_once(port, Origin::Line(line), buffer, listener)?;
    Ok(())
}
