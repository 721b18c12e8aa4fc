//! One receive on a port of a listener.

ghost use Rattle.std.specs.Prelude.{◌≡◌, true, length, IfOk, OnOk};
ghost use Rattle.mold_listen.specs.Listening.{with_next_receipt, progress, is_datagram};
ghost use Rattle.mold_ports.specs.Ports.{next_of, received};
ghost use Rattle.mold_receiver.specs.Origin.{line_of};
ghost use Rattle.mold_turns.specs.Outgoing.{KeepsSide};
ghost use Rattle.mold_turns.specs.Runs.{Begins};
ghost use Rattle.mold_wire.specs.declared.limits.TheConstants.{MAX_LIMIT};

use crate::printer::Printer;
use mold_ports::Datagrams;
use mold_receiver::{Arbiter, Origin};
use std::alloc::AllocError;

/// Receives once on a port, and gives the arbiter the datagram with this origin, or counts the failure. Returns whether
/// a datagram was received. `buffer` has `MAX_LIMIT` bytes. An error means out of memory.
pub fn receive_on<D: Datagrams>(
    port: &mut D,
    origin: Origin,
    buffer: &mut [u8],
    arbiter: &mut Arbiter,
    printer: &mut Printer,
) -> Result<bool, AllocError>
    requires { length buffer.old ≡ MAX_LIMIT }
    ensures port { D.modeled ≡ true → D.port port.new ≡ received (D.port port.old) }
    ensures came { D.modeled ≡ true → IfOk result (λ came. came ≡ is_datagram (next_of (D.port port.old))) }
    ensures received { D.modeled ≡ true →
        OnOk result (progress arbiter.new printer.new.outgoing
        ≡ with_next_receipt (line_of origin) (D.port port.old) (progress arbiter.old printer.old.outgoing)) }
    ensures prints { Begins printer.old.outgoing.text printer.new.outgoing.text }
    ensures keeps { KeepsSide printer.old.outgoing printer.new.outgoing }
{
    match port.receive(buffer) {
        Ok(Some((len, _))) => {
            printer.take(arbiter, origin, &buffer[..len])?;
            Ok(true)
        }
        Ok(None) => Ok(false),
        Err(_) => {
            printer.outgoing.count_failure();
            Ok(false)
        }
    }
}
