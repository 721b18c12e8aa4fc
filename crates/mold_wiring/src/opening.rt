//! The UDP ports of a command, at the addresses of its order.

ghost use Rattle.std.specs.Prelude.{◌≡◌, IfErr, IfOk};
ghost use Rattle.mold_wiring.specs.Addresses.{IsSocketOf};
ghost use Rattle.mold_ports.specs.declared.outlook.Outlook.TheVariants.{Quiet};
ghost use Rattle.mold_wiring.specs.declared.program_fault.ProgramFault.TheVariants.{Socket};

use crate::addresses::socket_address;
use crate::program_fault::ProgramFault;
use mold_ports::UdpPort;
use mold_words::Address;

/// Opens a UDP port at the address. The fault is `Socket` if the system refuses it.
pub fn open_port(rt: &HostRuntime, address: Address) -> Result<UdpPort, ProgramFault>
    ensures bound { IfOk result (λ port. IsSocketOf address port.bound) }
    ensures opened { IfOk result (λ port. (port.failures ≡ 0) × (port.outlook ≡ Quiet)) }
    ensures refused { IfErr result (λ fault. fault ≡ Socket) }
{
    match UdpPort::bind(rt, socket_address(address)) {
        Ok(port) => Ok(port),
        Err(_) => Err(ProgramFault::Socket),
    }
}
