//! Runs the loop over UDP ports of this machine, from standard input to standard output and standard error.

ghost use Rattle.std.specs.Prelude.{◌≡◌};
ghost use Rattle.mold_input.specs.Formats.{entries_of, kind_of};

use crate::loop_parts::{LoopPeers, LoopPorts};
use crate::looping::session_loop;
use crate::ordered::{loop_options, make_parts};
use mold_devices::{CommandFault, FromRead, IntoWrite};
use mold_input::{BlocksToEmpty, HexLines, MessageBlocks, MessageFormat, MessageReader};
use mold_ports::UdpPort;
use mold_wiring::{ProgramFault, flushed, open_port};
use mold_words::{Address, LoopOrder};
use std::io::Write;

/// The loopback address, with a port that the system chooses.
const OWN: Address = Address {
    host: [127, 0, 0, 1],
    port: 0,
};

// Opens the five ports of a loop.
fn open_ports(rt: &HostRuntime) -> Result<LoopPorts<UdpPort>, ProgramFault> {
    Ok(LoopPorts {
        publisher: open_port(rt, OWN)?,
        server: open_port(rt, OWN)?,
        a: open_port(rt, OWN)?,
        b: open_port(rt, OWN)?,
        requests: open_port(rt, OWN)?,
    })
}

/// Publishes, serves and listens in one process, over five loopback ports that the system chooses. The order states how
/// the input encodes the messages. Returns the status.
pub fn run_loop(rt: &HostRuntime, order: &LoopOrder) -> Result<u8, ProgramFault> {
    let mut ports = open_ports(rt)?;
    Ok(match order.format {
        MessageFormat::Lines => loop_on::<HexLines>(rt, order, &mut ports),
        MessageFormat::Blocks => loop_on::<MessageBlocks>(rt, order, &mut ports),
        MessageFormat::BlocksToEmpty => loop_on::<BlocksToEmpty>(rt, order, &mut ports),
    }?)
}

// Runs the loop over the ports. The reader `M` reads the messages that the order's input holds.
fn loop_on<M: MessageReader>(
    rt: &HostRuntime,
    order: &LoopOrder,
    ports: &mut LoopPorts<UdpPort>,
) -> Result<u8, CommandFault>
    requires kind { M.input_kind ≡ kind_of order.now.format }
    requires entries { M.entries ≡ entries_of order.now.format }
{
    let peers = LoopPeers {
        a: ports.a.address(),
        b: ports.b.address(),
        server: ports.server.address(),
    };
    let options = loop_options(order, peers);
    let mut parts = make_parts(rt.alloc(), order)?;
    let mut source = FromRead::new(rt.stdin());
    let mut sink = IntoWrite::new(rt.stdout());
    let mut errors = IntoWrite::new(rt.stderr());
    let outcome = session_loop::<M, _, _, _, _>(
        ports,
        &options,
        &mut parts,
        &mut source,
        &mut sink,
        &mut errors,
    );
    let outcome = flushed(outcome, sink.into_inner().flush());
    flushed(outcome, errors.into_inner().flush())
}
