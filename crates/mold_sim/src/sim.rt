//! The command `sim`: it applies a script of events to a world.

ghost use Rattle.std.specs.Prelude.{◌≡◌, ◌≤◌, ◌++◌, length, take, IfOk, OnErr};
ghost use Rattle.mold_sim.specs.Sim.{sim_beginning, line_outcome};
ghost use Rattle.mold_wire.specs.declared.limits.TheConstants.{MAX_WINDOW};
ghost use Rattle.mold_wire.specs.declared.limits.TheConstants.{MAX_BURST};
ghost use Rattle.mold_wire.specs.declared.limits.TheConstants.{MAX_LIMIT, MIN_LIMIT};

use crate::reading::read_line;
use crate::refusal::push_error;
use crate::report::{push_receivers, push_report};
use mold_devices::{LineCommand, Lines, ReadFault, Source, Turn};
use mold_text::{Word, push_refused};
use mold_wire::Session;
use mold_world::World;
use std::alloc::{AllocError, Global};
use std::marker::Model;

/// The greatest number of receivers of a script.
const RECEIVERS: usize = 8;

// Applies the event of the line and appends its result. Returns whether the line was refused. The event's bytes
// replace the contents of `bytes`.
#[tactic(auto, unfolding(crate::specs::Sim::line_outcome))]
fn print_line(
    world: &mut World,
    line: &[u8],
    bytes: &mut Vec<u8>,
    out: &mut Vec<u8>,
) -> Result<bool, AllocError>
    ensures text { IfOk result (λ _. out.new.items ≡ out.old.items ++ (line_outcome world.old line.now).text) }
    ensures refused { IfOk result (λ refused. refused ≡ (line_outcome world.old line.now).refused) }
    ensures world { IfOk result (λ _. world.new ≡ (line_outcome world.old line.now).world) }
    ensures kept { OnErr result (take (length out.old.items) out.new.items ≡ out.old.items) }
{
    if line.is_empty() {
        return Ok(false);
    }
    let Some(event) = read_line(line, bytes)? else {
        push_refused(out, &[Word::Text(b"Syntax")])?;
        return Ok(true);
    };
    match world.apply(&event) {
        Ok(report) => {
            push_report(out, report)?;
            Ok(false)
        }
        Err(why) => {
            push_error(out, why)?;
            Ok(true)
        }
    }
}

/// The command `sim`. It applies the events of its input lines to a world and prints the result of each. At the end,
/// it prints a line for each receiver.
#[derive(Drop)]
pub struct Sim {
    world: World,
    refused: bool,
    bytes: Vec<u8>,
}

impl Model for Sim {
    ghost use Rattle.mold_sim.specs.Sim.{SimState, sim_code};

    ghost Value = { SimState };

    ghost coded = { sim_code };

    ghost view = { λ s. record { world = s.world; refused = s.refused } };
}

impl Sim {
    /// Returns the command for a new session with `receivers` receivers of the same window. The limits are in bytes,
    /// `burst` is in datagrams and `window` in messages. It allocates the windows and the memory of two datagrams.
    pub fn new(
        alloc: Global,
        session: Session,
        limit: usize,
        server_limit: usize,
        burst: u16,
        window: u32,
        receivers: usize,
    ) -> Result<Sim, AllocError>
        requires limit { MIN_LIMIT ≤ limit }
        requires server_limit { limit ≤ server_limit }
        requires greatest { server_limit ≤ MAX_LIMIT }
        requires some_burst { 1 ≤ burst }
        requires burst { burst ≤ MAX_BURST }
        requires some_window { 1 ≤ window }
        requires window { window ≤ MAX_WINDOW }
        requires some_receiver { 1 ≤ receivers }
        requires receivers { receivers ≤ 8 }
        ensures { IfOk result (λ sim. sim ≡ sim_beginning session limit server_limit burst window receivers) }
    {
        let windows = [window; RECEIVERS];
        // The arguments are in a world's ranges, so only an allocation can fail.
        let Ok(world) = World::new(
            alloc,
            session,
            limit,
            server_limit,
            burst,
            &windows[..receivers],
        ) else {
            return Err(AllocError);
        };
        Ok(Sim {
            world,
            refused: false,
            bytes: Vec::new(alloc),
        })
    }
}

impl LineCommand for Sim {
    ghost use Rattle.mold_sim.specs.Sim.{sim_printing};

    type Reader = Lines;

    ghost prints = { sim_printing };

    fn turn<S: Source>(
        &mut self,
        lines: &mut Lines,
        source: &mut S,
        out: &mut Vec<u8>,
    ) -> Result<Turn, ReadFault> {
        if !lines.advance(source)? {
            push_receivers(out, &self.world)?;
            let status = if self.refused { 2 } else { 0 };
            return Ok(Turn::Done { status });
        }
        self.refused |= print_line(&mut self.world, lines.line(), &mut self.bytes, out)?;
        Ok(Turn::More)
    }
}
