//! A server, and the journal from which it responds.

ghost use Rattle.std.specs.Prelude.{◌≡◌, Option, Some, IfSome};
ghost use Rattle.mold_ffi.specs.Server.Answering.{Answers, Plans, Serves};
ghost use Rattle.mold_ffi.specs.Server.Serving.{IsNotLoaded, IsOfFile, with_serving};
ghost use Rattle.mold_ffi.specs.declared.handle.held.Held.TheVariants.{Server as AServer};
ghost use Rattle.mold_ffi.specs.declared.handle.held.Held.{Held as AHeld};
ghost use Rattle.mold_wire.specs.Packer.{IsLimit};

use crate::code::MEMORY;
use crate::code::file_error::code_of_file_error;
use crate::server::answering::{answer, datagram, plan};
use crate::server::journal_below::JournalBelow;
use crate::server::mold_plan::MoldPlan;
use mold_session::{Journal, Server, SliceSource};
use mold_wire::MESSAGE_OVERHEAD;
use std::alloc::Global;

/// A server, and the journal from which it responds.
#[derive(Drop)]
pub struct Serving {
    /// The server.
    pub(crate) server: Server,
    /// The journal.
    pub(crate) journal: Journal,
}

/// Returns why no server was made of the bytes: the code of their fault as a journal file, or `MEMORY` if they have
/// none. Writes the number that goes with it.
pub(crate) fn code_of_refusal(most: u16, bytes: &[u8], number: &mut u64) -> u32
    ensures { IsNotLoaded most bytes.now result number.new }
{
    match Journal::check(most, bytes) {
        Ok(()) => {
            *number = 0;
            MEMORY
        }
        Err(error) => {
            let (code, found) = code_of_file_error(error);
            *number = found;
            code
        }
    }
}

impl Serving {
    /// A server of the journal file, whose messages must have at most 22 bytes less than the limit. `None` if the
    /// burst is invalid, the bytes are not such a file, or an allocation failed.
    pub(crate) fn new(alloc: Global, limit: usize, burst: u16, bytes: &[u8]) -> Option<Serving>
        requires { IsLimit limit }
        ensures { IfSome result (λ serving. IsOfFile limit burst bytes.now serving) }
    {
        let longest = (limit - MESSAGE_OVERHEAD) as u16;
        let Ok(server) = Server::new(alloc, limit, longest, burst) else {
            return None;
        };
        match Journal::load(alloc, longest, &mut SliceSource::new(bytes)) {
            Ok(journal) => Some(Serving { server, journal }),
            Err(_) => None,
        }
    }

    /// Writes the first response to a request.
    pub(crate) fn answer(&mut self, request: &[u8], buffer: &mut [u8], number: &mut u64) -> u32
        ensures { Answers (Option AHeld) self.old.server self.old.journal request.now buffer.old buffer.new number.old
            result number.new (with_serving self.old) (Some (AServer self.new)) }
    {
        let whole = JournalBelow::whole(&self.journal);
        answer(&mut self.server, &whole, request, buffer, number)
    }

    /// Plans the responses to a request.
    pub(crate) fn plan(&mut self, request: &[u8], fields: &mut MoldPlan, number: &mut u64) -> u32
        ensures { Plans (Option AHeld) self.old.server self.old.journal request.now fields.old fields.new number.old
            result number.new (with_serving self.old) (Some (AServer self.new)) }
    {
        let whole = JournalBelow::whole(&self.journal);
        plan(&mut self.server, &whole, request, fields, number)
    }

    /// Writes the next datagram of a plan.
    pub(crate) fn datagram(
        &mut self,
        fields: &mut MoldPlan,
        buffer: &mut [u8],
        size: &mut usize,
    ) -> u32
        ensures serves { Serves self.old.server self.old.journal fields.old fields.new buffer.old buffer.new size.old
            result size.new }
        ensures same { self.new ≡ self.old }
    {
        let whole = JournalBelow::whole(&self.journal);
        datagram(&mut self.server, &whole, fields, buffer, size)
    }
}
