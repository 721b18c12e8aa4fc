//! Responses to requests, and plans, for the server of any handle.

ghost use Rattle.std.specs.Prelude.{◌≡◌};
ghost use Rattle.mold_ffi.specs.Server.Answering.{Answers, Plans, Serves};
ghost use Rattle.mold_session.specs.Server.{ServerState};

use crate::buffer::copy_if_some;
use crate::code::answer_error::code_of_answer_error;
use crate::code::{ABSENT, BROKEN, DONE, ROOM};
use crate::server::journal_below::JournalBelow;
use crate::server::mold_plan::MoldPlan;
use mold_session::Server;
use mold_session::laws::{answer_not_empty_law, answered_law, planned_law};

/// Writes the first response to a request to the start of the buffer.
pub(crate) fn answer(
    server: &mut Server,
    served: &JournalBelow,
    request: &[u8],
    buffer: &mut [u8],
    number: &mut u64,
) -> u32
    ensures { Answers ServerState server.old served.now request.now buffer.old buffer.new number.old
        result number.new (λ s. s) server.new }
{
    answer_not_empty_law();
    answered_law();
    planned_law();
    if served.journal.max_message() > server.max_message() {
        return BROKEN;
    }
    let limit = server.limit();
    if buffer.len() < limit {
        *number = limit as u64;
        return ROOM;
    }
    match server.plan_below(served.journal, served.below, request) {
        Ok(mut plan) => {
            let mut size = 0;
            let code = copy_if_some(
                server.datagram(served.journal, &mut plan),
                buffer,
                &mut size,
            );
            *number = size as u64;
            code
        }
        Err(error) => {
            let (code, found) = code_of_answer_error(error);
            *number = found;
            code
        }
    }
}

/// Plans the responses to a request.
pub(crate) fn plan(
    server: &mut Server,
    served: &JournalBelow,
    request: &[u8],
    fields: &mut MoldPlan,
    number: &mut u64,
) -> u32
    ensures { Plans ServerState server.old served.now request.now fields.old fields.new number.old
        result number.new (λ s. s) server.new }
{
    if served.journal.max_message() > server.max_message() {
        return BROKEN;
    }
    match server.plan_below(served.journal, served.below, request) {
        Ok(plan) => {
            fields.write(&plan);
            *number = 0;
            DONE
        }
        Err(error) => {
            let (code, found) = code_of_answer_error(error);
            *number = found;
            code
        }
    }
}

/// Writes the next datagram of a plan to the start of the buffer, and moves the plan past its messages.
pub(crate) fn datagram(
    server: &mut Server,
    served: &JournalBelow,
    fields: &mut MoldPlan,
    buffer: &mut [u8],
    size: &mut usize,
) -> u32
    ensures serves { Serves server.old served.now fields.old fields.new buffer.old buffer.new size.old
        result size.new }
    ensures same { server.new ≡ server.old }
{
    let Some(mut plan) = fields.resumed() else {
        return BROKEN;
    };
    if served.journal.max_message() > server.max_message()
        || plan.session() != served.journal.session()
        || plan.to() > served.below
        || plan.left() > server.burst()
    {
        return BROKEN;
    }
    let limit = server.limit();
    if buffer.len() < limit {
        *size = limit;
        return ROOM;
    }
    let code = copy_if_some(server.datagram(served.journal, &mut plan), buffer, size);
    fields.write(&plan);
    code
}
