//! The responses to a request.

ghost use Rattle.std.specs.Prelude.{◌≡◌, ◌≤◌, ◌+◌, ◌++◌, length, map, take, IfOk, OnErr, OnOk};
ghost use Rattle.mold_session.specs.Answer.{planned};
ghost use Rattle.mold_wire.specs.Packet.{spelling_of};
ghost use Rattle.mold_world.specs.Sending.{SendsFirst};

use mold_messages::MessageList;
use mold_session::laws::{answer_not_empty_law, planned_law};
use mold_session::{Journal, Plan, Server};
use std::alloc::AllocError;

// Sends the next datagram of a plan. Returns whether there was one. If an allocation fails, it returns an error and
// sends nothing.
fn send_next(
    server: &mut Server,
    journal: &Journal,
    plan: &mut Plan,
    sent: &mut MessageList,
) -> Result<bool, AllocError>
    requires longest { journal.now.max_message ≤ server.old.max_message }
    requires session { plan.old.session ≡ journal.now.session }
    requires to { plan.old.to ≤ length journal.now.messages + 1 }
    ensures sent { IfOk result (λ more. SendsFirst more
        sent.old.messages (planned journal.now.messages server.old.limit plan.old)
        sent.new.messages (planned journal.now.messages server.old.limit plan.new)) }
    ensures same { OnErr result (sent.new.messages ≡ sent.old.messages) }
    ensures session { plan.new.session ≡ plan.old.session }
    ensures to { plan.new.to ≡ plan.old.to }
    ensures server { server.new ≡ server.old }
{
    planned_law();
    answer_not_empty_law();
    match server.datagram(journal, plan) {
        Some(bytes) => {
            sent.push(bytes)?;
            Ok(true)
        }
        None => Ok(false),
    }
}

/// Sends all remaining datagrams of a plan. If an allocation fails, it returns an error, and some of them may have
/// been sent. The datagrams that were sent before are unchanged.
pub(crate) fn send_all(
    server: &mut Server,
    journal: &Journal,
    plan: &mut Plan,
    sent: &mut MessageList,
) -> Result<(), AllocError>
    requires longest { journal.now.max_message ≤ server.old.max_message }
    requires session { plan.old.session ≡ journal.now.session }
    requires to { plan.old.to ≤ length journal.now.messages + 1 }
    ensures sent { OnOk result (sent.new.messages ≡ sent.old.messages
        ++ map spelling_of (planned journal.now.messages server.old.limit plan.old)) }
    ensures behind { OnErr result (take (length sent.old.messages) sent.new.messages ≡ sent.old.messages) }
    ensures server { server.new ≡ server.old }
{
    while send_next(server, journal, plan, sent)? {}
    Ok(())
}
