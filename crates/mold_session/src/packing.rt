//! Messages of a journal packed into one datagram.

ghost use Rattle.std.specs.Prelude.{◌≡◌, ◌+◌, ◌≤◌, ◌<◌, ℕ, List, length};
ghost use Rattle.mold_wire.specs.Packer.{IsLimit, Open};
ghost use Rattle.mold_wire.specs.declared.limits.TheConstants.{MESSAGE_OVERHEAD};
ghost use Rattle.mold_session.specs.Answer.{IsPlan};
ghost use Rattle.mold_session.specs.Packing.{HasPacked};
ghost use Rattle.mold_session.specs.Serving.{HasPackedNext};

use crate::journal::Journal;
use crate::plan::Plan;
use mold_messages::MessageIterator;
use mold_wire::laws::{front_law, packet_length_law};
use mold_wire::{Packer, Session};

/// Packs the longest prefix of the first `most` messages that fits into a data packet. Returns the number of
/// its messages. Of the messages after that prefix, only the first is read.
pub fn pack_front(
    packer: &mut Packer,
    session: Session,
    sequence: u64,
    messages: MessageIterator<'_>,
    most: u64,
) -> u64
    requires { IsLimit packer.old.limit }
    ensures { HasPacked packer.old packer.new session sequence messages.entry most result }
{
    front_law();
    packet_length_law();
    packer.start(session, sequence);
    let mut count: u64 = 0;
    for message in messages {
        if count == most || !packer.add(message) {
            break;
        }
        count += 1;
    }
    count
}

/// Packs the next datagram of a plan and returns the number of its messages.
pub fn pack_next(packer: &mut Packer, journal: &Journal, plan: &Plan) -> u64
    requires limit { IsLimit packer.old.limit }
    requires longest { journal.now.max_message + MESSAGE_OVERHEAD ≤ packer.old.limit }
    requires to { plan.now.to ≤ length journal.now.messages + 1 }
    ensures { HasPackedNext packer.old packer.new journal.now plan.now result }
{
    pack_plan(packer, journal, plan)
}

/// Packs the next datagram of a plan and returns the number of its messages. If the plan ends after the journal's last
/// message, or a message is too long for a datagram, fewer messages are packed, or none.
pub fn pack_plan(packer: &mut Packer, journal: &Journal, plan: &Plan) -> u64
    ensures packed { journal.now.max_message + MESSAGE_OVERHEAD ≤ packer.old.limit →
        plan.now.to ≤ length journal.now.messages + 1 →
        HasPackedNext packer.old packer.new journal.now plan.now result }
    ensures begun { (messages : List (List ℕ)) × (length messages ≡ result) × (packer.new ≡ record {
      limit = packer.old.limit;
      begun = Open plan.now.session plan.now.from messages;
    }) }
    ensures within { plan.now.from + result ≤ plan.now.to }
{
    front_law();
    packet_length_law();
    // `bytes` ensures that the packer has the limit of a datagram.
    let _ = packer.bytes();
    let from = plan.from();
    let messages = journal.iter_from(from - 1);
    pack_front(packer, plan.session(), from, messages, plan.to() - from)
}
