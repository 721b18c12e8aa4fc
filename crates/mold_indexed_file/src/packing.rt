//! Packs messages of a piece of a file into a packet.

ghost use Rattle.std.specs.Prelude.{◌≡◌, ◌-◌, ◌<◌, ◌≤◌, IfOk, IfErr};
ghost use Rattle.mold_wire.specs.Packer.{IsLimit};
ghost use Rattle.mold_session.specs.Loading.{message_spelling};
ghost use Rattle.mold_indexed_file.specs.Packed.{HasPackedFrom, Lacks, missing};

use mold_index::{NoMessage, find_message, split_message};
use mold_session::{FileError, FileVersion, Plan};
use mold_wire::Packer;
use mold_wire::laws::packet_length_law;

/// Packs the next datagram of a plan from a piece of a file, whose first message has number `first`. Returns the number
/// of messages. It is 0 if the plan's next message is too long for a datagram. Of the messages after those that were
/// packed, only the first is read.
pub fn pack_piece(
    packer: &mut Packer,
    plan: &Plan,
    version: FileVersion,
    first: u64,
    bytes: &[u8],
) -> Result<u64, NoMessage>
    requires limit { IsLimit packer.old.limit }
    requires before { first ≤ plan.now.from }
    requires some { plan.now.from < plan.now.to }
    ensures packed { IfOk result (HasPackedFrom (message_spelling version) (plan.now.from - first)
        (plan.now.to - plan.now.from) bytes.now plan.now.session plan.now.from packer.new) }
    ensures lacks { IfErr result (λ error. Lacks (message_spelling version) (plan.now.from - first)
        (plan.now.to - plan.now.from) bytes.now plan.now.session plan.now.from packer.new error.index) }
    ensures limit { packer.new.limit ≡ packer.old.limit }
{
    packet_length_law();
    let from = plan.from();
    let most = plan.to() - from;
    packer.start(plan.session(), from);
    let (message, mut rest) = find_message(version, bytes, from - first)?;
    if !packer.add(message) {
        return Ok(0);
    }
    for count in 1..most {
        let Some((message, next)) = split_message(version, rest) else {
            return Err(NoMessage {
                index: from - first + count,
            });
        };
        if !packer.add(message) {
            return Ok(count);
        }
        rest = next;
    }
    Ok(most)
}

/// Returns the error for a message that is not whole in a file of this version.
pub fn missing(version: FileVersion, number: u64) -> FileError
    ensures { result ≡ missing version number }
{
    match version {
        FileVersion::One | FileVersion::Two { .. } => FileError::BlockCut { number },
        FileVersion::Three => FileError::Damaged { number },
    }
}
