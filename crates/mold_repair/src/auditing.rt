//! The audit of a datagram that was accepted.

ghost use Rattle.std.specs.Prelude.{◌+◌, ◌-◌, ◌≤◌, drop, length};
ghost use Rattle.mold_audit.specs.Kept.{HasNoted};
ghost use Rattle.mold_repair.specs.Auditing.{IsCompared};
ghost use Rattle.mold_repair.specs.Header.{IsRead};

use crate::header::first_in;
use mold_audit::Audit;
use mold_audit::laws::{agrees_law, off_law};
use mold_receiver::Batch;
use mold_wire::{Body, decode};

// Returns the least number with which a datagram contradicts the audit, if it does. `next` is the number of the next
// message to deliver, before the datagram. A datagram that begins at or above it is not decoded.
fn find_contradiction(audit: &Audit, datagram: &[u8], next: u64) -> Option<u64>
    requires read { IsRead datagram.now }
    requires noted { audit.now.next ≤ next }
    ensures { IsCompared audit.now datagram.now result }
{
    agrees_law();
    if first_in(datagram) >= next {
        return None;
    }
    let Ok(packet) = decode(datagram) else {
        return None;
    };
    let Body::Data(blocks) = &packet.body else {
        return None;
    };
    audit.check(packet.sequence, blocks)
}

// Does what `audit_taken` does.
#[inline(never)]
fn compare_and_note(
    audit: &mut Audit,
    datagram: &[u8],
    batch: &Batch,
    next: u64,
    handed: u32,
) -> Option<u64>
    requires read { IsRead datagram.now }
    requires noted { audit.old.next + handed ≤ next }
    requires there { handed ≤ length batch.now.messages }
    ensures compared { IsCompared audit.old datagram.now result }
    ensures noted { HasNoted audit.old audit.new (next - handed)
        (drop (length batch.now.messages - handed) batch.now.messages) }
{
    let first = next - u64::from(handed);
    let found = find_contradiction(audit, datagram, first);
    audit.note_from(first, batch, batch.len() - handed as usize);
    found
}

/// Returns the least number with which a datagram that was accepted contradicts the audit, if it does. Then notes what
/// the datagram delivered: the last `handed` messages of the batch, which end just before `next`.
// For the optimizer: `Repairer::take` calls it for each datagram. Without an audit it is one test.
#[inline(always)]
pub(crate) fn audit_taken(
    audit: &mut Audit,
    datagram: &[u8],
    batch: &Batch,
    next: u64,
    handed: u32,
) -> Option<u64>
    requires read { IsRead datagram.now }
    requires noted { audit.old.next + handed ≤ next }
    requires there { handed ≤ length batch.now.messages }
    ensures compared { IsCompared audit.old datagram.now result }
    ensures noted { HasNoted audit.old audit.new (next - handed)
        (drop (length batch.now.messages - handed) batch.now.messages) }
{
    if audit.is_off() {
        off_law();
        return None;
    }
    compare_and_note(audit, datagram, batch, next, handed)
}
