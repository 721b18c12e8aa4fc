//! The rules of `Packer` for a buffer that the caller provides. The caller keeps the packer's other fields.

ghost use Rattle.std.specs.Prelude.{◌≡◌, ◌↔◌, ◌+◌, ◌*◌, ◌<◌, ◌≤◌, ◌++◌, ℕ, List, Bool, true, false};
ghost use Rattle.std.specs.Prelude.{length, take, drop, IsTrue, []};
ghost use Rattle.mold_wire.specs.Block.{block};
ghost use Rattle.mold_wire.specs.Buffer.{over, Holds, CanHold};
ghost use Rattle.mold_wire.specs.Header.{recounted};
ghost use Rattle.mold_wire.specs.declared.header.TheConstants.{END_OF_SESSION, HEADER_LENGTH};
ghost use Rattle.mold_wire.specs.Packer.{Begun, Open, Ended, IsLimit, HasRoom, with_message};

use crate::block::{LENGTH_BYTES, put_block};
use crate::header::{END_OF_SESSION, HEADER_LENGTH, HEARTBEAT, Header, put_count};
use crate::limits::{MAX_LIMIT, MIN_LIMIT};
use crate::session::Session;

// Returns the least length of a packet with `count` messages: the header and the length field of each block.
fn least_length(count: u16) -> usize
    ensures { result ≡ HEADER_LENGTH + 2 * count }
{
    HEADER_LENGTH + LENGTH_BYTES * usize::from(count)
}

/// Returns whether `limit` is a valid datagram limit, `MIN_LIMIT` to `MAX_LIMIT` bytes.
pub fn is_limit(limit: usize) -> bool
    ensures { IsTrue result ↔ IsLimit limit }
{
    MIN_LIMIT <= limit && limit <= MAX_LIMIT
}

/// Returns whether a packer with this limit can have used `used` bytes for `count` messages. If it returns
/// false, these values do not come from a packer.
pub fn can_hold(limit: usize, used: usize, count: u16, is_open: bool) -> bool
    ensures exact { IsTrue result ↔ CanHold limit used count is_open }
    ensures held { (items : List ℕ) (begun : Begun) → length items ≡ limit →
        Holds (over items used count is_open) begun → IsTrue result }
{
    is_limit(limit) && used <= limit && (!is_open || least_length(count) <= used)
}

/// Returns whether a packet is open and one more message of `len` bytes fits in the buffer after its `used`
/// bytes.
pub fn fits_in(buffer: &[u8], used: usize, is_open: bool, len: usize) -> bool
    ensures exact { IsTrue result ↔ ((is_open ≡ true) × (used + (2 + len) ≤ length buffer.now)) }
    ensures held { (count : ℕ) (begun : Begun) → Holds (over buffer.now used count is_open) begun →
        IsTrue result ↔ HasRoom (length buffer.now) begun len }
{
    if !is_open {
        return false;
    }
    let Some(room) = buffer.len().checked_sub(used) else {
        return false;
    };
    LENGTH_BYTES <= room && len <= room - LENGTH_BYTES
}

/// Opens a packet without messages at the start of the buffer and leaves the bytes after it unchanged.
/// Returns the packet's length in bytes.
pub fn start_in(buffer: &mut [u8], session: Session, sequence: u64) -> usize
    requires { IsLimit (length buffer.old) }
    ensures used { result ≡ HEADER_LENGTH }
    ensures held { Holds (over buffer.new result 0 true) (Open session sequence []) }
    ensures behind { drop result buffer.new ≡ drop result buffer.old }
{
    Header {
        session,
        sequence,
        count: HEARTBEAT,
    }
    .put(buffer);
    HEADER_LENGTH
}

/// Appends `message` to the open packet, which has `count` messages in `used` bytes, and counts it in the header.
/// Returns the packet's new length in bytes.
pub fn add_in(buffer: &mut [u8], used: usize, count: u16, message: &[u8]) -> usize
    requires limit { IsLimit (length buffer.old) }
    requires header { HEADER_LENGTH ≤ used }
    requires few { count < END_OF_SESSION }
    requires room { used + (2 + length message.now) ≤ length buffer.old }
    ensures used { result ≡ used + (2 + length message.now) }
    ensures written { buffer.new ≡ recounted (count + 1) (take used buffer.old)
        ++ (block message.now ++ drop (length message.now) (drop 2 (drop used buffer.old))) }
    ensures behind { drop result buffer.new ≡ drop result buffer.old }
    ensures held { (begun : Begun) → Holds (over buffer.old used count true) begun →
        Holds (over buffer.new result (count + 1) true) (with_message message.now begun) }
{
    let (packet, behind) = buffer.split_at_mut(used);
    put_block(behind, message);
    put_count(packet, count + 1);
    used + LENGTH_BYTES + message.len()
}

/// Writes an end packet at the start of the buffer and leaves the bytes after it unchanged. Returns the
/// packet's length in bytes.
pub fn end_in(buffer: &mut [u8], session: Session, sequence: u64) -> usize
    requires { IsLimit (length buffer.old) }
    ensures used { result ≡ HEADER_LENGTH }
    ensures held { (count : ℕ) → Holds (over buffer.new result count false) (Ended session sequence) }
    ensures behind { drop result buffer.new ≡ drop result buffer.old }
{
    Header {
        session,
        sequence,
        count: END_OF_SESSION,
    }
    .put(buffer);
    HEADER_LENGTH
}
