//! The calls that pack messages into a buffer of the caller.

ghost use Rattle.std.specs.Prelude.{◌≡◌, ◌↔◌, ◌+◌, ◌≤◌, length, IsTrue, true, false, []};
ghost use Rattle.mold_ffi.specs.Packets.Packer.{fields_of, CanBe, Packs};
ghost use Rattle.mold_ffi.specs.declared.code.TheConstants as codes;
ghost use Rattle.mold_wire.specs.Buffer.{Holds};
ghost use Rattle.mold_wire.specs.Packer.{Begun, Open, Ended, IsLimit, HasRoom, with_message};

use crate::code::{BROKEN, DONE, FULL, LIMIT};
use mold_wire::{Session, add_in, can_hold, end_in, fits_in, is_limit, start_in};

/// A packer over a buffer of the caller. The packet is the first `used` bytes of `buffer`, whose length is the datagram
/// limit. `{ buffer, limit, 0, 0, false }` has no packet.
#[repr(C)]
#[derive(Drop)]
pub struct MoldPacker<'a> {
    /// The buffer of 64 to 65,507 bytes to which packets are written.
    pub buffer: &'a mut [u8],
    /// The length of the packet that was begun last.
    pub used: usize,
    /// The number of messages of the open packet.
    pub count: u16,
    /// Whether a packet is open, so that messages may be added.
    pub is_open: bool,
}

// Whether the fields pass the test that the fields of every packer pass.
fn can_be(packer: &MoldPacker<'_>) -> bool
    ensures exact { IsTrue result ↔ CanBe (fields_of packer.now) }
    ensures held { (begun : Begun) → Holds (fields_of packer.now) begun → IsTrue result }
{
    can_hold(
        packer.buffer.len(),
        packer.used,
        packer.count,
        packer.is_open,
    )
}

// Whether a packet is open that leaves room in the buffer for one more message of `len` bytes.
fn leaves_room(packer: &MoldPacker<'_>, len: usize) -> bool
    ensures exact { IsTrue result
        ↔ ((packer.now.is_open ≡ true) × (packer.now.used + (2 + len) ≤ length packer.now.buffer.now)) }
    ensures held { (begun : Begun) → Holds (fields_of packer.now) begun →
        IsTrue result ↔ HasRoom (length packer.now.buffer.now) begun len }
{
    fits_in(packer.buffer, packer.used, packer.is_open, len)
}

/// Opens a packet without messages, in place of the previous packet. Until a message is added, it is a heartbeat. If
/// the buffer's length is not a valid datagram limit, the code is 4 and nothing changes.
#[unsafe(no_mangle)]
pub extern "C" fn mold_packer_start(
    packer: &mut MoldPacker<'_>,
    session: &[u8; 10],
    sequence: u64,
) -> u32
    ensures started { IsLimit (length packer.old.buffer.now) → (result ≡ codes.DONE)
        × Packs packer.old packer.new (Open (record { 0 = session.now }) sequence []) }
    ensures limit { ¬ IsLimit (length packer.old.buffer.now) → (result ≡ codes.LIMIT) × (packer.new ≡ packer.old) }
{
    if !is_limit(packer.buffer.len()) {
        return LIMIT;
    }
    packer.used = start_in(packer.buffer, Session(*session), sequence);
    packer.count = 0;
    packer.is_open = true;
    DONE
}

/// Whether a packet is open that has room for one more message of `len` bytes; false if the fields are invalid.
#[unsafe(no_mangle)]
pub extern "C" fn mold_packer_fits(packer: &MoldPacker<'_>, len: usize) -> bool
    ensures held { (begun : Begun) → Holds (fields_of packer.now) begun →
        IsTrue result ↔ HasRoom (length packer.now.buffer.now) begun len }
    ensures broken { ¬ CanBe (fields_of packer.now) → result ≡ false }
{
    can_be(packer) && leaves_room(packer, len)
}

/// Adds a message after those of the open packet. If no packet is open that has room for it, the code is 5; if the
/// fields are invalid, it is 6. In both cases nothing changes.
#[unsafe(no_mangle)]
pub extern "C" fn mold_packer_add(packer: &mut MoldPacker<'_>, message: &[u8]) -> u32
    ensures added { (begun : Begun) → Holds (fields_of packer.old) begun →
        HasRoom (length packer.old.buffer.now) begun (length message.now) →
        (result ≡ codes.DONE) × Packs packer.old packer.new (with_message message.now begun) }
    ensures full { (begun : Begun) → Holds (fields_of packer.old) begun →
        ¬ HasRoom (length packer.old.buffer.now) begun (length message.now) → result ≡ codes.FULL }
    ensures broken { ¬ CanBe (fields_of packer.old) → result ≡ codes.BROKEN }
    ensures same { (result ≡ codes.DONE → ⊥) → packer.new ≡ packer.old }
{
    if !can_be(packer) {
        return BROKEN;
    }
    if !leaves_room(packer, message.len()) {
        return FULL;
    }
    let (used, count) = (packer.used, packer.count);
    packer.used = add_in(packer.buffer, used, count, message);
    packer.count = count + 1;
    DONE
}

/// Writes an end packet, in place of the previous packet. No message can be added to it. If the buffer's length is not
/// a valid datagram limit, the code is 4 and nothing changes.
#[unsafe(no_mangle)]
pub extern "C" fn mold_packer_end(
    packer: &mut MoldPacker<'_>,
    session: &[u8; 10],
    sequence: u64,
) -> u32
    ensures ended { IsLimit (length packer.old.buffer.now) → (result ≡ codes.DONE)
        × Packs packer.old packer.new (Ended (record { 0 = session.now }) sequence) × (packer.new.count ≡ 0) }
    ensures limit { ¬ IsLimit (length packer.old.buffer.now) → (result ≡ codes.LIMIT) × (packer.new ≡ packer.old) }
{
    if !is_limit(packer.buffer.len()) {
        return LIMIT;
    }
    packer.used = end_in(packer.buffer, Session(*session), sequence);
    packer.count = 0;
    packer.is_open = false;
    DONE
}
