//! What a datagram delivers without a copy, as the fields of a struct.

ghost use Rattle.std.specs.Prelude.{◌≡◌, ◌≤◌, length};
ghost use Rattle.mold_ffi.specs.Code.Refusal.{refusal_code};
ghost use Rattle.mold_ffi.specs.Listener.MoldDelivery.{own_fields, refused_fields, unheard_fields};
ghost use Rattle.mold_wire.specs.Block.{blocks};

use crate::code::refusal::code_of_refusal;
use mold_receiver::{Heard, Refusal};

/// What a datagram delivers without a copy. If it was taken, `detail` is 0; if it was refused, the other fields are 0.
#[repr(C)]
#[derive(Clone, Copy)]
pub struct MoldDelivery {
    /// The number that goes with a refusal: a length, an index, an offset, an end or a sequence number; 0 if the
    /// refusal has none.
    pub detail: u64,
    /// The offset in the datagram at which the blocks of the delivered messages begin. They are its last bytes.
    pub offset: usize,
    /// The number of messages that are delivered from the datagram, in order.
    pub own: u32,
    /// The number of messages that are delivered after these: all messages of the batch.
    pub stored: u32,
    /// The number of messages of the datagram that were stored.
    pub kept: u32,
    /// The number of messages of the datagram above the window, which are dropped.
    pub dropped: u32,
}

impl MoldDelivery {
    /// Writes what a datagram of `len` bytes that was taken delivers.
    // For the optimizer: this runs for each datagram. A call would pass `heard` through memory.
    #[inline(always)]
    pub(crate) fn write_heard(&mut self, len: usize, heard: &Heard<'_>)
        requires within { length (blocks heard.now.own) ≤ len }
        requires counted { length heard.now.own ≤ heard.now.taken.handed }
        ensures { self.new ≡ own_fields len heard.now.own heard.now.taken }
    {
        let own = u32::from(heard.own.len());
        self.detail = 0;
        self.offset = len - heard.own.bytes().len();
        self.own = own;
        self.stored = heard.taken.handed - own;
        self.kept = heard.taken.kept;
        self.dropped = heard.taken.beyond;
    }

    /// Writes the number that goes with a refusal, and returns its code.
    pub(crate) fn write_unheard(&mut self, refused: Refusal) -> u32
        ensures code { result ≡ refusal_code refused }
        ensures fields { self.new ≡ unheard_fields refused }
    {
        let (code, detail) = code_of_refusal(refused);
        *self = MoldDelivery::refused(detail);
        code
    }

    /// The fields of a call that was refused. `detail` is the number that goes with the refusal.
    pub(crate) fn refused(detail: u64) -> MoldDelivery
        ensures { result ≡ refused_fields detail }
    {
        MoldDelivery {
            detail,
            offset: 0,
            own: 0,
            stored: 0,
            kept: 0,
            dropped: 0,
        }
    }
}
