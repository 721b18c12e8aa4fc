//! The effect of a datagram on a listener, as the fields of a struct.

ghost use Rattle.std.specs.Prelude.{◌≡◌};
ghost use Rattle.mold_ffi.specs.Code.Refusal.{refusal_code, refusal_number};

use crate::code::refusal::code_of_refusal;
use mold_receiver::{Refusal, Taken};

/// The effect of a datagram on a listener. If it was taken, `detail` is 0; if it was refused, the counts are 0.
#[repr(C)]
#[derive(Clone, Copy)]
pub struct MoldTaken {
    /// The number that goes with a refusal: a length, an index, an offset, an end or a sequence number; 0 if the
    /// refusal has none.
    pub detail: u64,
    /// The number of messages that were delivered. They are the last ones of the batch.
    pub delivered: u32,
    /// The number of messages of the datagram that were stored.
    pub kept: u32,
    /// The number of messages of the datagram above the window, which are dropped.
    pub dropped: u32,
    /// Padding, which is never written.
    pub unused: u32,
}

impl MoldTaken {
    /// Writes the counts of a datagram that was taken.
    pub(crate) fn write_taken(&mut self, taken: Taken)
        ensures { self.new ≡ record {
          detail = 0;
          delivered = taken.handed;
          kept = taken.kept;
          dropped = taken.beyond;
          unused = self.old.unused;
        } }
    {
        self.detail = 0;
        self.delivered = taken.handed;
        self.kept = taken.kept;
        self.dropped = taken.beyond;
    }

    /// Writes the number that goes with a refusal, and returns its code.
    pub(crate) fn write_refused(&mut self, refused: Refusal) -> u32
        ensures code { result ≡ refusal_code refused }
        ensures fields { self.new ≡ record {
          detail = refusal_number refused;
          delivered = 0;
          kept = 0;
          dropped = 0;
          unused = self.old.unused;
        } }
    {
        let (code, detail) = code_of_refusal(refused);
        self.detail = detail;
        self.delivered = 0;
        self.kept = 0;
        self.dropped = 0;
        code
    }
}
