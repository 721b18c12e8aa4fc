//! The offsets at which messages end.

ghost use Rattle.std.specs.Prelude.{◌≡◌, ◌+◌, ◌<◌, ◌≤◌, ◌^◌, ◌++◌, ◌∷◌, [], length, take, IsTrue, OnOk, OnErr};
ghost use Rattle.mold_capture.specs.Ends.{end_of};
ghost use Rattle.mold_capture.specs.declared.offsets.TheConstants.{MAX_STEP};

use crate::offsets::Offsets;
use std::alloc::{AllocError, Global};
use std::marker::Model;

// Whether a message of this length and the `same` messages at the start have one length. No message may follow these.
fn is_same(same: usize, width: usize, later: usize, size: usize) -> bool
    ensures { IsTrue result → (later ≡ 0) × (0 < same → width ≡ size) }
{
    later == 0 && (same == 0 || width == size)
}

/// The offsets at which joined messages end. As long as all messages have the length of the first one, none of them
/// takes memory. From the first message of another length on, each message takes what an entry of `Offsets` takes.
#[derive(Drop)]
pub(crate) struct Ends {
    // The number of messages at the start whose lengths are `width`.
    same: usize,
    width: usize,
    // The offsets at which the messages after these end.
    later: Offsets,
}

impl Model for Ends {
    ghost use Rattle.std.specs.Prelude.{ℕ, List, ◌*◌, ◌+◌, ◌<◌, ◌^◌, length};
    ghost use Rattle.mold_capture.specs.Ends.{ends_with};

    ghost Value = { List ℕ };

    ghost view = { λ e. ends_with e.same e.width e.later };

    ghost invariant = { λ e. (e.same + length e.later < 2 ^ 64) × (e.same * e.width < 2 ^ 64) };
}

impl Ends {
    /// Returns the ends of no messages. This allocates nothing.
    pub(crate) fn new(alloc: Global) -> Ends
        ensures { result ≡ [] }
    {
        Ends {
            same: 0,
            width: 0,
            later: Offsets::new(alloc),
        }
    }

    /// Returns the number of messages.
    pub(crate) fn len(&self) -> usize
        ensures { result ≡ length self.now }
    {
        self.same + self.later.len()
    }

    /// Returns the offset at which the first `count` messages end, in constant time.
    pub(crate) fn end_of(&self, count: usize) -> usize
        requires { count ≤ length self.now }
        ensures { result ≡ end_of self.now count }
    {
        if count <= self.same {
            count * self.width
        } else {
            self.later.get(count - self.same - 1)
        }
    }

    /// Appends the end of a message with this length. It returns an error if an allocation fails or the number of
    /// messages would not fit, and then nothing was added.
    pub(crate) fn push(&mut self, size: usize) -> Result<(), AllocError>
        requires short { size ≤ MAX_STEP }
        requires within { end_of self.old (length self.old) + size < 2 ^ 64 }
        ensures added { OnOk result (self.new ≡ self.old ++ (end_of self.old (length self.old) + size) ∷ []) }
        ensures same { OnErr result (self.new ≡ self.old) }
    {
        let len = self.len();
        if len == usize::MAX {
            return Err(AllocError);
        }
        if is_same(self.same, self.width, self.later.len(), size) {
            self.width = size;
            self.same += 1;
            return Ok(());
        }
        let last = self.end_of(len);
        self.later.push(last, last + size)
    }

    /// Keeps the ends of the first `keep` messages, or all if there are fewer.
    pub(crate) fn truncate(&mut self, keep: usize)
        ensures { self.new ≡ take keep self.old }
    {
        if keep <= self.same {
            self.same = keep;
            self.later.truncate(0);
        } else {
            self.later.truncate(keep - self.same);
        }
    }
}
