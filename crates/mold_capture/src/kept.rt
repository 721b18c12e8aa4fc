//! The messages that a checker keeps, each once.

ghost use Rattle.std.specs.Prelude.{◌≡◌, ◌+◌, ◌-◌, ◌<◌, ◌≤◌, ◌^◌, ◌++◌, ◌∷◌, [], drop, length, take, slice_get, OnOk, OnErr};
ghost use Rattle.std.specs.Option.{option_copied};
ghost use Rattle.mold_capture.specs.declared.offsets.TheConstants.{MAX_STEP};

use crate::ends::Ends;
use std::alloc::{AllocError, Global};
use std::marker::Model;

// The bytes from offset `start` up to, but not including, offset `end`.
fn part(bytes: &[u8], start: usize, end: usize) -> &[u8]
    requires ordered { start ≤ end }
    requires within { end ≤ length bytes.now }
    ensures { result.now ≡ take (end - start) (drop start bytes.entry.now) }
{
    &bytes[start..end]
}

/// Messages of at most `MAX_STEP` bytes, joined in one buffer. A message takes its bytes, and at most 4 more for its
/// end, see `Ends`. A full buffer doubles its capacity, but memory that was never written is not resident.
#[derive(Drop)]
pub(crate) struct Kept {
    ends: Ends,
    bytes: Vec<u8>,
}

impl Model for Kept {
    ghost use Rattle.std.specs.Prelude.{ℕ, List};
    ghost use Rattle.mold_capture.specs.Kept.{pieces, AreEnds};

    ghost Value = { List (List ℕ) };

    ghost view = { λ k. pieces k.ends k.bytes.items };

    ghost invariant = { λ k. AreEnds k.ends k.bytes.items };
}

impl Kept {
    /// Returns an empty list. This allocates nothing.
    pub(crate) fn new(alloc: Global) -> Kept
        ensures { result ≡ [] }
    {
        Kept {
            ends: Ends::new(alloc),
            bytes: Vec::new(alloc),
        }
    }

    /// Returns the number of messages.
    pub(crate) fn len(&self) -> usize
        ensures { result ≡ length self.now }
    {
        self.ends.len()
    }

    /// Returns the message at index `i`, counted from 0, or `None` if there are at most `i` messages. It takes constant
    /// time.
    pub(crate) fn get(&self, i: usize) -> Option<&[u8]>
        ensures { option_copied result ≡ slice_get self.now i }
    {
        if i >= self.ends.len() {
            return None;
        }
        let start = self.ends.end_of(i);
        let end = self.ends.end_of(i + 1);
        Some(part(&self.bytes, start, end))
    }

    /// Appends a message. It returns an error if an allocation fails, and then nothing was added.
    pub(crate) fn push(&mut self, message: &[u8]) -> Result<(), AllocError>
        requires short { length message.now ≤ MAX_STEP }
        ensures added { OnOk result (self.new ≡ self.old ++ message.now ∷ []) }
        ensures same { OnErr result (self.new ≡ self.old) }
    {
        let end = self.bytes.len();
        self.bytes.extend_from_slice(message)?;
        match self.ends.push(message.len()) {
            Ok(()) => Ok(()),
            Err(error) => {
                self.bytes.truncate(end);
                Err(error)
            }
        }
    }

    /// Keeps the first `keep` messages, or all if there are fewer.
    pub(crate) fn truncate(&mut self, keep: usize)
        ensures { self.new ≡ take keep self.old }
    {
        if keep < self.ends.len() {
            let end = self.ends.end_of(keep);
            self.ends.truncate(keep);
            self.bytes.truncate(end);
        }
    }
}
