//! A list of offsets that takes 4 bytes for each.

ghost use Rattle.std.specs.Prelude.{◌≡◌, ◌+◌, ◌-◌, ◌<◌, ◌≤◌, ◌++◌, ◌∷◌, [], length, take, get_or, IfOk, OnOk, OnErr};
ghost use Rattle.mold_capture.specs.Offsets.{HasBase};

use std::alloc::{AllocError, Global};
use std::marker::Model;

/// The number of offsets in a block. All offsets of a block are stored as distances from one base.
pub(crate) const BLOCK: usize = 65_536;

/// The largest step from an offset to the next one: the bytes of the longest message. `BLOCK` steps are less than
/// 2^32.
pub(crate) const MAX_STEP: usize = 65_535;

// The base of a block, which is the last block or the one after it. If it is new, `last` becomes its base. This returns
// an error if an allocation fails, and then nothing was added.
fn base_of(bases: &mut Vec<usize>, block: usize, last: usize) -> Result<usize, AllocError>
    requires { block ≤ length bases.old.items }
    ensures base { IfOk result (λ base. HasBase bases.old.items block last base bases.new.items) }
    ensures same { OnErr result (bases.new.items ≡ bases.old.items) }
{
    if block == bases.len() {
        bases.push(last)?;
        return Ok(last);
    }
    Ok(bases[block])
}

/// Ascending offsets with steps of at most `MAX_STEP`. An offset takes 4 bytes, and each block of `BLOCK` offsets 8
/// more. When a list is full, its capacity doubles, but memory that was never written is not resident.
#[derive(Drop)]
pub(crate) struct Offsets {
    // The offset before the first one of each block.
    bases: Vec<usize>,
    // The distance of each offset from the base of its block.
    parts: Vec<u32>,
}

impl Model for Offsets {
    ghost use Rattle.std.specs.Prelude.{ℕ, List};
    ghost use Rattle.mold_capture.specs.Offsets.{offsets, AreOffsets};

    ghost Value = { List ℕ };

    ghost view = { λ o. offsets o.bases.items o.parts.items };

    ghost invariant = { λ o. AreOffsets o.bases.items o.parts.items };
}

impl Offsets {
    /// Returns an empty list. This allocates nothing.
    pub(crate) fn new(alloc: Global) -> Offsets
        ensures { result ≡ [] }
    {
        Offsets {
            bases: Vec::new(alloc),
            parts: Vec::new(alloc),
        }
    }

    /// Returns the number of offsets.
    pub(crate) fn len(&self) -> usize
        ensures { result ≡ length self.now }
    {
        self.parts.len()
    }

    /// Returns the offset at index `i`, in constant time.
    pub(crate) fn get(&self, i: usize) -> usize
        requires { i < length self.now }
        ensures { result ≡ get_or self.now i 0 }
    {
        self.bases[i / BLOCK] + self.parts[i] as usize
    }

    /// Appends an offset. `last` is the one before it, or for the first one any offset that is near enough. It returns
    /// an error if an allocation fails, and then nothing was added.
    pub(crate) fn push(&mut self, last: usize, offset: usize) -> Result<(), AllocError>
        requires after { 0 < length self.old → last ≡ get_or self.old (length self.old - 1) 0 }
        requires ordered { last ≤ offset }
        requires near { offset ≤ last + MAX_STEP }
        ensures added { OnOk result (self.new ≡ self.old ++ offset ∷ []) }
        ensures same { OnErr result (self.new ≡ self.old) }
    {
        self.parts.reserve(1)?;
        let base = base_of(&mut self.bases, self.parts.len() / BLOCK, last)?;
        self.parts.push_reserved((offset - base) as u32);
        Ok(())
    }

    /// Keeps the first `keep` offsets, or all if there are fewer.
    pub(crate) fn truncate(&mut self, keep: usize)
        ensures { self.new ≡ take keep self.old }
    {
        self.parts.truncate(keep);
        self.bases.truncate(self.parts.len().div_ceil(BLOCK));
    }
}
