//! A ring of flags whose next set flag is found in constant time.

ghost use Rattle.std.specs.Prelude.{◌≡◌, ℕ, ◌+◌, ◌-◌, ◌*◌, ◌/◌, ◌%◌, ◌^◌, ◌<◌, ◌≤◌, ◌↔◌, ◌++◌, ◌∷◌, [], length, take};
ghost use Rattle.std.specs.Prelude.{drop, replicate, nat_eq, slice_index, slice_set, false, true, IfOk, IsTrue};
ghost use Rattle.std.specs.Prelude.{if◌then◌else◌};
ghost use Rattle.mold_receiver.specs.Occupied.{flag_at, bit_of, AreWritten, IsWrite, IsNext, IsNextInWord, IsNextSet};
ghost use Rattle.mold_receiver.specs.Occupied.{AreClear, AreUnset, IsFirstBit, IsFirstFlag};
ghost use Rattle.mold_wire.specs.declared.limits.TheConstants.{MAX_WIDE_WINDOW};
ghost use Rattle.mold_receiver.specs.Occupied.{AreLevels};

use crate::ring::ring_index;
use std::alloc::{AllocError, Global};
use std::marker::Model;

// Returns how many words of 64 bits have `count` bits.
fn words_for(count: usize) -> usize
    requires { count < 2 ^ 32 }
    ensures { result ≡ (count + 63) / 64 }
{
    (count + 63) / 64
}

// Returns whether bit `i` is set.
fn is_bit_set(words: &[u64], i: usize) -> bool
    requires { i / 64 < length words.now }
    ensures { result ≡ nat_eq (bit_of words.now i) 1 }
{
    (words[i / 64] >> (i % 64)) & 1 == 1
}

// Returns a word whose set bits are those from bit `from` on and below bit `to`, which are in one word.
fn mask(from: usize, to: usize) -> u64
    requires some { from < to }
    requires one { to ≤ 64 * (from / 64 + 1) }
    ensures { result ≡ 2 ^ (from % 64 + (to - from)) - 2 ^ (from % 64) }
{
    (u64::MAX >> (64 - (to - from))) << (from % 64)
}

// Sets the bits from bit `from` on and below bit `to`, or clears them. They are in one word. Returns whether this word
// was 0 and now isn't, or wasn't 0 and now is.
fn write_bits(words: &mut [u64], from: usize, to: usize, set: bool) -> bool
    requires there { from / 64 < length words.old }
    requires some { from < to }
    requires one { to ≤ 64 * (from / 64 + 1) }
    ensures { IsWrite words.old words.new from to (if set then 1 else 0) result }
{
    let k = from / 64;
    let old = words[k];
    let new = if set {
        old | mask(from, to)
    } else {
        old & !mask(from, to)
    };
    words[k] = new;
    (old == 0) != (new == 0)
}

// Returns the first set bit of word `k`, which has one.
fn first_in_word(words: &[u64], k: usize) -> usize
    requires few { length words.now ≤ 2 ^ 32 }
    requires some { 0 < slice_index words.now k }
    ensures { IsNextSet words.now (64 * k) result }
{
    64 * k + words[k].trailing_zeros() as usize
}

// Returns the first set bit from bit `from` on, if it is in the same word.
fn next_in_word(words: &[u64], from: usize) -> Option<usize>
    ensures { IsNextInWord words.now from result }
{
    let k = from / 64;
    let len = words.len();
    if k >= len {
        return None;
    }
    let rest = words[k] >> (from % 64);
    if rest == 0 {
        return None;
    }
    Some(from + rest.trailing_zeros() as usize)
}

// Returns the first bit from bit `from` on that is not set, or the first bit of the next word if there is none in the
// same word.
fn first_clear_in_word(words: &[u64], from: usize) -> usize
    requires there { from / 64 < length words.now }
    requires few { from < 2 ^ 32 }
    ensures { IsFirstBit words.now from (64 * (from / 64 + 1)) 0 result }
{
    let rest = !words[from / 64] >> (from % 64);
    let end = 64 * (from / 64 + 1);
    end.min(from + rest.trailing_zeros() as usize)
}

// Bits in levels. `bits` has a bit for each flag of a ring. Each other level has a bit for each word of the level below
// it, which is set exactly if that word isn't 0. So `next` reads at most two words of each level.
#[derive(Drop)]
struct Levels {
    bits: Vec<u64>,
    words: Vec<u64>,
    groups: Vec<u64>,
    top: [u64; 1],
}

impl Levels {
    // Returns at least `count` bits, none of which is set.
    fn new(alloc: Global, count: usize) -> Result<Levels, AllocError>
        requires { count ≤ MAX_WIDE_WINDOW }
        ensures levels { IfOk result (λ levels. AreLevels levels) }
        ensures room { IfOk result (λ levels. count ≤ 64 * length levels.bits.items) }
        ensures clear { IfOk result (λ levels. (i : ℕ) → bit_of levels.bits.items i ≡ 0) }
    {
        let bits = vec![in alloc; 0; words_for(count)]?;
        let words = vec![in alloc; 0; words_for(bits.len())]?;
        let groups = vec![in alloc; 0; words_for(words.len())]?;
        Ok(Levels {
            bits,
            words,
            groups,
            top: [0],
        })
    }

    // Sets the bits from bit `from` on and below bit `to`, or clears them. They are in one word.
    fn write_part(&mut self, from: usize, to: usize, set: bool)
        requires levels { AreLevels self.old }
        requires within { from < 64 * length self.old.bits.items }
        requires some { from < to }
        requires one { to ≤ 64 * (from / 64 + 1) }
        ensures levels { AreLevels self.new }
        ensures written { AreWritten self.old.bits.items self.new.bits.items from to (if set then 1 else 0) }
    {
        if !write_bits(&mut self.bits, from, to, set) {
            return;
        }
        let word = from / 64;
        if !write_bits(&mut self.words, word, word + 1, set) {
            return;
        }
        let group = word / 64;
        if !write_bits(&mut self.groups, group, group + 1, set) {
            return;
        }
        let top = group / 64;
        write_bits(&mut self.top, top, top + 1, set);
    }

    // Sets the bits from bit `from` on and below bit `to`, or clears them.
    fn write(&mut self, from: usize, to: usize, set: bool)
        requires levels { AreLevels self.old }
        requires order { from ≤ to }
        requires within { to ≤ 64 * length self.old.bits.items }
        ensures levels { AreLevels self.new }
        ensures written { AreWritten self.old.bits.items self.new.bits.items from to (if set then 1 else 0) }
    {
        let mut from = from;
        while from < to {
            let end = to.min((from / 64 + 1) * 64);
            self.write_part(from, end, set);
            from = end;
        }
    }

    // Returns the first set bit of `groups` from bit `from` on.
    fn next_group(&self, from: usize) -> Option<usize>
        requires { AreLevels self.now }
        ensures { IsNext self.now.groups.items from result }
    {
        match next_in_word(&self.groups, from) {
            Some(bit) => Some(bit),
            None => match next_in_word(&self.top, from / 64 + 1) {
                Some(k) => Some(first_in_word(&self.groups, k)),
                None => None,
            },
        }
    }

    // Returns the first set bit of `words` from bit `from` on.
    fn next_word(&self, from: usize) -> Option<usize>
        requires { AreLevels self.now }
        ensures { IsNext self.now.words.items from result }
    {
        match next_in_word(&self.words, from) {
            Some(bit) => Some(bit),
            None => match self.next_group(from / 64 + 1) {
                Some(k) => Some(first_in_word(&self.words, k)),
                None => None,
            },
        }
    }

    // Returns the first set bit of `bits` from bit `from` on.
    fn next(&self, from: usize) -> Option<usize>
        requires { AreLevels self.now }
        ensures { IsNext self.now.bits.items from result }
    {
        match next_in_word(&self.bits, from) {
            Some(bit) => Some(bit),
            None => match self.next_word(from / 64 + 1) {
                Some(k) => Some(first_in_word(&self.bits, k)),
                None => None,
            },
        }
    }

    // Returns the first bit from bit `from` on and below bit `to` that is not set, or `to` if each of them is set.
    fn first_clear(&self, from: usize, to: usize) -> usize
        requires levels { AreLevels self.now }
        requires order { from ≤ to }
        requires within { to ≤ 64 * length self.now.bits.items }
        ensures { IsFirstBit self.now.bits.items from to 0 result }
    {
        let mut from = from;
        while from < to {
            let end = to.min((from / 64 + 1) * 64);
            let bit = first_clear_in_word(&self.bits, from);
            if bit < end {
                return bit;
            }
            from = end;
        }
        to
    }

    // Returns the first bit from bit `from` on and below bit `to` that is set, or that is not. Returns `to` if there is
    // none.
    fn first_bit(&self, from: usize, to: usize, set: bool) -> usize
        requires levels { AreLevels self.now }
        requires order { from ≤ to }
        requires within { to ≤ 64 * length self.now.bits.items }
        ensures { IsFirstBit self.now.bits.items from to (if set then 1 else 0) result }
    {
        if !set {
            return self.first_clear(from, to);
        }
        match self.next(from) {
            Some(bit) => to.min(bit),
            None => to,
        }
    }

    // Returns whether no bit is set from bit `from` on and below bit `to`.
    fn is_clear(&self, from: usize, to: usize) -> bool
        requires levels { AreLevels self.now }
        requires within { from < 64 * length self.now.bits.items }
        ensures { IsTrue result ↔ AreClear self.now.bits.items from to }
    {
        if let Some(bit) = next_in_word(&self.bits, from) {
            return to <= bit;
        }
        let end = (from / 64 + 1) * 64;
        if to <= end {
            return true;
        }
        match self.next(end) {
            Some(bit) => to <= bit,
            None => true,
        }
    }
}

/// A ring of flags, one for each slot. It is allocated once, and takes little more than one bit for each flag. No call
/// searches for a set flag: `first_from` reads at most 28 words, wherever it is.
#[derive(Drop)]
pub(crate) struct Occupied {
    levels: Levels,
    // The bit of the first slot. The other slots follow it, and go on at bit 0 after the last one.
    head: usize,
    // The number of flags.
    count: usize,
}

impl Model for Occupied {
    ghost use Rattle.std.specs.Prelude.{List, Bool};
    ghost use Rattle.mold_receiver.specs.Occupied.{flags_in, IsRing};

    ghost Value = { List Bool };

    ghost view = { λ s. flags_in s.levels.bits.items s.head s.count };

    ghost invariant = { λ s. IsRing s.levels s.head s.count };
}

impl Occupied {
    /// Returns `count` flags, none of which is set.
    pub(crate) fn new(alloc: Global, count: u32) -> Result<Occupied, AllocError>
        requires some { 0 < count }
        requires few { count ≤ MAX_WIDE_WINDOW }
        ensures { IfOk result (λ flags. flags ≡ replicate count false) }
    {
        let levels = Levels::new(alloc, count as usize)?;
        Ok(Occupied {
            levels,
            head: 0,
            count: count as usize,
        })
    }

    /// Returns the number of flags.
    pub(crate) fn len(&self) -> usize
        ensures { result ≡ length self.now }
    {
        self.count
    }

    /// Returns whether the slot exists and its flag is set.
    pub(crate) fn is_set(&self, slot: usize) -> bool
        ensures { result ≡ flag_at self.now slot }
    {
        if slot >= self.count {
            return false;
        }
        is_bit_set(&self.levels.bits, ring_index(self.head, self.count, slot))
    }

    /// Returns the first slot from slot `from` on whose flag is `set`, or the number of flags if there is none. It
    /// reads at most 28 words if `set` is true, otherwise one word for each 64 flags that it passes.
    pub(crate) fn first_from(&self, from: usize, set: bool) -> usize
        requires { from ≤ length self.now }
        ensures { IsFirstFlag self.now from set result }
    {
        let start = ring_index(self.head, self.count, from);
        let end = start + (self.count - from);
        let last = end.min(self.count);
        let bit = self.levels.first_bit(start, last, set);
        if bit < last {
            return from + (bit - start);
        }
        from + (last - start) + self.levels.first_bit(0, end - last, set)
    }

    /// Returns whether no flag is set from slot `from` up to, but not including, slot `to`. Slots that don't exist have
    /// no flag set.
    pub(crate) fn is_clear(&self, from: usize, to: usize) -> bool
        ensures { IsTrue result ↔ AreUnset self.now from to }
    {
        let to = to.min(self.count);
        if from >= to {
            return true;
        }
        let start = ring_index(self.head, self.count, from);
        let end = start + (to - from);
        if end <= self.count {
            return self.levels.is_clear(start, end);
        }
        self.levels.is_clear(start, self.count) && self.levels.is_clear(0, end - self.count)
    }

    // Sets the flags of `count` slots from `slot` on, or clears them.
    fn write(&mut self, slot: usize, count: usize, set: bool)
        requires { slot + count ≤ length self.old }
        ensures { self.new ≡ take slot self.old ++ replicate count set ++ drop (slot + count) self.old }
    {
        let start = ring_index(self.head, self.count, slot);
        let end = start + count;
        self.levels.write(start, end.min(self.count), set);
        self.levels.write(0, end.saturating_sub(self.count), set);
    }

    /// Sets the flag of a slot.
    pub(crate) fn set(&mut self, slot: usize)
        requires { slot < length self.old }
        ensures { self.new ≡ slice_set self.old slot true }
    {
        let bit = ring_index(self.head, self.count, slot);
        self.levels.write_part(bit, bit + 1, true);
    }

    /// Drops the first `count` flags and appends as many that are not set.
    pub(crate) fn skip(&mut self, count: usize)
        requires { count ≤ length self.old }
        ensures { self.new ≡ drop count self.old ++ replicate count false }
    {
        self.write(0, count, false);
        self.head = ring_index(self.head, self.count, count);
    }

    /// Sets the flags of `count` slots from `slot` on.
    pub(crate) fn set_range(&mut self, slot: usize, count: usize)
        requires { slot + count ≤ length self.old }
        ensures { self.new ≡ take slot self.old ++ replicate count true ++ drop (slot + count) self.old }
    {
        if count == 1 {
            self.set(slot);
        } else {
            self.write(slot, count, true);
        }
    }
}
