//! Decoding thirty-two digits at once.

ghost use Rattle.std.specs.Prelude.{◌≡◌, ◌++◌, ◌+◌, ◌*◌, ◌≤◌, length, map, take, true, false, MatchResult};
ghost use Rattle.std.specs.Simd.Lanes.{chunk, zip2};
ghost use Rattle.hex.specs.Hex.{decode_of, decode_pairs};
ghost use Rattle.mold_digits.specs.Lanes.{any_large, pair_byte, reading};

use crate::lanes::{
    LANES, at_even_places, at_least, at_most, at_odd_places, masked, plus, smaller,
};
use std::simd::prelude::*;

/// Fills `out`, which has room for at least sixteen bytes, with the bytes of the digits. Returns whether all of them
/// are digits. If the last bytes do not fill a vector, the last vector overlaps the one before it.
pub fn decode_blocks(digits: &[u8], out: &mut [u8]) -> bool
    requires sized { length digits.now ≡ 2 * length out.old }
    requires enough { 16 ≤ length out.old }
    ensures { MatchResult (decode_of digits.now)
        (λ bytes. (result ≡ true) × (out.new ≡ bytes)) (λ _. result ≡ false) }
{
    let blocks = (out.len() - 1) / LANES;
    'whole: for block in 0..blocks {
        if !decode_block(digits, block * LANES, out) {
            return false;
        }
    }
    decode_block(digits, out.len() - LANES, out)
}

// Writes sixteen bytes from offset `offset` on. Returns whether all of their digits are valid.
fn decode_block(digits: &[u8], offset: usize, out: &mut [u8]) -> bool
    requires digits { 2 * offset + 32 ≤ length digits.now }
    requires room { offset + 16 ≤ length out.old }
    ensures { MatchResult (decode_pairs (2 * offset) (chunk (2 * offset) 32 digits.now))
        (λ bytes. (result ≡ true) × (take (offset + 16) out.new ≡ take offset out.old ++ bytes))
        (λ _. result ≡ false) }
{
    let first = readings(digits, 2 * offset);
    let second = readings(digits, 2 * offset + LANES);
    let high = at_even_places(first, second);
    let low = at_odd_places(first, second);
    if has_large(high, low) {
        return false;
    }
    pair_bytes(high, low).copy_to_slice(&mut out[offset..]);
    true
}

// Returns the value of each digit, and 16 or more for a byte that is not a digit. Adding 198 maps the
// numerals to the greatest bytes. Masking with 223 makes letters upper case, and adding 191 maps A to F to
// the least bytes. Adding 10 then maps both to their values.
#[inline(always)]
fn readings(digits: &[u8], at: usize) -> u8x16
    requires { at + 16 ≤ length digits.now }
    ensures { result ≡ map reading (chunk at 16 digits.now) }
{
    let lanes = u8x16::from_slice(&digits[at..]);
    let numerals = plus(at_least(plus(lanes, 198), 6), 10);
    let letters = plus(at_most(plus(masked(lanes, 223), 191), 245), 10);
    smaller(numerals, letters)
}

#[inline(always)]
fn has_large(high: u8x16, low: u8x16) -> bool
    ensures { result ≡ any_large high low }
{
    u8x16::splat(15).simd_lt(high | low).to_bitmask() != 0
}

#[inline(always)]
fn pair_bytes(high: u8x16, low: u8x16) -> u8x16
    ensures value { result ≡ zip2 pair_byte high low }
    ensures len { length result ≡ 16 }
{
    high * u8x16::splat(16) + low
}
