//! Encoding sixteen bytes at once.

ghost use Rattle.std.specs.Prelude.{◌≡◌, ◌++◌, ◌+◌, ◌*◌, ◌<◌, ◌≤◌, drop, length, map, take};
ghost use Rattle.std.specs.Simd.Lanes.{Each1, chunk};
ghost use Rattle.hex.specs.Hex.{encode_lower};
ghost use Rattle.mold_digits.specs.Lanes.{digit_of};

use crate::lanes::{HALF, LANES, high_halves, masked, plus, woven_back, woven_front};
use std::simd::prelude::*;

/// Fills `out` with the digits of eight to fifteen bytes: those of the first eight bytes, and then those of the last
/// eight, which may overlap.
#[inline(always)]
pub fn encode_halves(bytes: &[u8], out: &mut [u8])
    requires sized { length out.old ≡ 2 * length bytes.now }
    requires enough { 8 ≤ length bytes.now }
    requires few { length bytes.now < 16 }
    ensures { out.new ≡ encode_lower bytes.now }
{
    let last = bytes.len() - HALF;
    let (front, back) = half_digits(&bytes[..HALF], &bytes[last..]);
    front.copy_to_slice(&mut out[..]);
    back.copy_to_slice(&mut out[2 * last..]);
}

// Returns the digits of eight bytes and of eight others, which are encoded as one vector.
#[inline(always)]
fn half_digits(first: &[u8], second: &[u8]) -> (u8x16, u8x16)
    requires first { length first.now ≡ 8 }
    requires second { length second.now ≡ 8 }
    ensures front { result.0 ≡ encode_lower first.now }
    ensures back { result.1 ≡ encode_lower second.now }
{
    let mut both = [0; LANES];
    both[..HALF].copy_from_slice(first);
    both[HALF..].copy_from_slice(second);
    digits(u8x16::from_array(both))
}

/// Fills `out` with the digits of at least sixteen bytes. If the last bytes do not fill a vector, the last
/// vector overlaps the one before it.
pub fn encode_blocks(bytes: &[u8], out: &mut [u8])
    requires sized { length out.old ≡ 2 * length bytes.now }
    requires enough { 16 ≤ length bytes.now }
    ensures { out.new ≡ encode_lower bytes.now }
{
    let blocks = (bytes.len() - 1) / LANES;
    'whole: for block in 0..blocks {
        encode_block(bytes, block * LANES, out);
    }
    encode_block(bytes, bytes.len() - LANES, out);
}

// Writes the digits of the sixteen bytes from offset `offset` on.
fn encode_block(bytes: &[u8], offset: usize, out: &mut [u8])
    requires bytes { offset + 16 ≤ length bytes.now }
    requires room { 2 * offset + 32 ≤ length out.old }
    ensures { take (2 * offset + 32) out.new ≡ take (2 * offset) out.old ++ encode_lower (chunk offset 16 bytes.now) }
{
    let (front, back) = digits(u8x16::from_slice(&bytes[offset..]));
    front.copy_to_slice(&mut out[2 * offset..]);
    back.copy_to_slice(&mut out[2 * offset + LANES..]);
}

// Returns the digits of sixteen bytes: those of the first eight, and those of the others.
#[inline(always)]
fn digits(lanes: u8x16) -> (u8x16, u8x16)
    ensures front { result.0 ≡ encode_lower (chunk 0 8 lanes) }
    ensures back { result.1 ≡ encode_lower (chunk 8 8 lanes) }
{
    let high = lower_digits(high_halves(lanes));
    let low = lower_digits(masked(lanes, 15));
    (woven_front(high, low), woven_back(high, low))
}

// Returns the digit of each value, which is below sixteen.
#[inline(always)]
fn lower_digits(values: u8x16) -> u8x16
    requires { Each1 (λ x. x < 16) values }
    ensures { result ≡ map digit_of values }
{
    u8x16::from_array(*b"0123456789abcdef").swizzle_dyn(values)
}
