//! Operations on sixteen bytes at once. Each operation is a separate function, so that one clause states what
//! it does to a lane.

ghost use Rattle.std.specs.Prelude.{◌≡◌, ◌++◌, ◌+◌, ◌/◌, ◌%◌, map, bit_and};
ghost use Rattle.std.specs.Simd.Lanes.{chunk, zip2};
ghost use Rattle.mold_digits.specs.Lanes.{evens, larger_of, odds, smaller_of, woven};

use std::simd::prelude::*;

/// The number of bytes in a vector.
pub const LANES: usize = 16;

/// Half the number of bytes in a vector.
pub const HALF: usize = LANES / 2;

/// Adds `amount` to each byte, modulo 256.
#[inline(always)]
pub fn plus(lanes: u8x16, amount: u8) -> u8x16
    ensures { result ≡ map (λ x. (x + amount) % 256) lanes }
{
    lanes + u8x16::splat(amount)
}

/// Clears the bits of each byte that are not in `mask`.
#[inline(always)]
pub fn masked(lanes: u8x16, mask: u8) -> u8x16
    ensures { result ≡ map (λ x. bit_and x mask) lanes }
{
    lanes & u8x16::splat(mask)
}

/// Returns the upper four bits of each byte.
#[inline(always)]
pub fn high_halves(lanes: u8x16) -> u8x16
    ensures { result ≡ map (λ x. x / 16) lanes }
{
    lanes >> u8x16::splat(4)
}

/// Raises each byte below `floor` to `floor`.
#[inline(always)]
pub fn at_least(lanes: u8x16, floor: u8) -> u8x16
    ensures { result ≡ map (λ x. larger_of x floor) lanes }
{
    let floors = u8x16::splat(floor);
    lanes.simd_lt(floors).select(floors, lanes)
}

/// Lowers each byte above `cap` to `cap`.
#[inline(always)]
pub fn at_most(lanes: u8x16, cap: u8) -> u8x16
    ensures { result ≡ map (λ x. smaller_of x cap) lanes }
{
    let caps = u8x16::splat(cap);
    lanes.simd_lt(caps).select(lanes, caps)
}

/// Returns, for each lane, the smaller of the two bytes.
#[inline(always)]
pub fn smaller(first: u8x16, second: u8x16) -> u8x16
    ensures { result ≡ zip2 smaller_of first second }
{
    first.simd_lt(second).select(first, second)
}

/// Returns the bytes at even indices of the two vectors together.
#[inline(always)]
pub fn at_even_places(first: u8x16, second: u8x16) -> u8x16
    ensures { result ≡ evens (first ++ second) }
{
    first.shuffle(
        second,
        [0, 2, 4, 6, 8, 10, 12, 14, 16, 18, 20, 22, 24, 26, 28, 30],
    )
}

/// Returns the bytes at odd indices of the two vectors together.
#[inline(always)]
pub fn at_odd_places(first: u8x16, second: u8x16) -> u8x16
    ensures { result ≡ odds (first ++ second) }
{
    first.shuffle(
        second,
        [1, 3, 5, 7, 9, 11, 13, 15, 17, 19, 21, 23, 25, 27, 29, 31],
    )
}

/// Interleaves the first halves of both vectors: a byte of `high`, then a byte of `low`.
#[inline(always)]
pub fn woven_front(high: u8x16, low: u8x16) -> u8x16
    ensures { result ≡ woven (chunk 0 8 high) (chunk 0 8 low) }
{
    high.shuffle(
        low,
        [0, 16, 1, 17, 2, 18, 3, 19, 4, 20, 5, 21, 6, 22, 7, 23],
    )
}

/// Interleaves the second halves of both vectors: a byte of `high`, then a byte of `low`.
#[inline(always)]
pub fn woven_back(high: u8x16, low: u8x16) -> u8x16
    ensures { result ≡ woven (chunk 8 8 high) (chunk 8 8 low) }
{
    high.shuffle(
        low,
        [8, 24, 9, 25, 10, 26, 11, 27, 12, 28, 13, 29, 14, 30, 15, 31],
    )
}
