//! Decoding hexadecimal digits into bytes.

ghost use Rattle.std.specs.Prelude.{◌≡◌, ◌*◌, ◌/◌, ◌<◌, length, IfOk, OnErr, MatchResult, true, false};
ghost use Rattle.std.specs.Prelude.{vec_capacity};
ghost use Rattle.hex.specs.Hex.{decode_of};

mod block;

use crate::lanes::LANES;
use crate::table::digit_value;
use block::decode_blocks;
use std::alloc::AllocError;

/// Replaces the contents of `out` with the bytes that the hexadecimal digits, of upper or lower case, encode, and
/// returns true. If the number of digits is odd or a byte is not a digit, it returns false, and the contents of `out`
/// are unspecified. It allocates only if the bytes do not fit in the capacity of `out`.
pub fn decode(digits: &[u8], out: &mut Vec<u8>) -> Result<bool, AllocError>
    ensures value { IfOk result (λ spelled. MatchResult (decode_of digits.now)
        (λ bytes. (spelled ≡ true) × (out.new.items ≡ bytes)) (λ _. spelled ≡ false)) }
    ensures err { OnErr result (out.new.items ≡ out.old.items) }
    ensures full { OnErr result (vec_capacity out.old < length digits.now / 2) }
{
    if digits.len() % 2 != 0 {
        return Ok(false);
    }
    out.resize(digits.len() / 2, 0)?;
    Ok(decode_into(digits, out.as_mut_slice()))
}

// Fills `out` with the bytes of the digits, of which there are twice as many. Returns whether all of them are
// digits.
fn decode_into(digits: &[u8], out: &mut [u8]) -> bool
    requires { length digits.now ≡ 2 * length out.old }
    ensures { MatchResult (decode_of digits.now)
        (λ bytes. (result ≡ true) × (out.new ≡ bytes)) (λ _. result ≡ false) }
{
    if out.len() < LANES {
        decode_few(digits, out)
    } else {
        decode_blocks(digits, out)
    }
}

// Decodes the digits one by one. It checks for a bad digit once, at the end, since a branch for each digit would cost
// more than the rest of the loop.
fn decode_few(digits: &[u8], out: &mut [u8]) -> bool
    requires { length digits.now ≡ 2 * length out.old }
    ensures { MatchResult (decode_of digits.now)
        (λ bytes. (result ≡ true) × (out.new ≡ bytes)) (λ _. result ≡ false) }
{
    let mut seen = 0u8;
    'bytes: for i in 0..out.len() {
        let high = digit_value(digits[2 * i]);
        let low = digit_value(digits[2 * i + 1]);
        seen |= high | low;
        out[i] = high.wrapping_mul(16).wrapping_add(low);
    }
    seen < 16
}
