//! Encoding bytes as hexadecimal digits.

ghost use Rattle.std.specs.Prelude.{◌≡◌, ◌*◌, ◌<◌, length, slice_index};
ghost use Rattle.hex.specs.Hex.{encode_lower, lower_digits};

mod block;

use crate::lanes::{HALF, LANES};
use block::{encode_blocks, encode_halves};

/// Fills `out` with the digits of the bytes, two for each byte.
#[inline(always)]
pub fn encode_into(bytes: &[u8], out: &mut [u8])
    requires { length out.old ≡ 2 * length bytes.now }
    ensures { out.new ≡ encode_lower bytes.now }
{
    if bytes.len() < HALF {
        encode_few(bytes, out)
    } else if bytes.len() < LANES {
        encode_halves(bytes, out)
    } else {
        encode_blocks(bytes, out)
    }
}

fn encode_few(bytes: &[u8], out: &mut [u8])
    requires { length out.old ≡ 2 * length bytes.now }
    ensures { out.new ≡ encode_lower bytes.now }
{
    'bytes: for i in 0..bytes.len() {
        let byte = bytes[i];
        out[2 * i] = lower_digit(byte >> 4);
        out[2 * i + 1] = lower_digit(byte & 15);
    }
}

#[inline(always)]
fn lower_digit(value: u8) -> u8
    requires { value < 16 }
    ensures { result ≡ slice_index lower_digits value }
{
    if value < 10 {
        b'0' + value
    } else {
        b'a' - 10 + value
    }
}
