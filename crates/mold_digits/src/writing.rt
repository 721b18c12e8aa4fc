//! Writing numbers and bytes into a slice.

ghost use Rattle.std.specs.Prelude.{◌≡◌, ◌+◌, ◌*◌, ◌<◌, ◌≤◌, length, drop, decimal};
ghost use Rattle.hex.specs.Hex.{encode_lower};
ghost use Rattle.mold_digits.specs.Decimals.{last_four};
ghost use Rattle.mold_digits.specs.Writing.{IsWritten};

use crate::encoding::encode_into;
use itoa::Buffer;

/// The greatest number of decimal digits of a 64-bit number, and of a number that `read_number` accepts.
pub const MAX_DIGITS: usize = 20;

/// The greatest number of decimal digits of a 128-bit number.
pub const MAX_LONG_DIGITS: usize = 39;

fn digit(value: u64) -> u8
    requires { value < 10 }
    ensures { result ≡ 48 + value }
{
    b'0' + value as u8
}

#[inline(always)]
fn last_four_digits(number: u64) -> [u8; 4]
    ensures { result ≡ last_four number }
{
    [
        digit(number / 1000 % 10),
        digit(number / 100 % 10),
        digit(number / 10 % 10),
        digit(number % 10),
    ]
}

/// Writes the bytes unchanged from offset `at` on and returns the offset after them.
#[inline(always)]
pub fn write_text(out: &mut [u8], at: usize, text: &[u8]) -> usize
    requires { at + length text.now ≤ length out.old }
    ensures { IsWritten out.old out.new at result text.now }
{
    let end = at + text.len();
    out[at..end].copy_from_slice(text);
    end
}

/// Writes the number in decimal from offset `at` on and returns the offset after its last digit. There must
/// be room for 20 bytes, and bytes after the last digit may change.
#[inline(always)]
pub fn write_number(out: &mut [u8], at: usize, number: u64) -> usize
    requires { at + 20 ≤ length out.old }
    ensures written { IsWritten out.old out.new at result (decimal number) }
    ensures most { result ≤ at + 20 }
{
    if number < 10_000 {
        write_few_digits(out, at, number)
    } else if number < 100_000_000 {
        write_more_digits(out, at, number)
    } else {
        write_any_number(out, at, number)
    }
}

// Writes one to four digits.
fn write_few_digits(out: &mut [u8], at: usize, number: u64) -> usize
    requires room { at + 4 ≤ length out.old }
    requires most { number < 10000 }
    ensures { IsWritten out.old out.new at result (decimal number) }
{
    if number < 10 {
        return write_text(out, at, &[digit(number)]);
    }
    if number < 100 {
        return write_text(out, at, &[digit(number / 10), digit(number % 10)]);
    }
    if number < 1000 {
        return write_text(
            out,
            at,
            &[
                digit(number / 100),
                digit(number / 10 % 10),
                digit(number % 10),
            ],
        );
    }
    write_text(out, at, &last_four_digits(number))
}

// Writes five to eight digits.
fn write_more_digits(out: &mut [u8], at: usize, number: u64) -> usize
    requires room { at + 8 ≤ length out.old }
    requires least { 10000 ≤ number }
    requires most { number < 100000000 }
    ensures { IsWritten out.old out.new at result (decimal number) }
{
    let front = number / 10_000;
    let [e, f, g, h] = last_four_digits(number);
    if front < 10 {
        return write_text(out, at, &[digit(front), e, f, g, h]);
    }
    if front < 100 {
        return write_text(out, at, &[digit(front / 10), digit(front % 10), e, f, g, h]);
    }
    if front < 1000 {
        return write_text(
            out,
            at,
            &[
                digit(front / 100),
                digit(front / 10 % 10),
                digit(front % 10),
                e,
                f,
                g,
                h,
            ],
        );
    }
    let [a, b, c, d] = last_four_digits(front);
    write_text(out, at, &[a, b, c, d, e, f, g, h])
}

#[inline(never)]
fn write_any_number(out: &mut [u8], at: usize, number: u64) -> usize
    requires { at + 20 ≤ length out.old }
    ensures { IsWritten out.old out.new at result (decimal number) }
{
    let mut buffer = Buffer::new();
    write_text(out, at, buffer.format(number).as_bytes())
}

/// Writes the number in decimal from offset `at` on and returns the offset after its last digit. There must
/// be room for 39 bytes, and bytes after the last digit may change.
#[inline(always)]
pub fn write_long_number(out: &mut [u8], at: usize, number: u128) -> usize
    requires { at + 39 ≤ length out.old }
    ensures written { IsWritten out.old out.new at result (decimal number) }
    ensures most { result ≤ at + 39 }
{
    if let Ok(short) = u64::try_from(number) {
        write_number(out, at, short)
    } else {
        write_very_long_number(out, at, number)
    }
}

#[inline(never)]
fn write_very_long_number(out: &mut [u8], at: usize, number: u128) -> usize
    requires { at + 39 ≤ length out.old }
    ensures written { IsWritten out.old out.new at result (decimal number) }
    ensures most { result ≤ at + 39 }
{
    let mut buffer = Buffer::new();
    write_text(out, at, buffer.format(number).as_bytes())
}

/// Writes two lower-case hexadecimal digits for each byte from offset `at` on and returns the offset after
/// them. The other bytes of `out` do not change.
#[inline(always)]
pub fn write_bytes(out: &mut [u8], at: usize, bytes: &[u8]) -> usize
    requires { at + 2 * length bytes.now ≤ length out.old }
    ensures written { IsWritten out.old out.new at result (encode_lower bytes.now) }
    ensures end { result ≡ at + 2 * length bytes.now }
    ensures behind { drop result out.new ≡ drop result out.old }
{
    let end = at + 2 * bytes.len();
    encode_into(bytes, &mut out[at..end]);
    end
}
