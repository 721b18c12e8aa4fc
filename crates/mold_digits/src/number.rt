//! Decimal numbers that users enter.

ghost use Rattle.std.specs.Prelude.{◌≡◌};
ghost use Rattle.mold_digits.specs.Numbers.{decimal_of, is_sized};

use crate::writing::MAX_DIGITS;

fn is_sized(word: &[u8]) -> bool
    ensures { result ≡ is_sized word.now }
{
    !word.is_empty() && word.len() <= MAX_DIGITS
}

/// Returns the decimal number that `word` encodes, or `None` if it does not encode one. It must have 1 to 20 digits,
/// leading zeros included, and be at most 18446744073709551615.
pub fn read_number(word: &[u8]) -> Option<u64>
    ensures { result ≡ decimal_of word.now }
{
    if !is_sized(word) {
        return None;
    }
    let mut number = 0u128;
    'digits: for digit in word {
        if !digit.is_ascii_digit() {
            return None;
        }
        number = number * 10 + u128::from(*digit - b'0');
    }
    u64::try_from(number).ok()
}
