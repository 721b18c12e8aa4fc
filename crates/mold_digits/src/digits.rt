//! Which bytes are hexadecimal digits.

ghost use Rattle.std.specs.Prelude.{◌≡◌};
ghost use Rattle.std.specs.List.{list_all};
ghost use Rattle.hex.specs.Hex.{is_hex_digit};

use crate::table::digit_value;

/// Returns whether all bytes are hexadecimal digits, of upper or lower case. Their number may be odd.
pub fn are_digits(bytes: &[u8]) -> bool
    ensures { result ≡ list_all is_hex_digit bytes.now }
{
    // One test at the end costs less than a branch for each digit.
    let mut seen = 0u8;
    'bytes: for i in 0..bytes.len() {
        seen |= digit_value(bytes[i]);
    }
    seen < 16
}
