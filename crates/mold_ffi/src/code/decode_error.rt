//! The code of a decode fault.

ghost use Rattle.std.specs.Prelude.{◌≡◌};
ghost use Rattle.mold_ffi.specs.Code.DecodeError.{decode_error_code, decode_error_number};

use crate::code;
use mold_wire::DecodeError;

/// The code of the fault, and the number that goes with it.
pub(crate) fn code_of_decode_error(error: DecodeError) -> (u32, u64)
    ensures code { result.0 ≡ decode_error_code error }
    ensures number { result.1 ≡ decode_error_number error }
{
    match error {
        DecodeError::Short { len } => (code::SHORT, len as u64),
        DecodeError::BlockCut { index } => (code::BLOCK_CUT, u64::from(index)),
        DecodeError::Trailing { at } => (code::TRAILING, at as u64),
    }
}
