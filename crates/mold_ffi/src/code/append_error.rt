//! The code of a message that is not published.

ghost use Rattle.std.specs.Prelude.{◌≡◌};
ghost use Rattle.mold_ffi.specs.Code.AppendError.{append_error_code, append_error_number};

use crate::code;
use mold_session::AppendError;

/// The code of the error, and the number that goes with it, or 0.
pub(crate) fn code_of_append_error(error: AppendError) -> (u32, u64)
    ensures code { result.0 ≡ append_error_code error }
    ensures number { result.1 ≡ append_error_number error }
{
    match error {
        AppendError::Closed => (code::CLOSED, 0),
        AppendError::TooLong { len } => (code::TOO_LONG, len as u64),
        AppendError::Full => (code::NUMBERS, 0),
        AppendError::Memory => (code::MEMORY, 0),
    }
}
