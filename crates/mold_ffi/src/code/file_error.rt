//! The code of bytes that are not a journal file.

ghost use Rattle.std.specs.Prelude.{◌≡◌};
ghost use Rattle.mold_ffi.specs.Code.FileError.{file_error_code, file_error_number};

use crate::code;
use mold_session::FileError;

/// The code of the error, and the number that goes with it, or 0.
pub(crate) fn code_of_file_error(error: FileError) -> (u32, u64)
    ensures code { result.0 ≡ file_error_code error }
    ensures number { result.1 ≡ file_error_number error }
{
    match error {
        FileError::Short { len } => (code::FILE_SHORT, len as u64),
        FileError::BadMagic => (code::BAD_MAGIC, 0),
        FileError::BadFlag { byte } => (code::BAD_FLAG, u64::from(byte)),
        FileError::Full => (code::NUMBERS, 0),
        FileError::TooLong { len } => (code::TOO_LONG, len as u64),
        FileError::BlockCut { number } => (code::FILE_CUT, number),
        FileError::CountDiffers { count: _, found } => (code::COUNT_DIFFERS, found),
        FileError::Damaged { number } => (code::DAMAGED, number),
        FileError::Read | FileError::Write => (code::BROKEN, 0),
        FileError::Memory => (code::MEMORY, 0),
    }
}
