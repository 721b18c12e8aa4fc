//! The errors of a follower as those of a journal file.

ghost use Rattle.std.specs.Prelude.{◌≡◌};
ghost use Rattle.mold_durable.specs.Reading.{file_error};

use mold_durable::OpenError;
use mold_session::FileError;

/// Returns the error that `Journal::load` has for the same reason.
pub fn load_error(error: OpenError) -> FileError
    ensures { result ≡ file_error error }
{
    match error {
        OpenError::Short { len } => FileError::Short { len },
        OpenError::BadMagic => FileError::BadMagic,
        OpenError::Full => FileError::Full,
        OpenError::TooLong { len } => FileError::TooLong { len },
        OpenError::Damaged { number } => FileError::Damaged { number },
        OpenError::Read => FileError::Read,
        OpenError::Write => FileError::Write,
        OpenError::Memory => FileError::Memory,
    }
}
