//! The code of a request that a server refuses.

ghost use Rattle.std.specs.Prelude.{◌≡◌};
ghost use Rattle.mold_ffi.specs.Code.AnswerError.{answer_error_code, answer_error_number};

use crate::code;
use mold_session::AnswerError;

/// The code of the error, and the number that goes with it, or 0.
pub(crate) fn code_of_answer_error(error: AnswerError) -> (u32, u64)
    ensures code { result.0 ≡ answer_error_code error }
    ensures number { result.1 ≡ answer_error_number error }
{
    match error {
        AnswerError::RequestLength { len } => (code::REQUEST_LENGTH, len as u64),
        AnswerError::WrongSession => (code::WRONG_SESSION, 0),
        AnswerError::SequenceZero => (code::SEQUENCE_ZERO, 0),
        AnswerError::EmptyRequest => (code::EMPTY_REQUEST, 0),
        AnswerError::Ahead { next } => (code::AHEAD, next),
    }
}
