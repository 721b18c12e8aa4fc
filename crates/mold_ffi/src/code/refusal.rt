//! The code of a refused datagram.

ghost use Rattle.std.specs.Prelude.{◌≡◌};
ghost use Rattle.mold_ffi.specs.Code.Refusal.{refusal_code, refusal_number};

use crate::code;
use crate::code::decode_error::code_of_decode_error;
use mold_receiver::Refusal;

/// The code of the refusal, and the number that goes with it, or 0.
pub(crate) fn code_of_refusal(refused: Refusal) -> (u32, u64)
    ensures code { result.0 ≡ refusal_code refused }
    ensures number { result.1 ≡ refusal_number refused }
{
    match refused {
        Refusal::Malformed(error) => code_of_decode_error(error),
        Refusal::WrongSession => (code::WRONG_SESSION, 0),
        Refusal::SequenceZero => (code::SEQUENCE_ZERO, 0),
        Refusal::PastLast => (code::PAST_LAST, 0),
        Refusal::EndConflict { end } => (code::END_CONFLICT, end),
        Refusal::EndBelow { known } => (code::END_BELOW, known),
        Refusal::PastEnd { end } => (code::PAST_END, end),
        Refusal::Conflict { number } => (code::CONFLICT, number),
        Refusal::Memory => (code::MEMORY, 0),
    }
}
