//! Conversions of the other layers' refusals into `WorldError`.

use crate::report::WorldError;
use mold_session::{AnswerError, AppendError, SessionError};
use std::alloc::AllocError;

impl From<AllocError> for WorldError {
    ghost use Rattle.std.specs.Prelude.{◌≡◌};
    ghost use Rattle.mold_world.specs.declared.report.WorldError.TheVariants.{Memory};

    ghost from_gives = { λ cause error. error ≡ Memory };

    fn from(_: AllocError) -> WorldError {
        WorldError::Memory
    }
}

impl From<AppendError> for WorldError {
    ghost use Rattle.std.specs.Prelude.{◌≡◌};
    ghost use Rattle.mold_world.specs.Refusals.{append_error};

    ghost from_gives = { λ cause error. error ≡ append_error cause };

    fn from(cause: AppendError) -> WorldError {
        match cause {
            AppendError::Memory => WorldError::Memory,
            other => WorldError::Layer(SessionError::Append(other)),
        }
    }
}

impl From<AnswerError> for WorldError {
    ghost use Rattle.std.specs.Prelude.{◌≡◌};
    ghost use Rattle.mold_session.specs.declared.error.SessionError.TheVariants.{Answer};
    ghost use Rattle.mold_world.specs.declared.report.WorldError.TheVariants.{Layer};

    ghost from_gives = { λ cause error. error ≡ Layer (Answer cause) };

    fn from(cause: AnswerError) -> WorldError {
        WorldError::Layer(SessionError::Answer(cause))
    }
}
