//! Requests, checked against what a journal has.

ghost use Rattle.std.specs.Prelude.{◌≡◌, ◌+◌, ◌≤◌, ◌<◌, length, IfOk};
ghost use Rattle.mold_session.specs.Journal.{JournalState};
ghost use Rattle.mold_session.specs.Server.{checked_request};

use crate::error::AnswerError;
use mold_wire::{Request, RequestError, Session};

/// Decodes a request for messages of this session with numbers below `next`, or returns the first reason to refuse it.
pub fn check_request(session: Session, next: u64, request: &[u8]) -> Result<Request, AnswerError>
    ensures checked { (journal : JournalState) → journal.session ≡ session → length journal.messages + 1 ≡ next →
        result ≡ checked_request journal request.now }
    ensures session { IfOk result (λ request. request.session ≡ session) }
    ensures first { IfOk result (λ request. 1 ≤ request.sequence) }
    ensures last { IfOk result (λ request. request.sequence < next) }
{
    let request = match Request::decode(request) {
        Ok(request) => request,
        Err(RequestError::RequestLength { len }) => return Err(AnswerError::RequestLength { len }),
    };
    if request.session != session {
        return Err(AnswerError::WrongSession);
    }
    if request.sequence == 0 {
        return Err(AnswerError::SequenceZero);
    }
    if request.count == 0 {
        return Err(AnswerError::EmptyRequest);
    }
    if request.sequence >= next {
        return Err(AnswerError::Ahead { next });
    }
    Ok(request)
}
