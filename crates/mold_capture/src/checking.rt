//! Checks a list of datagrams.

ghost use Rattle.std.specs.Prelude.{◌≡◌, IfOk, IfErr, map};
ghost use Rattle.mold_capture.specs.Check.{IsRefusedAt};
ghost use Rattle.mold_capture.specs.Outcome.{Answers, IsOutcome, Outcome};
ghost use Rattle.mold_capture.specs.Verdict.{IsVerdictOn};

use crate::checker::Checker;
use crate::verdict::Verdict;
use mold_rule::Refusal;
use mold_rule::laws::refusal_law;
use mold_wire::laws::reading_law;
use std::alloc::Global;

/// Returns whether the datagrams come from one whole session, and what is missing if they don't.
///
/// If a datagram is refused, the error has the index of the first such datagram, counted from 0, and the first reason.
/// If an allocation for the verdict fails, the error has the list's length and `Memory`.
pub fn check(alloc: Global, list: &[&[u8]]) -> Result<Verdict, (usize, Refusal)>
    ensures verdict { IfOk result (λ verdict. IsVerdictOn verdict (map (λ bytes. bytes.now) list.now)) }
    ensures outcome { (outcome : Outcome) → IsOutcome (map (λ bytes. bytes.now) list.now) outcome →
        Answers outcome result }
    ensures refused { IfErr result (λ refused. IsRefusedAt refused.0 refused.1 (map (λ bytes. bytes.now) list.now)) }
{
    reading_law();
    refusal_law();
    let mut checker = Checker::new(alloc);
    for (index, bytes) in list.iter().enumerate() {
        if let Err(reason) = checker.add(bytes) {
            return Err((index, reason));
        }
    }
    match checker.verdict() {
        Ok(verdict) => Ok(verdict),
        Err(_) => Err((list.len(), Refusal::Memory)),
    }
}
