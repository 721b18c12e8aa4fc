//! The remaining responses to a request.

ghost use Rattle.std.specs.Prelude.{◌≡◌, ◌+◌, ◌≤◌, ◌<◌, ◌↔◌, min, IsTrue, IsSome, IfSome};
ghost use Rattle.mold_session.specs.Answer.{IsPlan, IsSpent, moved};

use mold_wire::{Request, Session};
use std::marker::Model;

/// The remaining responses to a request: the messages with numbers from `from` up to, but not including, `to`,
/// in at most `left` datagrams. `from` is at least 1 and at most `to`.
#[derive(Debug, Drop)]
pub struct Plan {
    session: Session,
    from: u64,
    to: u64,
    left: u16,
}

impl Model for Plan {
    ghost use Rattle.mold_session.specs.Answer.{PlanState, IsPlan};

    ghost Value = { PlanState };

    ghost view = { λ p. record { session = p.session; from = p.from; to = p.to; left = p.left } };

    ghost invariant = { λ p. IsPlan (record { session = p.session; from = p.from; to = p.to; left = p.left }) };
}

impl Plan {
    // Plans at most `burst` responses to a request, from the messages with numbers below `next`.
    pub(crate) fn new(next: u64, request: &Request, burst: u16) -> Plan
        requires first { 1 ≤ request.now.sequence }
        requires last { request.now.sequence < next }
        ensures { result ≡ record {
          session = request.now.session;
          from = request.now.sequence;
          to = min (request.now.sequence + request.now.count) next;
          left = burst;
        } }
    {
        let behind = request.sequence.saturating_add(u64::from(request.count));
        Plan {
            session: request.session,
            from: request.sequence,
            to: behind.min(next),
            left: burst,
        }
    }

    /// Returns a plan from values that the caller kept, or `None` if `from` is 0 or greater than `to`. Any `left` is
    /// accepted, but a server makes plans of at most `MAX_BURST` datagrams.
    pub fn resumed(session: Session, from: u64, to: u64, left: u16) -> Option<Plan>
        ensures some { IsSome result ↔ IsPlan (record { session = session; from = from; to = to; left = left }) }
        ensures made { IfSome result (λ plan.
            plan ≡ record { session = session; from = from; to = to; left = left }) }
    {
        if from == 0 || to < from {
            return None;
        }
        Some(Plan {
            session,
            from,
            to,
            left,
        })
    }

    /// Returns the session of the messages.
    pub fn session(&self) -> Session
        ensures { result ≡ self.now.session }
    {
        self.session
    }

    /// Returns the sequence number of the next message: at first the requested number, then one more than the
    /// number of the last message that was returned in a datagram.
    pub fn from(&self) -> u64
        ensures value { result ≡ self.now.from }
        ensures plan { IsPlan self.now }
    {
        self.from
    }

    /// Returns one more than the number of the plan's last message. That is the last message that was requested
    /// and that the journal had when the plan was made.
    pub fn to(&self) -> u64
        ensures value { result ≡ self.now.to }
        ensures plan { IsPlan self.now }
    {
        self.to
    }

    /// Returns how many datagrams may still be sent. It is at most `MAX_BURST`, unless `resumed` was given
    /// more.
    pub fn left(&self) -> u16
        ensures { result ≡ self.now.left }
    {
        self.left
    }

    // Whether the plan has no more datagrams.
    pub(crate) fn is_spent(&self) -> bool
        ensures spent { IsTrue result ↔ IsSpent self.now }
        ensures plan { IsPlan self.now }
    {
        self.left == 0 || self.from == self.to
    }

    // Advances the plan past a datagram of `count` messages.
    pub(crate) fn advance(&mut self, count: u64)
        requires left { ¬ IsSpent self.old }
        requires within { self.old.from + count ≤ self.old.to }
        ensures { self.new ≡ moved self.old count }
    {
        self.from += count;
        self.left -= 1;
    }
}
