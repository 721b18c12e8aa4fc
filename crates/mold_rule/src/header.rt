//! The refusal of a packet by its header and its number of messages, before its messages are compared.

ghost use Rattle.std.specs.Prelude.{◌≡◌, ◌<◌, ◌^◌, ◌∷◌, [], ℕ, Option, Some, IfOk, IfErr, OnOk};
ghost use Rattle.std.specs.Option.{option_map};
ghost use Rattle.mold_wire.specs.Packet.{top_of};
ghost use Rattle.mold_wire.specs.declared.packet.Body.TheVariants.{End, Heartbeat};
ghost use Rattle.mold_rule.specs.Refusals.{conflict_at, end_below, end_conflict, first_some, past_end, refusal_of};
ghost use Rattle.mold_rule.specs.Refusals.{refuse_if, wrong_session};
ghost use Rattle.mold_rule.specs.declared.refusal.Refusal.TheVariants.{Memory, WrongSession};

use crate::refusal::Refusal;
use mold_wire::{Body, Packet, Session};

// Returns the refusal of an end packet by the known end of the session and the greatest top.
fn refuse_end(sequence: u64, known: u64, ended: Option<u64>) -> Option<Refusal>
    ensures { result ≡ first_some (end_conflict End sequence ended ∷ end_below End sequence known ∷ []) }
{
    if let Some(end) = ended {
        if end != sequence {
            return Some(Refusal::EndConflict { end });
        }
    }
    if sequence < known {
        return Some(Refusal::EndBelow { known });
    }
    None
}

// Returns the refusal of a data packet or a heartbeat with this top, by the known end of the session.
fn refuse_past(top: u64, ended: Option<u64>) -> Option<Refusal>
    ensures { result ≡ past_end ended Heartbeat top }
{
    match ended {
        Some(end) if end < top => Some(Refusal::PastEnd { end }),
        _ => None,
    }
}

// Returns the refusal of a packet by what is known of the session's end.
fn refuse_by_end(packet: &Packet<'_>, top: u64, known: u64, ended: Option<u64>) -> Option<Refusal>
    ensures { result ≡ first_some (end_conflict packet.now.body packet.now.sequence ended
        ∷ end_below packet.now.body packet.now.sequence known ∷ past_end ended packet.now.body top ∷ []) }
{
    match packet.body {
        Body::End => refuse_end(packet.sequence, known, ended),
        Body::Data(_) | Body::Heartbeat => refuse_past(top, ended),
    }
}

// Returns whether the packet belongs to another session than the known one.
fn is_foreign(packet: &Packet<'_>, session: Option<Session>) -> bool
    ensures { refuse_if result WrongSession ≡
        wrong_session (option_map (λ s. s.0) session) packet.now.session.0 }
{
    match session {
        Some(session) => !packet.session.is_same(&session),
        None => false,
    }
}

/// Returns the packet's top, or the first refusal that follows from its header and its number of messages. `session`
/// and `ended` are the session and its end, if they are known. `known` is the greatest top of the packets accepted so
/// far, or the number at which the caller started, if that is greater. After a top is returned, only a conflict of its
/// messages can still refuse the packet.
// For the optimizer: this runs for each datagram, and a call would write the whole packet to memory.
#[inline(always)]
pub fn check_header(
    packet: &Packet<'_>,
    session: Option<Session>,
    known: u64,
    ended: Option<u64>,
) -> Result<u64, Refusal>
    ensures top { IfOk result (λ top. top ≡ top_of packet.now) }
    ensures range { OnOk result (top_of packet.now < 2 ^ 64) }
    ensures passed { OnOk result ((differs : Option ℕ) →
        refusal_of (option_map (λ s. s.0) session) known ended differs packet.now ≡ conflict_at differs) }
    ensures refused { IfErr result (λ refusal. (differs : Option ℕ) →
        refusal_of (option_map (λ s. s.0) session) known ended differs packet.now ≡ Some refusal) }
    ensures cause { IfErr result (λ refusal. refusal ≡ Memory → ⊥) }
{
    if is_foreign(packet, session) {
        return Err(Refusal::WrongSession);
    }
    if packet.sequence == 0 {
        return Err(Refusal::SequenceZero);
    }
    let Some(top) = packet.top() else {
        return Err(Refusal::PastLast);
    };
    match refuse_by_end(packet, top, known, ended) {
        Some(refusal) => Err(refusal),
        None => Ok(top),
    }
}
