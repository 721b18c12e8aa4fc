//! The line of an event that is refused: the reason's name, and the numbers that go with it.

ghost use Rattle.std.specs.Prelude.{◌≡◌, ◌++◌, ◌∷◌, [], length, take, decimal, OnErr, OnOk};
ghost use Rattle.mold_sim.specs.Reports.{error_words, session_words};
ghost use Rattle.mold_text.specs.Text.{refused_line};
ghost use Rattle.mold_world.specs.declared.report.WorldError.TheVariants.{Memory};

use mold_refusals::{push_answer_refusal, push_append_refusal};
use mold_text::{Word, push_refused};
use mold_world::{SessionError, WorldError};
use std::alloc::AllocError;

// Appends the line of a refusal with a name and a number.
fn push_number(out: &mut Vec<u8>, name: &[u8], number: u64) -> Result<(), AllocError>
    ensures text { OnOk result (out.new.items ≡
        out.old.items ++ refused_line (name.now ∷ decimal number ∷ [])) }
    ensures kept { OnErr result (take (length out.old.items) out.new.items ≡ out.old.items) }
{
    push_refused(out, &[Word::Text(name), Word::Number(number)])
}

fn push_session_refused(out: &mut Vec<u8>, why: SessionError) -> Result<(), AllocError>
    ensures text { OnOk result (out.new.items ≡ out.old.items ++ refused_line (session_words why)) }
    ensures kept { OnErr result (take (length out.old.items) out.new.items ≡ out.old.items) }
{
    match why {
        SessionError::Append(why) => push_append_refusal(out, &[Word::Text(b"refused")], why),
        SessionError::Close(unsent) => push_number(out, b"Unsent", unsent.count),
        SessionError::Answer(why) => push_answer_refusal(out, &[Word::Text(b"refused")], why),
    }
}

/// Appends the line of an event that is refused. For `WorldError::Memory`, it appends nothing and returns an error,
/// as it does if an allocation fails.
pub fn push_error(out: &mut Vec<u8>, why: WorldError) -> Result<(), AllocError>
    ensures text { OnOk result (out.new.items ≡ out.old.items ++ refused_line (error_words why)) }
    ensures other { OnOk result (why ≡ Memory → ⊥) }
    ensures kept { OnErr result (take (length out.old.items) out.new.items ≡ out.old.items) }
{
    match why {
        WorldError::NoReceiver => push_refused(out, &[Word::Text(b"NoReceiver")]),
        WorldError::NoSuchDatagram => push_refused(out, &[Word::Text(b"NoSuchDatagram")]),
        WorldError::NotNoise => push_refused(out, &[Word::Text(b"NotNoise")]),
        WorldError::NotReached { next } => push_number(out, b"NotReached", next),
        WorldError::Layer(why) => push_session_refused(out, why),
        WorldError::Memory => Err(AllocError),
        WorldError::BadLimit => push_refused(out, &[Word::Text(b"BadLimit")]),
        WorldError::BadWindow { r } => push_number(out, b"BadWindow", r as u64),
        WorldError::BadBurst => push_refused(out, &[Word::Text(b"BadBurst")]),
    }
}
