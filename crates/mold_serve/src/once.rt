//! One turn or one response, of a server whose journal has any type.
//!
//! For the toolchain: it refuses a `Responder` in a function in which the type of the journal is `&Journal`. So the callers
//! with such a journal call these functions.

ghost use Rattle.std.specs.Prelude.{◌≡◌, true, Bool, List, length, IfErr};
ghost use Rattle.mold_turns.specs.Runs.{Begins};
ghost use Rattle.mold_serve.specs.Answering.{Reaches};
ghost use Rattle.mold_serve.specs.FileError.{IsReadOrMemory};
ghost use Rattle.mold_serve.specs.Serving.{MayAnswer, replied, reply, responder_of, serve_turn, service_of};
ghost use Rattle.mold_session.specs.Journal.{JournalState};
ghost use Rattle.mold_session.specs.Loading.{CountsLoad};
ghost use Rattle.mold_wire.specs.declared.limits.TheConstants.{MAX_LIMIT};

use crate::asked::Asked;
use crate::responder::Responder;
use crate::tally::Tally;
use mold_ports::Datagrams;
use mold_session::{FileError, ServedJournal, Server};

/// Makes one turn of a server: receives once, and answers or refuses what was received. `buffer` has `MAX_LIMIT` bytes.
/// The errors are those of `Responder::answer_request`.
pub fn serve_once<D: Datagrams, J: ServedJournal>(
    port: &mut D,
    server: &mut Server,
    journal: &mut J,
    tally: &mut Tally,
    buffer: &mut [u8],
) -> Result<(), FileError>
    requires { length buffer.old ≡ MAX_LIMIT }
    ensures turn { (shown : JournalState) → MayAnswer J.shows journal.old server.old shown → D.modeled ≡ true →
        (fails : List Bool) × Reaches result (responder_of (D.port port.new) tally.new server.new)
        (serve_turn (service_of shown server.old) fails (responder_of (D.port port.old) tally.old server.old)) }
    ensures prints { Begins tally.old.outgoing.text tally.new.outgoing.text }
    ensures refused { IfErr result (λ error. (shown : JournalState) →
        MayAnswer J.shows journal.old server.old shown → IsReadOrMemory error) }
    ensures shown { (shown : JournalState) → J.shows journal.old shown → J.shows journal.new shown }
    ensures failures { CountsLoad (J.failed journal.old) (J.failed journal.new) result }
    ensures server { server.new ≡ record server.old { answered = server.new.answered } }
{
    let mut responder = Responder {
        port,
        server,
        journal,
        tally,
    };
    responder.take_turn(buffer)
}

/// Answers a request with datagrams to the requester, or refuses it, as `Responder::answer_request` does.
pub fn answer_once<D: Datagrams, J: ServedJournal>(
    port: &mut D,
    server: &mut Server,
    journal: &mut J,
    tally: &mut Tally,
    asked: Asked<'_, D::Peer>,
) -> Result<(), FileError>
    ensures replied { (shown : JournalState) → MayAnswer J.shows journal.old server.old shown → D.modeled ≡ true →
        (fails : List Bool) × Reaches result (responder_of (D.port port.new) tally.new server.new)
        (replied asked.entry.from fails (reply (service_of shown server.old) asked.entry.bytes.now)
        (responder_of (D.port port.old) tally.old server.old)) }
    ensures prints { Begins tally.old.outgoing.text tally.new.outgoing.text }
    ensures refused { IfErr result (λ error. (shown : JournalState) →
        MayAnswer J.shows journal.old server.old shown → IsReadOrMemory error) }
    ensures shown { (shown : JournalState) → J.shows journal.old shown → J.shows journal.new shown }
    ensures stays { (earlier : J) → J.stays earlier journal.old → J.stays earlier journal.new }
    ensures failures { CountsLoad (J.failed journal.old) (J.failed journal.new) result }
    ensures server { server.new ≡ record server.old { answered = server.new.answered } }
{
    let mut responder = Responder {
        port,
        server,
        journal,
        tally,
    };
    let Asked { from, bytes } = asked;
    responder.answer_request(from, bytes)
}
