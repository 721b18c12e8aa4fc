//! The loop that serves a journal over a port.

ghost use Rattle.std.specs.Prelude.{◌≡◌, ◌⊎◌, true, Bool, List, length, IfErr, IfOk, OnErr};
ghost use Rattle.mold_devices.specs.Faults.{CountsCommand};
ghost use Rattle.mold_turns.specs.Runs.{Begins, Ran, WrittenInTime};
ghost use Rattle.mold_serve.specs.Answering.{Reaches};
ghost use Rattle.mold_serve.specs.FileError.{EndsRefused, IsReadOrMemory};
ghost use Rattle.mold_serve.specs.Serving.{IsInNextTurn, MayAnswer, responder_of, serve_turn, served_by, service_of};
ghost use Rattle.mold_serve.specs.Serving.{serving};
ghost use Rattle.mold_serve.specs.Tally.{EndsServed, served_line, no_tally};
ghost use Rattle.mold_session.specs.Journal.{JournalState};
ghost use Rattle.mold_session.specs.Loading.{CountsLoad};
ghost use Rattle.mold_wire.specs.declared.limits.TheConstants.{MAX_LIMIT};

use crate::responder::Responder;
use crate::tally::Tally;
use mold_devices::{CommandFault, Sink};
use mold_ports::Datagrams;
use mold_session::{FileError, ServedJournal, Server};
use mold_wire::MAX_LIMIT;
use std::alloc::Global;

/// Serves requests for the messages of a journal, for `turns` turns of one receive each. A request is answered with
/// datagrams to the requester, or refused. A line is printed for each datagram that was sent and for each refused
/// request, and a last line has the counts.
///
/// A failed receive or send is counted and does not end the loop. The status is 0. Text is written when 65,536 bytes
/// have accumulated, or to a live sink after each turn, and at the end. If memory runs out or a read of the journal
/// fails in a turn, or memory runs out for the last line, the text of the turns before is written first. After a fault
/// of the sink, a prefix of the text is written.
///
/// If the journal's file was damaged after it was opened, the line of its refusal is written after the text of the
/// turns before, and the status is 2. The part of the turn that was made then is not printed.
pub fn serve_loop<D: Datagrams, K: Sink, J: ServedJournal>(
    alloc: Global,
    port: &mut D,
    server: &mut Server,
    journal: &mut J,
    turns: u64,
    sink: &mut K,
) -> Result<u8, CommandFault>
    ensures run { (shown : JournalState) → MayAnswer J.shows journal.old server.old shown → D.modeled ≡ true →
        Ran (serving (service_of shown server.old)) turns
        (responder_of (D.port port.old) no_tally server.old) (λ responder. served_line responder.tally) (λ responder. 0)
        (λ responder. (D.port port.new ≡ responder.port) × (server.new ≡ served_by server.old responder))
        result (K.held sink.old) (K.held sink.new) (D.port port.new).sent }
    ensures timely { OnErr result ((shown : JournalState) → MayAnswer J.shows journal.old server.old shown →
        D.modeled ≡ true → WrittenInTime (serving (service_of shown server.old))
        (responder_of (D.port port.old) no_tally server.old) (K.live sink.old)
        (K.held sink.old) (K.held sink.new) (IsInNextTurn (D.port port.new))) }
    ensures whole { IfOk result (λ status. (shown : JournalState) →
        MayAnswer J.shows journal.old server.old shown → status ≡ 0) }
    ensures status { IfOk result (λ status. ((status ≡ 0) × EndsServed (K.held sink.old) (K.held sink.new))
        ⊎ ((status ≡ 2) × EndsRefused (K.held sink.old) (K.held sink.new))) }
    ensures shown { (shown : JournalState) → J.shows journal.old shown → J.shows journal.new shown }
    ensures failures { (shown : JournalState) → MayAnswer J.shows journal.old server.old shown →
        CountsCommand (J.failed journal.old) (J.failed journal.new) (K.failed sink.old) (K.failed sink.new) result }
{
    let mut tally = Tally::new(alloc);
    let mut buffer = vec![in alloc; 0; MAX_LIMIT]?;
    let mut responder = Responder {
        port,
        server,
        journal,
        tally: &mut tally,
    };
    responder.serve(turns, buffer.as_mut_slice(), sink)
}
