//! The law of the durable journal. A law is a function that exists only for its contract, which is a theorem.

ghost use Rattle.std.specs.Prelude.{◌≡◌, ℕ, Bool, List, true};
ghost use Rattle.mold_durable.specs.Life.{IsFileOf, Moment, after as after_moment, born};
ghost use Rattle.mold_durable_law.specs.History.{AllMayHappen, History, Event, MayHappen, after_all};
ghost use Rattle.mold_durable_law.specs.History.{after_event, all_steps, begun, life_of};
ghost use Rattle.mold_durable_law.specs.History.Event.{Other, Writes};
ghost use Rattle.mold_durable_publisher.specs.Told.{IsTrueNow};
ghost use Rattle.mold_session.specs.Records.{SpellsJournal3};
ghost use Rattle.mold_wire.specs.declared.session.Session.{Session};
ghost use Rattle.mold_world.specs.Headline.{HasAll, IsPrefix};
ghost use Rattle.mold_world.specs.Machine.{AreAllowed, run, start};
ghost use Rattle.mold_world.specs.Machine.Step.{Send};

use mold_session::laws::one_file_law;
use mold_world::laws::safety_law;

/// States the headline for a publisher that keeps its session in a durable journal and may crash at any moment.
///
/// The contracts of `DurableJournal` state which moment of the journal's life a call is, and that a crash during a call
/// leaves a file of the life before that moment or after it. An event is a moment of the publisher's journal, or
/// another step of the machine of `mold_world`: a datagram is sent, delivered or lost, or a receiver restarts. A
/// datagram is sent only if it is true of the committed messages. The law is about every list of events that may
/// happen.
///
/// - `begins`, `life`: the committed messages of the journal are the published messages of the machine.
/// - `steps`, `run`: the events are a run of the machine, in which a commit publishes messages. A message that a crash
///   loses is not published, and a crash is not a step.
/// - `says`: a datagram that is true of the committed messages may be sent. By the clauses `truth` of
///   `DurablePublisher`, this includes every datagram that it returns.
/// - `books`, `whole`: so the delivered log of each receiver, its `book`, is a prefix of the committed messages. A
///   receiver that reports the end has the whole closed session.
/// - `recovered`, `recovered_whole`: each book is a prefix of the messages of any file that a crash leaves. If a
///   receiver reports the end, the file is closed, and the book has exactly its messages.
pub fn durable_law()
    ensures begins { (session : Session) → life_of (begun session) ≡ born session }
    ensures life { (history : History) (moment : Moment) →
        life_of (after_event history (Writes moment)) ≡ after_moment (life_of history) moment }
    ensures says { (history : History) (datagram : List ℕ) → IsTrueNow (life_of history) datagram →
        MayHappen history (Other (Send datagram)) }
    ensures steps { (session : Session) (events : List Event) → AllMayHappen (begun session) events →
        AreAllowed (start session) (all_steps (begun session) events) }
    ensures run { (session : Session) (events : List Event) →
        (after_all (begun session) events).machine ≡ run (start session) (all_steps (begun session) events) }
    ensures books { (session : Session) (events : List Event) (receiver : ℕ) → AllMayHappen (begun session) events →
        IsPrefix ((after_all (begun session) events).machine.logs receiver).book
        (life_of (after_all (begun session) events)).committed }
    ensures whole { (session : Session) (events : List Event) (receiver : ℕ) → AllMayHappen (begun session) events →
        ((after_all (begun session) events).machine.logs receiver).ended ≡ true →
        HasAll (after_all (begun session) events).machine receiver }
    ensures recovered { (session other : Session) (events : List Event) (receiver : ℕ) (bytes : List ℕ)
        (messages : List (List ℕ)) (closed : Bool) → AllMayHappen (begun session) events →
        IsFileOf (life_of (after_all (begun session) events)) bytes → SpellsJournal3 other messages closed bytes →
        IsPrefix ((after_all (begun session) events).machine.logs receiver).book messages }
    ensures recovered_whole { (session other : Session) (events : List Event) (receiver : ℕ) (bytes : List ℕ)
        (messages : List (List ℕ)) (closed : Bool) → AllMayHappen (begun session) events →
        ((after_all (begun session) events).machine.logs receiver).ended ≡ true →
        IsFileOf (life_of (after_all (begun session) events)) bytes → SpellsJournal3 other messages closed bytes →
        (closed ≡ true) × (((after_all (begun session) events).machine.logs receiver).book ≡ messages) }
{
    safety_law();
    one_file_law();
}
