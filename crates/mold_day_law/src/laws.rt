//! The law of publisher, servers and recorders that may crash. A law is a function that exists only for its contract,
//! which is a theorem.

ghost use Rattle.std.specs.Prelude.{◌≡◌, ◌++◌, [], Bool, List, Some, false, true, ℕ, slice_get};
ghost use Rattle.std.specs.List.{AllByRecursion};
ghost use Rattle.mold_day_law.specs.Recorders.{HasBegun, HasRecorded, HaveRecorded, IsRecordOf, MayAllArrive};
ghost use Rattle.mold_day_law.specs.Recorders.{RecorderLife};
ghost use Rattle.mold_durable.specs.DurableJournal.{DurableState};
ghost use Rattle.mold_durable.specs.Life.{IsFileOf};
ghost use Rattle.mold_durable_law.specs.History.{AllMayHappen, Event, MayHappen, after_all, begun, life_of};
ghost use Rattle.mold_durable_law.specs.History.Event.{Other};
ghost use Rattle.mold_durable_publisher.specs.Told.{IsTrueOf};
ghost use Rattle.mold_port_set.specs.PortSet.{Given};
ghost use Rattle.mold_receive.specs.Receiving.{is_finished};
ghost use Rattle.mold_recorder.specs.Recording.{HasBroken, HasEnded, RecorderState};
ghost use Rattle.mold_session.specs.Records.{SpellsJournal3};
ghost use Rattle.mold_wire.specs.Packet.{Spells};
ghost use Rattle.mold_wire.specs.Truth.{Carries, published_at};
ghost use Rattle.mold_wire.specs.declared.packet.Packet.{Packet};
ghost use Rattle.mold_wire.specs.declared.session.Session.{Session};
ghost use Rattle.mold_world.specs.Headline.{IsPrefix};
ghost use Rattle.mold_world.specs.Machine.Step.{Send};

use mold_durable::Storage;
use mold_durable_law::laws::durable_law;
use mold_durable_publisher::laws::told_law;
use mold_port_set::PortSet;
use mold_receiver::laws::{honest_stays_law, taken_law};
use mold_repair::laws::safe_law;
use mold_session::laws::one_file_law;
use mold_wire::laws::{one_spelling_law, true_packet_law, true_stays_law};

/// States what holds at every moment of a session in which the publisher, the servers and the recorders may each crash
/// and start again.
///
/// The events are those of `durable_law`: what happens to the publisher's journal, datagrams that are sent, and what
/// happens to other receivers. A recorder takes only datagrams that were sent in these events, any number of times and
/// in any order, and bytes that do not encode a packet of the session. The clause `broken` of `record_loop` states what
/// its life does. The law is about every list of events that may happen.
///
/// - `carried`, `carried_file`: each message that a datagram carried is committed, with its number. Each file that a
///   crash of the publisher leaves has it.
/// - `serves`: a server has read a prefix of the messages that were committed at some time. A datagram that is true of
///   these messages may be sent then and at any later time.
/// - `ends`: a life of a recorder that ended without a crash is such a life too.
/// - `recorded`: a recorder opened a file with a prefix of the committed messages. Then each file that a crash leaves
///   has such a prefix, and a closed file has the whole closed session.
/// - `finished`: a recorder that ended has committed a prefix. If it is finished, that is the whole closed session.
/// - `lives`: the same holds after any number of lives of a recorder, of which the first has an empty file.
pub fn day_law<D: PortSet, S: Storage>()
    ensures carried { (session : Session) (events : List Event) (place : ℕ) (datagram : List ℕ) (packet : Packet)
        (number : ℕ) (message : List ℕ) → AllMayHappen (begun session) events →
        slice_get (after_all (begun session) events).machine.sent place ≡ Some datagram → Spells packet datagram →
        Carries packet number message →
        published_at (life_of (after_all (begun session) events)).committed number ≡ Some message }
    ensures carried_file { (session other : Session) (events : List Event) (place : ℕ) (datagram : List ℕ)
        (packet : Packet) (number : ℕ) (message bytes : List ℕ) (messages : List (List ℕ)) (closed : Bool) →
        AllMayHappen (begun session) events →
        slice_get (after_all (begun session) events).machine.sent place ≡ Some datagram → Spells packet datagram →
        Carries packet number message → IsFileOf (life_of (after_all (begun session) events)) bytes →
        SpellsJournal3 other messages closed bytes → published_at messages number ≡ Some message }
    ensures serves { (session : Session) (events later : List Event) (messages : List (List ℕ)) (datagram : List ℕ) →
        AllMayHappen (begun session) (events ++ later) →
        IsPrefix messages (life_of (after_all (begun session) events)).committed →
        IsTrueOf session messages false datagram →
        MayHappen (after_all (begun session) (events ++ later)) (Other (Send datagram)) }
    ensures ends { (lines : ℕ) (servers : List D.Peer) (first : List Given) (old new : RecorderState D.Peer)
        (before after : DurableState S) →
        HasEnded lines servers true S.shows S.may_leave S.moment S.left_since first old new before after →
        HasBroken lines servers true S.shows S.may_leave S.moment S.left_since first old before after }
    ensures recorded { (session : Session) (events : List Event) (life : RecorderLife) →
        AllMayHappen (begun session) events →
        HasRecorded D.Peer S.shows S.may_leave S.moment S.left_since (after_all (begun session) events).machine
        life → IsPrefix life.found (life_of (after_all (begun session) events)).committed →
        IsRecordOf (life_of (after_all (begun session) events)) life.left life.closed }
    ensures finished { (session : Session) (events : List Event) (messages : List (List ℕ)) (lines : ℕ)
        (servers : List D.Peer) (first : List Given) (old new : RecorderState D.Peer) (before after : DurableState S) →
        AllMayHappen (begun session) events →
        HasBegun S.shows S.may_leave session messages old.repairer before →
        (is : HasEnded lines servers true S.shows S.may_leave S.moment S.left_since first old new before after) →
        MayAllArrive (after_all (begun session) events).machine (first ++ is.delivered.since) →
        IsPrefix messages (life_of (after_all (begun session) events)).committed →
        IsRecordOf (life_of (after_all (begun session) events)) (messages ++ is.messages) (is_finished new.repairer) }
    ensures lives { (session : Session) (events : List Event) (lives : List RecorderLife) →
        AllMayHappen (begun session) events →
        HaveRecorded D.Peer S.shows S.may_leave S.moment S.left_since (after_all (begun session) events).machine []
        false lives →
        AllByRecursion (λ life. IsRecordOf (life_of (after_all (begun session) events)) life.left life.closed) lives }
{
    durable_law();
    told_law();
    honest_stays_law();
    taken_law();
    safe_law();
    one_file_law();
    one_spelling_law();
    true_packet_law();
    true_stays_law();
}
