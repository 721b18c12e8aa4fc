//! The laws of a world. Each law is a function with an empty body whose contract is the law.

ghost use Rattle.std.specs.Prelude.{◌≡◌, ℕ, Bool, List, Ok, Option, Some, slice_get, true};
ghost use Rattle.mold_receiver.specs.Honest.{IsHonest, IsTakenHonestly};
ghost use Rattle.mold_receiver.specs.View.{View};
ghost use Rattle.mold_wire.specs.Block.{IsBytes};
ghost use Rattle.mold_wire.specs.Packet.{Spells};
ghost use Rattle.mold_wire.specs.Truth.{AreForeign, IsTruePacket};
ghost use Rattle.mold_wire.specs.declared.packet.Packet.{Packet};
ghost use Rattle.mold_wire.specs.declared.session.Session.{Session};
ghost use Rattle.mold_world.specs.Event.{Happening};
ghost use Rattle.mold_world.specs.Effect.{effect, run_events};
ghost use Rattle.mold_world.specs.HandOns.{handed_by_all};
ghost use Rattle.mold_world.specs.Headline.{ArePublished, HasAll, IsPrefix, all_handed};
ghost use Rattle.mold_world.specs.Deliveries.{HasReceived, IsUnmoved};
ghost use Rattle.mold_world.specs.Kept.{IsWorld};
ghost use Rattle.mold_world.specs.Steps.{AreSteps, machine_of};
ghost use Rattle.mold_world.specs.Machine.{AreAllowed, Step, run, start};
ghost use Rattle.mold_world.specs.Straight.{HasSent, IsStraight};
ghost use Rattle.mold_world.specs.World.{MayBegin, SubscriberState, WorldState, beginning};
ghost use Rattle.mold_world.specs.declared.report.Report.{Report};
ghost use Rattle.mold_world.specs.declared.way.Way.{Way};

use mold_receiver::laws::{
    followed_law, honest_stays_law, honest_take_law, nothing_new_law, taken_law, through_law,
    wanted_law,
};
use mold_session::laws::{answered_law, publisher_law, sending_law};
use mold_wire::laws::{one_spelling_law, reading_law, true_packet_law, true_stays_law};

/// States the headline for the machine of one session, after any list of allowed steps: publications, sent datagrams,
/// deliveries and restarts. Datagrams may be lost, late, repeated or reordered. At every moment, each receiver's book
/// is a prefix of the published messages, and every message ever delivered is the one published with its number. If a
/// receiver reports the end, the session is closed, and the receiver's book has all of its messages.
///
/// `IsAllowed` states the premises. Messages are published while the session is open, and only true packets of the
/// session are sent. A delivered message was sent with its number, and a reported end was sent. A restart is at a
/// number that the receiver had reached.
///
/// The last clause is about this repository's receiver. An honest view accepts what is true of its session, stays
/// honest and delivers what was published. A law doesn't cover failed allocations.
pub fn safety_law()
    ensures books { (session : Session) (steps : List Step) (receiver : ℕ) → AreAllowed (start session) steps →
        IsPrefix ((run (start session) steps).logs receiver).book (run (start session) steps).published }
    ensures handed { (session : Session) (steps : List Step) → AreAllowed (start session) steps →
        ArePublished (run (start session) steps).published (all_handed (start session) steps) }
    ensures whole { (session : Session) (steps : List Step) (receiver : ℕ) → AreAllowed (start session) steps →
        ((run (start session) steps).logs receiver).ended ≡ true →
        HasAll (run (start session) steps) receiver }
    ensures honest { (view : View) (packet : Packet) (bytes : List ℕ) (published : List (List ℕ)) (closed : Bool) →
        IsHonest view published closed → Spells packet bytes → packet.session ≡ view.session →
        IsTruePacket packet published closed → IsTakenHonestly view bytes published closed }
{
    honest_take_law();
    one_spelling_law();
    true_stays_law();
    true_packet_law();
}

/// States the headline for a publisher, a server and receivers of this repository. `IsWorld` holds of a new world, and
/// it still holds after every event, accepted or refused. In such a world each receiver's book is a prefix of the
/// published messages. If a receiver has delivered up to a known end, its book is the whole closed session. Each
/// message that was ever delivered in a run is the one that was published with its number.
///
/// The law also connects a world with the machine of `safety_law`. A new world corresponds to the machine's start, and
/// each event to the steps that `Names` lists for it. A publication, a delivery or a restart is one step of that kind.
/// Each datagram of a burst is one send, and noise is no step. The steps deliver the same messages as the event.
pub fn run_law()
    ensures begins { (session : Session) (limit server_limit burst : ℕ) (windows : List ℕ) →
        MayBegin session limit server_limit → IsWorld (beginning session limit server_limit burst windows) }
    ensures kept { (w new : WorldState) (happening : Happening) (report : Report) → IsWorld w →
        effect w happening ≡ Ok (report, new) → IsWorld new }
    ensures run { (w : WorldState) (happenings : List Happening) → IsWorld w → IsWorld (run_events w happenings) }
    ensures books { (w : WorldState) (receiver : ℕ) (subscriber : SubscriberState) → IsWorld w →
        slice_get w.subscribers receiver ≡ Some subscriber →
        IsPrefix subscriber.book.messages w.publisher.journal.messages }
    ensures whole { (w : WorldState) (receiver : ℕ) (subscriber : SubscriberState) → IsWorld w →
        slice_get w.subscribers receiver ≡ Some subscriber →
        subscriber.arbitration.view.ended ≡ Some subscriber.arbitration.view.next →
        (w.publisher.journal.closed ≡ true) × (subscriber.book.messages ≡ w.publisher.journal.messages) }
    ensures handed { (w : WorldState) (happenings : List Happening) → IsWorld w →
        ArePublished (run_events w happenings).publisher.journal.messages (handed_by_all w happenings) }
    ensures starts { (session : Session) (limit server_limit burst : ℕ) (windows : List ℕ) →
        machine_of (beginning session limit server_limit burst windows) ≡ start session }
    ensures steps { (w new : WorldState) (happening : Happening) (report : Report) → IsWorld w →
        effect w happening ≡ Ok (report, new) → AreSteps w happening new }
{
    reading_law();
    true_stays_law();
    honest_take_law();
    honest_stays_law();
    taken_law();
    nothing_new_law();
    followed_law();
    wanted_law();
    publisher_law();
    sending_law();
    answered_law();
}

/// States what the receivers of a world do with datagrams. No receiver refuses a datagram that was sent. Each
/// receiver refuses bytes that don't encode a packet of the session, and its view and its book are unchanged. So a
/// delivery is always reported as accepted and noise as refused. A law doesn't cover failed allocations.
pub fn delivery_law()
    ensures sent { (w : WorldState) (receiver at : ℕ) (subscriber : SubscriberState) (bytes : List ℕ) → IsWorld w →
        slice_get w.subscribers receiver ≡ Some subscriber → slice_get w.sent at ≡ Some bytes →
        IsTakenHonestly subscriber.arbitration.view bytes w.publisher.journal.messages w.publisher.journal.closed }
    ensures strange { (w : WorldState) (receiver : ℕ) (subscriber : SubscriberState) (way : Way) (bytes : List ℕ) →
        IsWorld w → slice_get w.subscribers receiver ≡ Some subscriber → IsBytes bytes →
        AreForeign w.publisher.journal.session bytes → IsUnmoved subscriber way bytes }
    ensures received { (w new : WorldState) (happening : Happening) (report : Report) → IsWorld w →
        effect w happening ≡ Ok (report, new) → HasReceived happening report w new }
{
    reading_law();
    honest_take_law();
}

/// States the straight path, on which a receiver gets each data packet of new messages right after it is sent, and does
/// not restart. If before the events its book has every message that was sent in a datagram so far, the same is true
/// after the events.
pub fn straight_law()
    ensures { (w : WorldState) (happenings : List Happening) (receiver : ℕ) → IsWorld w →
        IsStraight w receiver happenings → HasSent w receiver → HasSent (run_events w happenings) receiver }
{
    run_law();
    reading_law();
    honest_take_law();
    taken_law();
    through_law();
    sending_law();
}
