//! Theorems about all runs of a repairer. Each law is a function with an empty body whose contract is the theorem.
//! `run::run` returns such a run.

ghost use Rattle.std.specs.Prelude.{◌≡◌, ◌+◌, ◌-◌, ◌*◌, ◌<◌, ◌≤◌, ◌^◌, ℕ, [], List, Option, IfSome, None, Some};
ghost use Rattle.std.specs.Prelude.{false, length};
ghost use Rattle.std.specs.Prelude.{◌∷◌, ◌⊎◌, Bool, max};
ghost use Rattle.std.specs.Io.Iter.{u64_saturate};
ghost use Rattle.mold_pacing.specs.Attempts.{count_asks_for};
ghost use Rattle.mold_pacing.specs.Deadline.{CanAsk};
ghost use Rattle.mold_pacing.specs.State.{advanced};
ghost use Rattle.mold_pacing.specs.declared.pacer.Pacer.{Pacer};
ghost use Rattle.mold_receiver.specs.Batch.{Handed};
ghost use Rattle.mold_receiver.specs.Honest.{IsHonest};
ghost use Rattle.mold_receiver.specs.Store.{Message};
ghost use Rattle.mold_receiver.specs.View.{IsWellFormed, View};
ghost use Rattle.mold_receiver.specs.Wanted.{missing};
ghost use Rattle.mold_repair.specs.CatchUp.{RanOutOfMemory, TakesFirst, count_deliveries, missing_below};
ghost use Rattle.mold_repair.specs.Frugal.{HasRoom, IsFrugalRun};
ghost use Rattle.mold_repair.specs.GivingUp.{is_due};
ghost use Rattle.mold_repair.specs.Laws.{AreInOrder, HasNumbers, IsPaced, RequestsFirst, all_lost, count_numbers};
ghost use Rattle.mold_repair.specs.Laws.{requests_of};
ghost use Rattle.mold_repair.specs.Missing.{IsWanted};
ghost use Rattle.mold_repair.specs.Needed.{AreNeeded};
ghost use Rattle.mold_repair.specs.Options.{tolerance};
ghost use Rattle.mold_repair.specs.Polls.{HasPolled};
ghost use Rattle.mold_repair.specs.Run.{HasLostSome, IsRepaired, IsStepOf};
ghost use Rattle.mold_repair.specs.Safe.{AreHarmless, ArePieces, AreWithoutLoss, IsPiece, all_delivered};
ghost use Rattle.mold_repair.specs.declared.ask.Ask.{Ask};
ghost use Rattle.mold_repair.specs.declared.options.RepairOptions.{RepairOptions};
ghost use Rattle.mold_repair.specs.declared.outcome.Outcome.{Outcome};
ghost use Rattle.mold_repair.specs.declared.repairer.Repairer.{Repairer};
ghost use Rattle.mold_repair.specs.declared.step.RepairStep.{RepairStep};

use mold_pacing::laws::{apart_law, attempts_law, frugal_law as pacer_frugal_law, limit_law};
use mold_receiver::laws::{
    having_law, honest_skip_law, honest_take_law, missing_law, nothing_new_law, room_law,
    taken_law, through_law, well_formed_law,
};
use mold_wire::laws::reading_law;

/// Each message is delivered once, or given up once, or neither yet. The numbers of what the steps of a run delivered
/// and gave up follow each other, from the old `next` to just below the new one, without a number left out or repeated.
/// Each step delivered the messages of its numbers.
pub fn order_law()
    ensures order { (old new : Repairer) (steps : List RepairStep) (outcomes : List Outcome) →
        IsRepaired old new steps outcomes → AreInOrder old.arbiter.view.next outcomes new.arbiter.view.next }
    ensures messages { (old new : Repairer) (step : RepairStep) (outcome : Outcome) →
        (is : IsStepOf old new step outcome) → HasNumbers is.handed outcome.delivered }
{
    taken_law();
}

/// In a run, the count of messages that were given up grows by the lengths of the ranges that its steps gave up. A
/// count that reaches 2^64 - 1 stays there.
pub fn lost_count_law()
    ensures { (old new : Repairer) (steps : List RepairStep) (outcomes : List Outcome) →
        IsRepaired old new steps outcomes → old.counts.lost < 2 ^ 64 →
        new.counts.lost ≡ u64_saturate (old.counts.lost + count_numbers (all_lost outcomes)) }
{}

/// What is delivered is what was published. Each datagram of the run is true of the session, or does not encode a
/// packet of it, and the receiver is honest at the start: it knows nothing false. Then each step delivers the published
/// messages with its numbers, and the receiver stays honest. If only the first step of a run gives up messages, the run
/// delivers consecutive published messages.
pub fn safe_law()
    ensures pieces { (old new : Repairer) (steps : List RepairStep) (outcomes : List Outcome)
        (ran : IsRepaired old new steps outcomes) (published : List Message) (closed : Bool) →
        IsHonest old.arbiter.view published closed →
        AreHarmless old.arbiter.view.session published closed steps →
        ArePieces published old new steps outcomes ran }
    ensures honest { (old new : Repairer) (steps : List RepairStep) (outcomes : List Outcome)
        (ran : IsRepaired old new steps outcomes) (published : List Message) (closed : Bool) →
        IsHonest old.arbiter.view published closed →
        AreHarmless old.arbiter.view.session published closed steps → IsHonest new.arbiter.view published closed }
    ensures piece { (old new : Repairer) (step : RepairStep) (steps : List RepairStep) (outcome : Outcome)
        (outcomes : List Outcome) (ran : IsRepaired old new (step ∷ steps) (outcome ∷ outcomes))
        (published : List Message) (closed : Bool) → IsHonest old.arbiter.view published closed →
        AreHarmless old.arbiter.view.session published closed (step ∷ steps) → AreWithoutLoss outcomes →
        IsPiece published outcome.delivered.first new.arbiter.view.next
        (all_delivered old new (step ∷ steps) (outcome ∷ outcomes) ran) }
{
    honest_skip_law();
    honest_take_law();
    reading_law();
    taken_law();
}

/// To catch up, at most as many steps have to deliver as messages are missing. `limit` is any number, such as `known`
/// at the start.
///
/// - A true datagram that has the first missing message is accepted, and delivers it, unless an allocation fails.
///   `stuck_law` states when this message is requested.
/// - In a run, each step that delivers messages from a number below `limit` on leaves at least one message less missing
///   below it. No other step leaves more of them missing.
/// - After as many such steps as messages below `limit` were missing, all messages below it were delivered or given up.
pub fn catch_up_law()
    ensures response { (old new : Repairer) (step : RepairStep) (outcome : Outcome)
        (is : IsStepOf old new step outcome) (published : List Message) (closed : Bool) (limit : ℕ) →
        IsHonest old.arbiter.view published closed → TakesFirst old.arbiter.view published closed step →
        old.arbiter.view.next < limit →
        (count_deliveries limit (outcome ∷ []) ≡ 1) ⊎ RanOutOfMemory old new step outcome is }
    ensures fewer { (old new : Repairer) (steps : List RepairStep) (outcomes : List Outcome) (limit : ℕ) →
        IsRepaired old new steps outcomes → IsWellFormed old.arbiter.view →
        count_deliveries limit outcomes + missing_below new.arbiter.view limit
        ≤ missing_below old.arbiter.view limit }
    ensures done { (old new : Repairer) (steps : List RepairStep) (outcomes : List Outcome) (limit : ℕ) →
        IsRepaired old new steps outcomes → IsWellFormed old.arbiter.view →
        missing_below old.arbiter.view limit ≤ count_deliveries limit outcomes → limit ≤ new.arbiter.view.next }
    ensures known { (v : View) → IsWellFormed v → missing_below v v.known ≡ missing v }
{
    having_law();
    honest_take_law();
    missing_law();
    reading_law();
    taken_law();
    through_law();
    well_formed_law();
}

/// Each run of a repairer is a run of its pacer, so the laws of `mold_pacing` hold for it. No number is requested twice
/// within the timeout, unless a step freed the request for it.
pub fn pacing_law()
    ensures { (old new : Repairer) (steps : List RepairStep) (outcomes : List Outcome) →
        IsRepaired old new steps outcomes → IsPaced old new steps outcomes }
{
    apart_law();
    taken_law();
}

/// In a run that begins without requests, few requests are wasted, if the store has room for each packet: a store
/// without a limit has. Those that neither ran out nor are in flight at the end are at most as many as the distinct
/// numbers that arrived while a request for them was in flight. A request runs out when its timeout passes, or the
/// settle time after a response.
pub fn frugal_law()
    ensures frugal { (old new : Repairer) (steps : List RepairStep) (outcomes : List Outcome)
        (ran : IsRepaired old new steps outcomes) → IsWellFormed old.arbiter.view → old.pacer.flights.items ≡ [] →
        HasRoom old new steps outcomes ran → IsFrugalRun old new steps outcomes }
    ensures room { (old new : Repairer) (steps : List RepairStep) (outcomes : List Outcome)
        (ran : IsRepaired old new steps outcomes) → IsWellFormed old.arbiter.view → old.arbiter.view.room ≡ None →
        HasRoom old new steps outcomes ran }
{
    pacer_frugal_law();
    having_law();
    room_law();
    taken_law();
    well_formed_law();
}

/// No request stays in flight after all its messages arrived, whichever datagrams brought them: in a run that begins
/// without requests, each request in flight asks for a message that is still missing.
pub fn needed_law()
    ensures { (old new : Repairer) (steps : List RepairStep) (outcomes : List Outcome) →
        IsRepaired old new steps outcomes → IsWellFormed old.arbiter.view → old.pacer.flights.items ≡ [] →
        AreNeeded new }
{
    having_law();
    nothing_new_law();
    room_law();
    taken_law();
    well_formed_law();
}

/// In each run, and so in each part of a run, the count of requests times `interval` is at most the sum of the time
/// that passed, the tolerance and one `interval`. So a span of time has at most `bucket` requests and one more for each
/// interval.
pub fn flood_law()
    ensures { (old new : Repairer) (steps : List RepairStep) (outcomes : List Outcome) →
        IsRepaired old new steps outcomes →
        length (requests_of outcomes) * old.options.interval
        ≤ new.pacer.state.now - old.pacer.state.now + tolerance old.options + old.options.interval }
{
    limit_law();
    pacing_law();
}

/// Requests never get stuck. If nothing else happens for the greater of the ceiling and the interval, a request for any
/// number can be sent. A poll at that time or later requests the first missing message, if it is ripe and not to be
/// given up.
pub fn stuck_law()
    ensures ready { (p : Pacer) (number : ℕ) →
        CanAsk p (p.state.now + max p.options.ceiling p.options.interval) number }
    ensures asks { (options : RepairOptions) (v : View) (old new : Pacer) (now : ℕ) (result : Option Ask) →
        HasPolled options v old new now result → 0 < options.servers →
        old.state.now + max old.options.ceiling old.options.interval ≤ now →
        IsWanted v (advanced now v.known old.state).ripe v.next → is_due options.give_up v old now ≡ false →
        RequestsFirst v result }
{}

/// In a run that begins without requests, each message that is given up was in at least `give_up` requests of the
/// pacer.
pub fn given_up_law()
    ensures { (start old new : Repairer) (steps : List RepairStep) (outcomes : List Outcome) →
        (is : IsPaced start old steps outcomes) → (time : ℕ) (handed : Handed) (outcome : Outcome) →
        start.pacer.flights.items ≡ [] → HasLostSome old new time handed outcome →
        IfSome outcome.lost (λ gap. (number : ℕ) → gap.first ≤ number → number < gap.end →
        old.options.give_up ≤ count_asks_for number is.sent) }
{
    attempts_law();
}
