//! Theorems about all runs of a pacer. Each law is a function with an empty body whose contract is the theorem.
//! `Pacer::run` returns such a run.

ghost use Rattle.std.specs.Prelude.{◌≡◌, ◌+◌, ◌-◌, ◌*◌, ◌<◌, ◌≤◌, ℕ, max, true, [], List, Option, Some, slice_get};
ghost use Rattle.mold_pacing.specs.Asks.{are_gaps};
ghost use Rattle.mold_pacing.specs.Attempts.{count_asks_for};
ghost use Rattle.mold_pacing.specs.Deadline.{CanAsk};
ghost use Rattle.mold_pacing.specs.Delays.{IsMarked, delay_of, delay_on, is_delay, is_same, line_of, mark_of, slot_of};
ghost use Rattle.mold_pacing.specs.Delays.{span_of, time_of};
ghost use Rattle.mold_pacing.specs.Frugal.{AreMissingOnce, IsFrugal};
ghost use Rattle.mold_pacing.specs.Laws.{AreApart, count_asks};
ghost use Rattle.mold_pacing.specs.Polls.{HasAsked, IsIdle, last_request};
ghost use Rattle.mold_pacing.specs.Repeat.{attempts_of};
ghost use Rattle.mold_pacing.specs.Run.{IsRun};
ghost use Rattle.mold_pacing.specs.State.{IsRipened, advanced, fresh};
ghost use Rattle.mold_pacing.specs.declared.arrival.Arrival.{Arrival};
ghost use Rattle.mold_pacing.specs.declared.ask.Ask.{Ask};
ghost use Rattle.mold_pacing.specs.declared.delay.TheConstants.{LAST_LINE};
ghost use Rattle.mold_pacing.specs.declared.gap.Gap.{Gap};
ghost use Rattle.mold_pacing.specs.declared.mark.TheConstants.{TIMES};
ghost use Rattle.mold_pacing.specs.declared.options.PacerOptions.{PacerOptions};
ghost use Rattle.mold_pacing.specs.declared.pacer.Pacer.{Pacer};
ghost use Rattle.mold_pacing.specs.declared.state.PacerState.{PacerState};
ghost use Rattle.mold_pacing.specs.declared.step.Step.{Step};

/// In each run, and so in each part of a run, the count of requests times `interval` is at most the sum of the time
/// that passed, the tolerance and one `interval`. With a tolerance of `interval` times `bucket - 1`, a span of time has
/// at most `bucket` requests and one more for each interval.
pub fn limit_law()
    ensures { (old new : Pacer) (steps : List Step) (asks : List (Option Ask)) → IsRun old new steps asks →
        count_asks asks * old.options.interval
        ≤ new.state.now - old.state.now + old.options.tolerance + old.options.interval }
{}

/// No number is requested twice within the timeout, unless a step freed the request for it: a response to that request,
/// or the arrival of all its numbers.
pub fn apart_law()
    ensures { (old new : Pacer) (steps : List Step) (asks : List (Option Ask)) → IsRun old new steps asks →
        AreApart old.options.timeout old.state.now steps asks }
{}

/// Requests never get stuck. At a time when a request for the first missing number can be sent, `Pacer::poll` returns
/// one that begins with this number, if the number is ripe. `Pacer::deadline` returns the first such time.
pub fn ready_law()
    ensures asks { (old new : Pacer) (gaps : List Gap) (gap : Gap) (ask : Ask) → HasAsked old new gaps ask →
        are_gaps 0 gaps ≡ true → slice_get gaps 0 ≡ Some gap → gap.first < old.state.ripe →
        CanAsk old old.state.now gap.first → ask.first ≡ gap.first }
    ensures idle { (old new : Pacer) (gaps : List Gap) (gap : Gap) → IsIdle old new gaps → are_gaps 0 gaps ≡ true →
        slice_get gaps 0 ≡ Some gap → gap.first < old.state.ripe → CanAsk old old.state.now gap.first → ⊥ }
{}

/// A number is ripe only if it was known for at least the patience, or at the start. This holds for the state of a new
/// pacer, and `Pacer::advance` keeps it, for any patience that is not above the pacer's. No other call changes `mark`
/// and `ripe`.
pub fn patience_law()
    ensures begins { (known_at : ℕ → ℕ) (begin patience : ℕ) (options : PacerOptions) →
        IsRipened known_at begin patience (fresh options begin) }
    ensures stays { (known_at : ℕ → ℕ) (begin patience time known : ℕ) (s : PacerState) →
        patience ≤ s.patience → known_at (max s.now time) ≡ known → IsRipened known_at begin patience s →
        IsRipened known_at begin patience (advanced time known s) }
{}

/// In a run that begins without requests, few requests are wasted. Those that neither ran out nor are in flight at the
/// end are at most as many as the distinct numbers that arrived while a request for them was in flight. A request runs
/// out when its timeout passes, or the settle time after a response. The caller may not report a number as missing
/// after it arrived.
pub fn frugal_law()
    ensures { (old new : Pacer) (steps : List Step) (asks : List (Option Ask)) (ran : IsRun old new steps asks) →
        old.flights.items ≡ [] → AreMissingOnce steps → IsFrugal old new steps asks ran }
{}

/// In a run that begins without requests, `Pacer::attempts` counts no more than the requests for the number. So a
/// caller that gives a number up after N attempts has requested it at least N times.
pub fn attempts_law()
    ensures { (old new : Pacer) (steps : List Step) (asks : List (Option Ask)) (number : ℕ) →
        IsRun old new steps asks → old.flights.items ≡ [] →
        attempts_of (last_request new number) ≤ count_asks_for number asks }
{}

/// The record of an arrival keeps all of it, if it has fewer than 65,536 messages, its time is below 2^62 and its line
/// is below 4. In one slot, no two datagrams have the same record.
pub fn mark_law()
    ensures same { (a b : Arrival) → IsMarked a → IsMarked b → slot_of a.first ≡ slot_of b.first →
        is_same (mark_of a) b ≡ true → (a.first ≡ b.first) × (a.end ≡ b.end) }
    ensures again { (a b : Arrival) → a.first ≡ b.first → a.end ≡ b.end → is_same (mark_of a) b ≡ true }
    ensures time { (a : Arrival) → IsMarked a → time_of (mark_of a) ≡ a.time }
    ensures line { (a : Arrival) → IsMarked a → line_of (mark_of a) ≡ a.line }
{}

/// The record of a delay keeps all of it, if the delay is below 2^62 and the line is 0, 1 or 2.
pub fn delay_law()
    ensures known { (span line : ℕ) → is_delay (delay_of span line) ≡ true }
    ensures span { (span line : ℕ) → span < TIMES → span_of (delay_of span line) ≡ span }
    ensures line { (span line : ℕ) → span < TIMES → line ≤ LAST_LINE → delay_on line (delay_of span line) ≡ span }
    ensures other { (span line other : ℕ) → line ≤ LAST_LINE → (other ≡ line → ⊥) →
        delay_on other (delay_of span line) ≡ 0 }
{}
