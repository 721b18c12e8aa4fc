//! Walks over the table of requests, which is in ascending order of their first numbers.

ghost use Rattle.std.specs.Prelude.{◌≡◌, ◌≤◌, ◌<◌, ◌⊎◌, ◌&&◌, ◌^◌, ℕ, true, false, nat_lt, length, find};
ghost use Rattle.std.specs.Prelude.{IfNone, IfSome};
ghost use Rattle.std.specs.Prelude.{slice_get, Some};
ghost use Rattle.mold_pacing.specs.Table.{AreBelow};
ghost use Rattle.mold_pacing.specs.Flight.{AllInFlight, ArePassed, BeginAbove, NoneInFlight, covers, in_flight};
ghost use Rattle.mold_pacing.specs.Flight.{are_apart, flies_from, is_ascending};
ghost use Rattle.std.specs.List.{list_all};
ghost use Rattle.mold_pacing.specs.declared.flight.Flight.{Flight};
ghost use Rattle.mold_pacing.specs.Asks.{AreGaps, AreAllInFlight, IsFirstFree};

use crate::cursor::Cursor;
use crate::flight::Flight;
use crate::gap::Gap;
use crate::hole::Hole;

/// A free number, the end of its gap, and the index from which on all requests begin above it.
#[derive(Clone, Copy)]
pub(crate) struct Free {
    pub(crate) index: usize,
    pub(crate) first: u64,
    pub(crate) end: u64,
}

/// How far a walk has come: the index of the next request, the least number that can be free, and the time until which
/// the numbers from the walk's first one to below it are in flight.
#[derive(Clone, Copy)]
pub(crate) struct Passed {
    pub(crate) index: usize,
    pub(crate) number: u64,
    pub(crate) until: u64,
}

/// Passes each request that begins at or below the cursor's number. The number then is the least one from there on that
/// is not in flight.
pub(crate) fn pass_flights(flights: &[Flight], now: u64, from: Cursor) -> Passed
    requires now { now < 2 ^ 62 }
    requires sorted { is_ascending 0 flights.now ≡ true }
    requires passed { ArePassed flights.now now from.index from.number }
    ensures later { now < result.until }
    ensures stays { (time : ℕ) → time < result.until → AllInFlight flights.now time from.number result.number }
    ensures passed { ArePassed flights.now now result.index result.number }
    ensures low { from.number ≤ result.number }
    ensures busy { AllInFlight flights.now now from.number result.number }
    ensures free { in_flight now result.number flights.now ≡ false }
    ensures above { BeginAbove flights.now result.index result.number }
{
    let mut index = from.index;
    let mut number = from.number;
    let mut until = u64::MAX;
    while index < flights.len() {
        let flight = flights[index];
        if flight.first > number {
            break;
        }
        if flight.until > now {
            number = number.max(flight.end);
            until = until.min(flight.until);
        }
        index += 1;
    }
    Passed {
        index,
        number,
        until,
    }
}

/// Returns the first number of the request at this index, or `u64::MAX` if there is none.
#[inline(always)]
pub(crate) fn begin_at(flights: &[Flight], index: usize) -> u64
    requires sorted { is_ascending 0 flights.now ≡ true }
    ensures low { (i : ℕ) (f : Flight) → index ≤ i → slice_get flights.now i ≡ Some f → result ≤ f.first }
    ensures above { (number : ℕ) → BeginAbove flights.now index number →
        (number < result) ⊎ (result ≡ 18446744073709551615) }
{
    if index < flights.len() {
        return flights[index].first;
    }
    u64::MAX
}

/// Returns the first numbers at or above the cursor's number that are not in flight, up to the next request.
#[inline(always)]
pub(crate) fn next_hole(flights: &[Flight], now: u64, from: Cursor) -> Hole
    requires now { now < 2 ^ 62 }
    requires sorted { is_ascending 0 flights.now ≡ true }
    requires passed { ArePassed flights.now now from.index from.number }
    ensures passed { ArePassed flights.now now result.index result.first }
    ensures later { now < result.until }
    ensures stays { (time : ℕ) → time < result.until → AllInFlight flights.now time from.number result.first }
    ensures low { from.number ≤ result.first }
    ensures busy { AllInFlight flights.now now from.number result.first }
    ensures free { NoneInFlight flights.now now result.first result.end }
    ensures some { (result.first < result.end) ⊎ (result.end ≡ 18446744073709551615) }
{
    let Passed {
        index,
        number,
        until,
    } = pass_flights(flights, now, from);
    Hole {
        index,
        first: number,
        end: begin_at(flights, index),
        until,
    }
}

/// Returns how many requests begin below this number.
pub(crate) fn count_below(flights: &[Flight], number: u64) -> usize
    requires sorted { is_ascending 0 flights.now ≡ true }
    ensures bound { result ≤ length flights.now }
    ensures below { AreBelow flights.now result number }
    ensures next { (i : ℕ) (f : Flight) → result ≤ i → slice_get flights.now i ≡ Some f → number ≤ f.first }
{
    let mut low = 0usize;
    let mut high = flights.len();
    while low < high {
        let middle = low + (high - low) / 2;
        if flights[middle].first < number {
            low = middle + 1;
        } else {
            high = middle;
        }
    }
    low
}

/// Returns an index before which all requests in flight end at or below this number. From there on, only the first
/// request in flight can begin below it.
pub(crate) fn passed_index(flights: &[Flight], low: u64, now: u64, number: u64) -> usize
    requires sorted { is_ascending 0 flights.now ≡ true }
    requires apart { are_apart now 0 flights.now ≡ true }
    requires low { list_all (flies_from now low) flights.now ≡ true }
    ensures { ArePassed flights.now now result number }
{
    let below = count_below(flights, number);
    let mut index = below;
    while index > 0 {
        index -= 1;
        let flight = flights[index];
        if now < flight.until {
            return if flight.end <= number { below } else { index };
        }
        if flight.first < low {
            return below;
        }
    }
    below
}

/// Returns the number, or `low` if a request in flight begins below it, or if `low` is greater.
pub(crate) fn low_from(flights: &[Flight], low: u64, now: u64, number: u64) -> u64
    requires sorted { is_ascending 0 flights.now ≡ true }
    requires low { list_all (flies_from now low) flights.now ≡ true }
    ensures { list_all (flies_from now result) flights.now ≡ true }
{
    if number <= low {
        return low;
    }
    let below = count_below(flights, number);
    let mut index = below;
    while index > 0 {
        index -= 1;
        let flight = flights[index];
        if now < flight.until {
            return low;
        }
        if flight.first < low {
            return number;
        }
    }
    number
}

// Returns the cursor's index, or a greater one if it is 0.
fn index_from(flights: &[Flight], low: u64, now: u64, from: Cursor) -> usize
    requires sorted { is_ascending 0 flights.now ≡ true }
    requires low { list_all (flies_from now low) flights.now ≡ true }
    requires apart { are_apart now 0 flights.now ≡ true }
    requires passed { ArePassed flights.now now from.index from.number }
    ensures { ArePassed flights.now now result from.number }
{
    if from.index == 0 {
        return passed_index(flights, low, now, from.number);
    }
    from.index
}

/// Returns the least number of the gaps that is below `ripe` and not in flight. Each gap and each request is visited at
/// most once, but no gap after the first one that begins at or above `ripe`, and no request below the first gap.
pub(crate) fn first_free(
    flights: &[Flight],
    low: u64,
    now: u64,
    ripe: u64,
    gaps: &[Gap],
) -> Option<Free>
    requires low { list_all (flies_from now low) flights.now ≡ true }
    requires now { now < 2 ^ 62 }
    requires sorted { is_ascending 0 flights.now ≡ true }
    requires apart { are_apart now 0 flights.now ≡ true }
    requires gaps { AreGaps gaps.now }
    ensures found { IfSome result (λ free. IsFirstFree flights.now now ripe gaps.now free.first free.end) }
    ensures passed { IfSome result (λ free. ArePassed flights.now now free.index free.first) }
    ensures above { IfSome result (λ free. BeginAbove flights.now free.index free.first) }
    ensures none { IfNone result (AreAllInFlight flights.now now ripe gaps.now) }
{
    let mut cursor = Cursor {
        index: 0,
        number: 0,
    };
    for gap in gaps {
        if gap.first >= ripe {
            return None;
        }
        // Most gaps are below the end of a request that was passed. They take one comparison.
        if gap.end > cursor.number {
            let from = Cursor {
                index: cursor.index,
                number: cursor.number.max(gap.first),
            };
            let index = index_from(flights, low, now, from);
            let passed = pass_flights(flights, now, Cursor { index, ..from });
            cursor = Cursor {
                index: passed.index,
                number: passed.number,
            };
            let end = gap.end.min(ripe);
            if cursor.number < end {
                return Some(Free {
                    index: cursor.index,
                    first: cursor.number,
                    end,
                });
            }
        }
    }
    None
}

/// Returns whether all requests begin below this number. It looks at the last one only.
pub(crate) fn all_begin_below(flights: &[Flight], number: u64) -> bool
    requires sorted { is_ascending 0 flights.now ≡ true }
    ensures { result ≡ true → AreBelow flights.now (length flights.now) number }
{
    let count = flights.len();
    if count == 0 {
        return true;
    }
    flights[count - 1].first < number
}

// Returns whether the request is in flight and asks for this number.
fn is_covering(flight: Flight, now: u64, number: u64) -> bool
    ensures { result ≡ covers now number flight }
{
    now < flight.until && flight.first <= number && number < flight.end
}

/// Returns the first request in flight that asks for this number.
pub(crate) fn find_covering(flights: &[Flight], low: u64, now: u64, number: u64) -> Option<Flight>
    requires low { list_all (flies_from now low) flights.now ≡ true }
    requires sorted { is_ascending 0 flights.now ≡ true }
    requires apart { are_apart now 0 flights.now ≡ true }
    ensures { result ≡ find (covers now number) flights.now }
{
    let mut index = passed_index(flights, low, now, number);
    while index < flights.len() {
        let flight = flights[index];
        if number < flight.first {
            return None;
        }
        if is_covering(flight, now, number) {
            return Some(flight);
        }
        index += 1;
    }
    None
}

// Returns whether the request is in flight and asks for a number.
fn is_sent(flight: Flight, now: u64) -> bool
    ensures { result ≡ (nat_lt now flight.until && nat_lt flight.first flight.end) }
{
    now < flight.until && flight.first < flight.end
}

/// Returns the end of the longest range of numbers that begins at `free.first`, ends at most at `free.end`, and has no
/// number in flight.
pub(crate) fn free_end(flights: &[Flight], now: u64, free: Free) -> u64
    requires sorted { is_ascending 0 flights.now ≡ true }
    requires passed { ArePassed flights.now now free.index free.first }
    requires above { BeginAbove flights.now free.index free.first }
    requires some { free.first < free.end }
    ensures some { free.first < result }
    ensures high { result ≤ free.end }
    ensures free { NoneInFlight flights.now now free.first result }
    ensures stops { (result ≡ free.end) ⊎ (in_flight now result flights.now ≡ true) }
{
    let mut index = free.index;
    while index < flights.len() {
        let flight = flights[index];
        if flight.first >= free.end {
            break;
        }
        if is_sent(flight, now) {
            return flight.first;
        }
        index += 1;
    }
    free.end
}
