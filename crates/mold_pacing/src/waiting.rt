//! How long the requests in flight keep a number or a place.

ghost use Rattle.std.specs.Prelude.{◌≡◌, ◌<◌, ◌≤◌, ◌^◌, ℕ, true, false, length, nat_lt, if◌then◌else◌, slice_get, Some};
ghost use Rattle.std.specs.List.{list_all, list_any};
ghost use Rattle.std.specs.Prelude.{IfNone, IfSome};
ghost use Rattle.mold_pacing.specs.Flight.{asks_for, in_flight, is_over, waits_until};
ghost use Rattle.mold_pacing.specs.declared.flight.Flight.{Flight};

use crate::flight::Flight;

// Returns whether the request asks for this number.
fn has_number(flight: Flight, number: u64) -> bool
    ensures { result ≡ asks_for number flight }
{
    flight.first <= number && number < flight.end
}

/// Returns the time from which on the number is not in flight.
pub(crate) fn free_from(flights: &[Flight], number: u64) -> u64
    ensures free { (time : ℕ) → result ≤ time → in_flight time number flights.now ≡ false }
    ensures least { (time : ℕ) → time < result → in_flight time number flights.now ≡ true }
{
    let mut from = 0u64;
    for index in 0..flights.len() {
        let flight = flights[index];
        if has_number(flight, number) {
            from = from.max(flight.until);
        }
    }
    from
}

/// Returns the time from which on one of the requests is over, if none of them is over now. It looks at no request
/// after one that is over.
pub(crate) fn least_until(flights: &[Flight], now: u64) -> Option<u64>
    requires { now < 2 ^ 62 }
    ensures some { IfSome result (λ time. now < time) }
    ensures waits { IfSome result (λ time. list_all (waits_until time) flights.now ≡ true) }
    ensures none { IfNone result (list_any (is_over now) flights.now ≡ true) }
{
    let mut least = u64::MAX;
    for index in 0..flights.len() {
        let until = flights[index].until;
        if until <= now {
            return None;
        }
        least = least.min(until);
    }
    Some(least)
}

/// Returns the time from which on one of the requests is over.
pub(crate) fn over_from(flights: &[Flight]) -> u64
    requires { 0 < length flights.now }
    ensures over { (time : ℕ) → result ≤ time → list_any (is_over time) flights.now ≡ true }
    ensures least { (time : ℕ) → time < result → list_any (is_over time) flights.now ≡ false }
{
    let mut from = flights[0].until;
    for index in 0..flights.len() {
        from = from.min(flights[index].until);
    }
    from
}

// Returns the time at which the request is over, or `u64::MAX` if it is over already.
fn end_after(flight: Flight, now: u64) -> u64
    ensures { result ≡ (if nat_lt now flight.until then flight.until else 18446744073709551615) }
{
    if now < flight.until {
        flight.until
    } else {
        u64::MAX
    }
}

/// Returns the first time after `now` at which one of the requests in flight is over, or `u64::MAX` if none is in
/// flight.
pub(crate) fn next_over(flights: &[Flight], now: u64) -> u64
    requires { now < 2 ^ 62 }
    ensures later { now < result }
    ensures same { (time i : ℕ) (f : Flight) → time < result → slice_get flights.now i ≡ Some f → f.until ≤ time →
        f.until ≤ now }
    ensures stays { (time number : ℕ) → time < result → in_flight now number flights.now ≡ true →
        in_flight time number flights.now ≡ true }
    ensures bound { (last number : ℕ) → in_flight now number flights.now ≡ true →
        list_all (is_over last) flights.now ≡ true → result ≤ last }
{
    let mut over = u64::MAX;
    for index in 0..flights.len() {
        over = over.min(end_after(flights[index], now));
    }
    over
}
