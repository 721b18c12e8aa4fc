//! What responses and arrivals do to the requests in flight.

ghost use Rattle.std.specs.Prelude.{◌≡◌, ◌<◌, ◌+◌, ◌^◌, ℕ, true, find, map, min};
ghost use Rattle.std.specs.List.{list_all};
ghost use Rattle.mold_pacing.specs.Flight.{are_apart, flies_from, is_ascending, waits_until};
ghost use Rattle.mold_pacing.specs.Most.{ends_request};
ghost use Rattle.mold_pacing.specs.Responses.{after_arrival, after_response, is_response_to};

use crate::flight::Flight;
use crate::gap::Gap;
use crate::table::{count_below, passed_index};

// Returns whether a number of the range responds to the request.
fn is_response(flight: Flight, now: u64, came: Gap) -> bool
    ensures { result ≡ is_response_to now came.first came.end flight }
{
    now < flight.until && flight.first < came.end && came.first < flight.end
}

// Returns the request after a response with the numbers of the range.
fn with_response(flight: Flight, settle: u64, now: u64, came: Gap) -> Flight
    requires { now + settle < 2 ^ 64 }
    ensures { result ≡ after_response settle now came.first came.end flight }
{
    if !is_response(flight, now, came) {
        return flight;
    }
    let until = if flight.end <= came.end {
        now
    } else {
        flight.until.min(now + settle)
    };
    Flight {
        until,
        pause: 0,
        attempts: 0,
        reached: flight.reached.max(came.end),
        ..flight
    }
}

// Returns the request after the numbers of the range arrived.
fn with_arrival(flight: Flight, now: u64, came: Gap) -> Flight
    ensures { result ≡ after_arrival now came.first came.end flight }
{
    if came.first <= flight.first && flight.end <= came.end {
        return Flight {
            until: flight.until.min(now),
            ..flight
        };
    }
    flight
}

// Returns whether a number of the range responds to the request, and the range reaches the request's end.
fn is_end(flight: Flight, now: u64, came: Gap) -> bool
    ensures { result ≡ ends_request now came.first came.end flight }
{
    is_response(flight, now, came) && flight.end <= came.end
}

/// Returns the first request that a response with the numbers of the range frees.
pub(crate) fn ended_request(flights: &[Flight], low: u64, now: u64, came: Gap) -> Option<Flight>
    requires low { list_all (flies_from now low) flights.now ≡ true }
    requires sorted { is_ascending 0 flights.now ≡ true }
    requires apart { are_apart now 0 flights.now ≡ true }
    ensures { result ≡ find (ends_request now came.first came.end) flights.now }
{
    let mut index = passed_index(flights, low, now, came.first);
    while index < flights.len() {
        let flight = flights[index];
        if came.end <= flight.first {
            return None;
        }
        if is_end(flight, now, came) {
            return Some(flight);
        }
        index += 1;
    }
    None
}

/// Applies a response with the numbers of the range to each request. Returns a time before which none of those that it
/// looked at is over.
pub(crate) fn take_response(
    flights: &mut [Flight],
    low: u64,
    settle: u64,
    now: u64,
    came: Gap,
) -> u64
    requires low { list_all (flies_from now low) flights.old ≡ true }
    requires fits { now + settle < 2 ^ 64 }
    requires sorted { is_ascending 0 flights.old ≡ true }
    requires apart { are_apart now 0 flights.old ≡ true }
    ensures flights { flights.new ≡ map (after_response settle now came.first came.end) flights.old }
    ensures waits { (time : ℕ) → list_all (waits_until time) flights.old ≡ true →
        list_all (waits_until (min time result)) flights.new ≡ true }
{
    let mut least = u64::MAX;
    let mut index = passed_index(flights, low, now, came.first);
    while index < flights.len() {
        if came.end <= flights[index].first {
            return least;
        }
        let flight = with_response(flights[index], settle, now, came);
        least = least.min(flight.until);
        flights[index] = flight;
        index += 1;
    }
    least
}

/// Frees each request whose whole range is within this one, which arrived. Returns a time before which none of those
/// that it looked at is over.
pub(crate) fn take_arrival(flights: &mut [Flight], now: u64, came: Gap) -> u64
    requires sorted { is_ascending 0 flights.old ≡ true }
    requires apart { are_apart now 0 flights.old ≡ true }
    ensures flights { flights.new ≡ map (after_arrival now came.first came.end) flights.old }
    ensures waits { (time : ℕ) → list_all (waits_until time) flights.old ≡ true →
        list_all (waits_until (min time result)) flights.new ≡ true }
{
    let mut least = u64::MAX;
    let mut index = count_below(flights, came.first);
    while index < flights.len() {
        if came.end <= flights[index].first {
            return least;
        }
        let flight = with_arrival(flights[index], now, came);
        least = least.min(flight.until);
        flights[index] = flight;
        index += 1;
    }
    least
}
