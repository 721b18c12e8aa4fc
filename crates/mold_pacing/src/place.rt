//! The places of the table: which request leaves it, and where a new one enters.

ghost use Rattle.std.specs.Prelude.{◌≡◌, ◌<◌, ◌≤◌, true, false, find, IfNone, IfSome, None};
ghost use Rattle.std.specs.Prelude.{◌+◌, Some, length, slice_get, vec_capacity, vec_len};
ghost use Rattle.std.specs.List.{list_all, list_any};
ghost use Rattle.mold_pacing.specs.Flight.{ends_below, is_ascending, is_over, is_stale, waits_until};
ghost use Rattle.mold_pacing.specs.Table.{AreBelow, IsFound, IsOverAt, IsPlace, has_room, placed, without};

use crate::bounds::Bounds;
use crate::flight::Flight;
use crate::table::{begin_at, count_below};

/// The place for a new request: the index of the request that leaves the table, if one has to, and the last request for
/// the same number.
#[derive(Clone, Copy)]
pub(crate) struct Place {
    pub(crate) leaves: Option<usize>,
    pub(crate) before: Option<Flight>,
}

// Returns whether the request is over and asked for this number.
fn is_stale_for(flight: Flight, now: u64, number: u64) -> bool
    ensures { result ≡ is_stale now number flight }
{
    flight.until <= now && flight.first <= number && number < flight.end
}

// Returns the index of the first request that is over and asked for this number. It looks at the requests that begin at
// or below it.
fn find_stale(flights: &[Flight], now: u64, number: u64) -> Option<usize>
    requires sorted { is_ascending 0 flights.now ≡ true }
    ensures found { IfSome result (λ index. IsFound (is_stale now number) flights.now index) }
    ensures none { IfNone result (find (is_stale now number) flights.now ≡ None) }
{
    let mut index = 0usize;
    while index < flights.len() {
        if number < flights[index].first {
            return None;
        }
        if is_stale_for(flights[index], now, number) {
            return Some(index);
        }
        index += 1;
    }
    None
}

/// Returns the index of the first request that is over and asked for this number.
pub(crate) fn stale_index(
    flights: &[Flight],
    bounds: Bounds,
    now: u64,
    number: u64,
) -> Option<usize>
    requires sorted { is_ascending 0 flights.now ≡ true }
    requires waits { list_all (waits_until bounds.over) flights.now ≡ true }
    requires ends { list_all (ends_below bounds.end) flights.now ≡ true }
    ensures found { IfSome result (λ index. IsFound (is_stale now number) flights.now index) }
    ensures none { IfNone result (find (is_stale now number) flights.now ≡ None) }
{
    if now < bounds.over || bounds.end <= number {
        return None;
    }
    find_stale(flights, now, number)
}

// Returns the index of the first request that is over.
fn over_index(flights: &[Flight], now: u64) -> Option<usize>
    ensures over { IfSome result (λ index. IsOverAt flights.now now index) }
    ensures none { IfNone result (list_any (is_over now) flights.now ≡ false) }
{
    for index in 0..flights.len() {
        if flights[index].until <= now {
            return Some(index);
        }
    }
    None
}

/// Returns the place for a request that begins with this number, if the table has room.
pub(crate) fn place_for(
    flights: &[Flight],
    bounds: Bounds,
    places: u32,
    now: u64,
    number: u64,
) -> Option<Place>
    requires sorted { is_ascending 0 flights.now ≡ true }
    requires waits { list_all (waits_until bounds.over) flights.now ≡ true }
    requires ends { list_all (ends_below bounds.end) flights.now ≡ true }
    ensures place { IfSome result (λ place. IsPlace flights.now places now number place.leaves place.before) }
    ensures none { IfNone result (has_room places now flights.now ≡ false) }
{
    if let Some(index) = stale_index(flights, bounds, now, number) {
        return Some(Place {
            leaves: Some(index),
            before: Some(flights[index]),
        });
    }
    if flights.len() < places as usize {
        return Some(Place {
            leaves: None,
            before: None,
        });
    }
    let index = over_index(flights, now)?;
    Some(Place {
        leaves: Some(index),
        before: None,
    })
}

// Inserts the request before the first one that doesn't begin below it.
fn put(flights: &mut Vec<Flight>, sent: Flight)
    requires room { vec_len flights.old < vec_capacity flights.old }
    requires sorted { is_ascending 0 flights.old.items ≡ true }
    ensures items { flights.new.items ≡ placed sent flights.old.items }
    ensures capacity { vec_capacity flights.new ≡ vec_capacity flights.old }
{
    let index = count_below(flights, sent.first);
    let _ = flights.insert(index, sent);
}

// Returns whether the requests stay in order if one that begins with this number replaces the one at this index.
fn stays_in_order(flights: &[Flight], index: usize, first: u64) -> bool
    requires there { index < length flights.now }
    requires sorted { is_ascending 0 flights.now ≡ true }
    ensures below { result ≡ true → AreBelow flights.now index first }
    ensures next { result ≡ true → (f : Flight) → slice_get flights.now (index + 1) ≡ Some f → first ≤ f.first }
{
    if index > 0 && flights[index - 1].first >= first {
        return false;
    }
    first <= begin_at(flights, index + 1)
}

/// Removes the request that leaves, if one does, and inserts the new one. If the new one has the same index, no other
/// request moves.
pub(crate) fn replace(flights: &mut Vec<Flight>, leaves: Option<usize>, sent: Flight)
    requires there { IfSome leaves (λ index. index < vec_len flights.old) }
    requires room { leaves ≡ None → vec_len flights.old < vec_capacity flights.old }
    requires sorted { is_ascending 0 flights.old.items ≡ true }
    ensures items { flights.new.items ≡ placed sent (without leaves flights.old.items) }
    ensures capacity { vec_capacity flights.new ≡ vec_capacity flights.old }
{
    if let Some(index) = leaves {
        if stays_in_order(flights, index, sent.first) {
            flights[index] = sent;
            return;
        }
        let _ = flights.remove(index);
        put(flights, sent);
        return;
    }
    put(flights, sent);
}
