//! What follows from the requests before: how long a request waits, and to which server it goes.

ghost use Rattle.std.specs.Prelude.{◌≡◌, ◌<◌, ◌^◌};
ghost use Rattle.mold_pacing.specs.Repeat.{attempts_for, end_for, flight_for, pause_for, server_for};

use crate::ask::Ask;
use crate::flight::Flight;
use crate::options::PacerOptions;

// Returns how long a request waits for a response, by the last request for its first number.
fn next_pause(options: PacerOptions, before: Option<Flight>) -> u64
    ensures { result ≡ pause_for options before }
{
    match before {
        Some(flight) => options
            .timeout
            .max(flight.pause.saturating_mul(2).min(options.ceiling)),
        None => options.timeout,
    }
}

// Returns which request in a row without a response this is.
fn next_attempt(before: Option<Flight>) -> u32
    ensures { result ≡ attempts_for before }
{
    match before {
        Some(flight) => flight.attempts.saturating_add(1),
        None => 1,
    }
}

/// Returns the server for a request. A new request goes to `base`, a repeated one to the server after its own, and one
/// that got a response to its own.
pub(crate) fn next_server(options: PacerOptions, base: u32, before: Option<Flight>) -> u32
    ensures { result ≡ server_for options.servers base before }
{
    let next = match before {
        Some(flight) if flight.pause == 0 => flight.server,
        Some(flight) => flight.server.saturating_add(1),
        None => base,
    };
    if next < options.servers { next } else { 0 }
}

/// Returns the end of a request that could go to `end`. A request that is repeated because it had no response asks for
/// no more numbers than before.
pub(crate) fn repeat_end(end: u64, before: Option<Flight>) -> u64
    ensures { result ≡ end_for end before }
{
    match before {
        Some(flight) if flight.attempts > 0 => end.min(flight.end),
        _ => end,
    }
}

/// Returns the record of a request that is sent now.
pub(crate) fn next_flight(
    options: PacerOptions,
    now: u64,
    before: Option<Flight>,
    ask: Ask,
) -> Flight
    requires { now < 2 ^ 62 }
    ensures { result ≡ flight_for options now before ask }
{
    let pause = next_pause(options, before);
    Flight {
        first: ask.first,
        end: ask.end,
        until: now + pause,
        pause,
        server: ask.server,
        attempts: next_attempt(before),
        reached: ask.first,
    }
}
