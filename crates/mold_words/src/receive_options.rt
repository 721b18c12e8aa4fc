//! Reads the values of the options of `mold receive`.

ghost use Rattle.std.specs.Prelude.{◌≡◌, ◌<◌, ◌≤◌, IfOk, IfSome, MatchResult, Some, codes, length, map, option_map};
ghost use Rattle.std.specs.Prelude.{true};
ghost use Rattle.std.specs.List.{list_all};
ghost use Rattle.clap.specs.Words.{first_of, found_of, rows_of};
ghost use Rattle.mold_words.specs.Addresses.{address_of, address_view};
ghost use Rattle.mold_words.specs.Arguments.{line_options_view, receiver_options_view, request_options_view};
ghost use Rattle.mold_words.specs.Arguments.{start_options_view};
ghost use Rattle.mold_words.specs.LinePorts.{is_line_port, line_port_of, line_port_view};
ghost use Rattle.mold_words.specs.NoOrders.{LacksOrder, LacksValue};
ghost use Rattle.mold_words.specs.Orders.{host_or_none, learned_in, lines_in, number_in, port_or_none};
ghost use Rattle.mold_words.specs.Orders.{receiver_in, requests_in, servers_in, session_start_in, start_in};
ghost use Rattle.mold_words.specs.Values.{is_character, values_of};
ghost use Rattle.std.specs.Option.{option_and_then};

use crate::address::Address;
use crate::addresses::{address_of, host_of};
use crate::line_options::LineOptions;
use crate::line_port::LinePort;
use crate::line_ports::line_port_of;
use crate::no_order::NoOrder;
use crate::options::{flag_in, format_in, number_in, session_in, text_in, texts_in};
use crate::receiver_options::ReceiverOptions;
use crate::request_options::RequestOptions;
use crate::start_options::StartOptions;
use crate::values::number_of;
use clap::ArgMatches;
use mold_wire::MAX_WIDE_WINDOW;
use std::alloc::{AllocError, Global};

// The greatest number of servers.
const MAX_SERVERS: usize = 8;

// The greatest sequence number that a receiver may start at.
const MAX_NEXT: u64 = 9_223_372_036_854_775_807;

// The least and the greatest patience, in microseconds.
const MIN_PATIENCE: u64 = 200;

const MAX_PATIENCE: u64 = 1_000_000;

// The size of the stored messages, in MiB: if it is not given, and the greatest.
const DEFAULT_STORE: u64 = 1024;

const MAX_STORE: u64 = 1_048_576;

// Returns the session of `--session`, or `None` if `--learn` is given.
#[tactic(auto, unfolding(crate::specs::Orders::learned_in))]
fn learned_in(options: &ArgMatches<'_>) -> Result<Option<[u8; 10]>, NoOrder>
    ensures value { MatchResult result
        (λ session. learned_in (rows_of (found_of options.now)) ≡ Some session)
        (LacksValue (learned_in (rows_of (found_of options.now)))) }
    ensures named { IfOk result (λ session. IfSome session (λ name. list_all is_character name ≡ true)) }
{
    match (text_in(options, "session"), flag_in(options, "learn")) {
        (None, false) => Err(NoOrder::NoSession),
        (None, true) => Ok(None),
        (Some(_), false) => Ok(Some(session_in(options)?)),
        (Some(_), true) => Err(NoOrder::Both {
            first: "session",
            second: "learn",
        }),
    }
}

// Returns the sequence number to start at, or `None` if `--from-now` is given.
#[tactic(auto, unfolding(crate::specs::Orders::start_in))]
fn start_in(options: &ArgMatches<'_>) -> Result<Option<u64>, NoOrder>
    ensures value { MatchResult result
        (λ start. start_in (rows_of (found_of options.now)) ≡ Some start)
        (LacksValue (start_in (rows_of (found_of options.now)))) }
    ensures within { IfOk result (λ start. IfSome start (λ number. (1 ≤ number) × (number ≤ 9223372036854775807))) }
{
    match (text_in(options, "next"), flag_in(options, "from-now")) {
        (None, false) => Ok(Some(1)),
        (None, true) => Ok(None),
        (Some(_), false) => Ok(Some(number_in(options, "next", 1, 1, MAX_NEXT)?)),
        (Some(_), true) => Err(NoOrder::Both {
            first: "next",
            second: "from-now",
        }),
    }
}

// Returns the value of an option that is a port of a line. `check_addresses` has already refused other values.
fn port_in(options: &ArgMatches<'_>, name: &'static str) -> Result<LinePort, NoOrder>
    ensures value { MatchResult result
        (λ port. option_and_then line_port_of (first_of name.now (rows_of (found_of options.now)))
        ≡ Some (line_port_view port))
        (LacksValue (option_and_then line_port_of (first_of name.now (rows_of (found_of options.now))))) }
    ensures valid { IfOk result (λ port. is_line_port port ≡ true) }
{
    match text_in(options, name) {
        Some(text) => line_port_of(text).ok_or(NoOrder::Missing { name }),
        None => Err(NoOrder::Missing { name }),
    }
}

// Returns the value of an option that is a port of a line, if it is given.
fn port_or_none(options: &ArgMatches<'_>, name: &'static str) -> Result<Option<LinePort>, NoOrder>
    ensures value { MatchResult result
        (λ port. port_or_none (first_of name.now (rows_of (found_of options.now)))
        ≡ Some (option_map line_port_view port))
        (LacksValue (port_or_none (first_of name.now (rows_of (found_of options.now))))) }
    ensures valid { IfOk result (λ found. IfSome found (λ port. is_line_port port ≡ true)) }
{
    match text_in(options, name) {
        Some(text) => match line_port_of(text) {
            Some(port) => Ok(Some(port)),
            None => Err(NoOrder::Missing { name }),
        },
        None => Ok(None),
    }
}

// Returns the value of an option that is an IPv4 address, if it is given.
fn host_or_none(options: &ArgMatches<'_>, name: &'static str) -> Result<Option<[u8; 4]>, NoOrder>
    ensures { MatchResult result
        (λ host. host_or_none (first_of name.now (rows_of (found_of options.now))) ≡ Some host)
        (LacksValue (host_or_none (first_of name.now (rows_of (found_of options.now))))) }
{
    match text_in(options, name) {
        Some(text) => match host_of(text) {
            Some(host) => Ok(Some(host)),
            None => Err(NoOrder::Missing { name }),
        },
        None => Ok(None),
    }
}

/// Returns the ports and the senders of the lines.
#[tactic(auto, unfolding(crate::specs::Orders::lines_in))]
pub(crate) fn lines_in(options: &ArgMatches<'_>) -> Result<LineOptions, NoOrder>
    ensures { MatchResult result
        (λ lines. lines_in (rows_of (found_of options.now)) ≡ Some (line_options_view lines))
        (LacksValue (lines_in (rows_of (found_of options.now)))) }
{
    let a = port_in(options, "a")?;
    let b = port_or_none(options, "b")?;
    let source_a = host_or_none(options, "source-a")?;
    let source_b = host_or_none(options, "source-b")?;
    if source_b.is_some() && b.is_none() {
        return Err(NoOrder::SourceWithoutLine);
    }
    Ok(LineOptions {
        a,
        b,
        source_a,
        source_b,
    })
}

// Returns the addresses of these texts.
fn addresses_of(alloc: Global, texts: &[&str]) -> Result<Vec<Address>, NoOrder>
    ensures value { MatchResult result
        (λ addresses. values_of address_of (map (λ text. text.now) texts.now)
        ≡ Some (map address_view addresses.items))
        (LacksOrder (values_of address_of (map (λ text. text.now) texts.now))) }
    ensures count { IfOk result (λ addresses. length addresses.items ≡ length texts.now) }
{
    let mut addresses = Vec::new(alloc);
    for text in texts {
        let Some(address) = address_of(text) else {
            return Err(NoOrder::Missing { name: "server" });
        };
        if let Err(error) = addresses.push(address) {
            return Err(AllocError::from(error).into());
        }
    }
    Ok(addresses)
}

/// Returns the addresses of the servers, at most `MAX_SERVERS`.
#[tactic(auto, unfolding(crate::specs::Orders::servers_in))]
pub(crate) fn servers_in(alloc: Global, options: &ArgMatches<'_>) -> Result<Vec<Address>, NoOrder>
    ensures value { MatchResult result
        (λ servers. servers_in (rows_of (found_of options.now)) ≡ Some (map address_view servers.items))
        (LacksOrder (servers_in (rows_of (found_of options.now)))) }
    ensures few { IfOk result (λ servers. length servers.items ≤ 8) }
{
    match texts_in(options, "server") {
        None => Ok(Vec::new(alloc)),
        Some(texts) if texts.len() > MAX_SERVERS => Err(NoOrder::TooManyServers),
        Some(texts) => addresses_of(alloc, texts),
    }
}

// Returns the patience in microseconds, or 0 if it is not given.
fn patience_in(options: &ArgMatches<'_>) -> Result<u32, NoOrder>
    ensures value { MatchResult result
        (λ patience. number_in (codes "patience") 0 200 1000000 (rows_of (found_of options.now)) ≡ Some patience)
        (LacksValue (number_in (codes "patience") 0 200 1000000 (rows_of (found_of options.now)))) }
    ensures within { IfOk result (λ patience. (0 < patience → 200 ≤ patience) × (patience ≤ 1000000)) }
{
    match text_in(options, "patience") {
        None => Ok(0),
        Some(text) => match number_of(text, MIN_PATIENCE, MAX_PATIENCE) {
            Some(patience) => Ok(patience as u32),
            None => Err(NoOrder::Number {
                name: "patience",
                least: MIN_PATIENCE,
                most: MAX_PATIENCE,
            }),
        },
    }
}

/// Returns the session and the sequence number to start at.
#[tactic(auto, unfolding(crate::specs::Orders::session_start_in))]
pub(crate) fn session_start_in(options: &ArgMatches<'_>) -> Result<StartOptions, NoOrder>
    ensures { MatchResult result
        (λ start. session_start_in (rows_of (found_of options.now)) ≡ Some (start_options_view start))
        (LacksValue (session_start_in (rows_of (found_of options.now)))) }
{
    let session = learned_in(options)?;
    let next = start_in(options)?;
    Ok(StartOptions { session, next })
}

/// Returns what the receiver keeps, when it ends, when it reports and how it prints messages.
#[tactic(auto, unfolding(crate::specs::Orders::receiver_in))]
pub(crate) fn receiver_in(options: &ArgMatches<'_>) -> Result<ReceiverOptions, NoOrder>
    ensures { MatchResult result
        (λ receiver. receiver_in (rows_of (found_of options.now)) ≡ Some (receiver_options_view receiver))
        (LacksValue (receiver_in (rows_of (found_of options.now)))) }
{
    let widest = u64::from(MAX_WIDE_WINDOW);
    let window = number_in(options, "window", widest, 1, widest)?;
    let store = number_in(options, "store", DEFAULT_STORE, 1, MAX_STORE)?;
    let audit = number_in(options, "audit", 65_536, 0, 1_048_576)?;
    let quiet = number_in(options, "quiet", 0, 0, 86_400)?;
    let stats = number_in(options, "stats", 0, 0, 86_400)?;
    let output = format_in(options)?;
    Ok(ReceiverOptions {
        window: window as u32,
        store: store as u32,
        audit: audit as u32,
        quiet: quiet as u32,
        stats: stats as u32,
        output,
    })
}

/// Returns when and how often messages are requested, and who may respond.
#[tactic(auto, unfolding(crate::specs::Orders::requests_in))]
pub(crate) fn requests_in(options: &ArgMatches<'_>) -> Result<RequestOptions, NoOrder>
    ensures { MatchResult result
        (λ requests. requests_in (rows_of (found_of options.now)) ≡ Some (request_options_view requests))
        (LacksValue (requests_in (rows_of (found_of options.now)))) }
{
    let patience = patience_in(options)?;
    let timeout = number_in(options, "timeout", 50, 1, 60_000)?;
    let ceiling = number_in(options, "ceiling", 1000, 1, 600_000)?;
    let requests = number_in(options, "requests", 1000, 1, 1_000_000)?;
    let in_flight = number_in(options, "in-flight", 256, 1, 4096)?;
    let give_up = number_in(options, "give-up", 0, 0, 1000)?;
    if ceiling < timeout {
        return Err(NoOrder::Ceiling);
    }
    Ok(RequestOptions {
        patience,
        timeout: timeout as u32,
        ceiling: ceiling as u32,
        requests: requests as u32,
        in_flight: in_flight as u32,
        give_up: give_up as u32,
        any_responder: flag_in(options, "any-responder"),
    })
}
