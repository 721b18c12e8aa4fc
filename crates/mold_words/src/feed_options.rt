//! Reads the values of the options of `mold feed`.

ghost use Rattle.std.specs.Prelude.{◌≡◌, MatchResult, Some, codes, option_map};
ghost use Rattle.clap.specs.Words.{first_of, found_of, rows_of};
ghost use Rattle.mold_words.specs.Addresses.{address_view};
ghost use Rattle.mold_words.specs.Arguments.{feed_times_view, sent_lines_view};
ghost use Rattle.mold_words.specs.NoOrders.{LacksValue};
ghost use Rattle.mold_words.specs.Orders.{address_or_none, feed_times_in, host_or_any, sent_lines_in};

use crate::address::Address;
use crate::addresses::{address_of, host_of};
use crate::feed_times::FeedTimes;
use crate::no_order::NoOrder;
use crate::options::{address_in, number_in, text_in};
use crate::sent_lines::SentLines;
use clap::ArgMatches;

// The time for which requests are responded to after the input has ended, in milliseconds.
const DEFAULT_LINGER: u64 = 10_000;

/// Returns the value of an option that is an address, if it is given. `check_addresses` has already refused other values.
pub(crate) fn address_or_none(
    options: &ArgMatches<'_>,
    name: &'static str,
) -> Result<Option<Address>, NoOrder>
    ensures { MatchResult result
        (λ address. address_or_none (first_of name.now (rows_of (found_of options.now)))
        ≡ Some (option_map address_view address))
        (LacksValue (address_or_none (first_of name.now (rows_of (found_of options.now))))) }
{
    match text_in(options, name) {
        Some(text) => match address_of(text) {
            Some(address) => Ok(Some(address)),
            None => Err(NoOrder::Missing { name }),
        },
        None => Ok(None),
    }
}

// Returns the value of an option that is an IPv4 address, or 0.0.0.0 if the option is not given.
fn host_or_any(options: &ArgMatches<'_>, name: &'static str) -> Result<[u8; 4], NoOrder>
    ensures { MatchResult result
        (λ host. host_or_any (first_of name.now (rows_of (found_of options.now))) ≡ Some host)
        (LacksValue (host_or_any (first_of name.now (rows_of (found_of options.now))))) }
{
    match text_in(options, name) {
        Some(text) => match host_of(text) {
            Some(host) => Ok(host),
            None => Err(NoOrder::Missing { name }),
        },
        None => Ok([0; 4]),
    }
}

/// Returns the lines that a session is sent on, and the addresses that they are sent from.
#[tactic(auto, unfolding(crate::specs::Orders::sent_lines_in))]
pub(crate) fn sent_lines_in(options: &ArgMatches<'_>) -> Result<SentLines, NoOrder>
    ensures { MatchResult result
        (λ lines. sent_lines_in (rows_of (found_of options.now)) ≡ Some (sent_lines_view lines))
        (LacksValue (sent_lines_in (rows_of (found_of options.now)))) }
{
    let a = address_in(options, "a")?;
    let b = address_or_none(options, "b")?;
    let interface_a = host_or_any(options, "interface-a")?;
    let interface_b = host_or_any(options, "interface-b")?;
    let ttl = number_in(options, "ttl", 1, 0, 255)?;
    if b.is_none() && text_in(options, "interface-b").is_some() {
        return Err(NoOrder::InterfaceWithoutLine);
    }
    Ok(SentLines {
        a,
        b,
        interface_a,
        interface_b,
        ttl: ttl as u8,
    })
}

/// Returns when messages and heartbeats are sent, and how long requests are responded to.
#[tactic(auto, unfolding(crate::specs::Orders::feed_times_in))]
pub(crate) fn feed_times_in(options: &ArgMatches<'_>) -> Result<FeedTimes, NoOrder>
    ensures { MatchResult result
        (λ times. feed_times_in (rows_of (found_of options.now)) ≡ Some (feed_times_view times))
        (LacksValue (feed_times_in (rows_of (found_of options.now)))) }
{
    let usual = match text_in(options, "bind") {
        Some(_) => DEFAULT_LINGER,
        None => 0,
    };
    let idle = number_in(options, "idle", 1000, 0, 60_000)?;
    let rate = number_in(options, "rate", 0, 0, 10_000_000)?;
    let linger = number_in(options, "linger", usual, 0, 86_400_000)?;
    Ok(FeedTimes {
        idle: idle as u32,
        rate: rate as u32,
        linger: linger as u32,
    })
}
