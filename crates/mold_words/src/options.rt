//! Reads the values of a command's options from the matches of a parse.

ghost use Rattle.std.specs.Prelude.{◌≡◌, ◌≤◌, IfOk, IfSome, MatchResult, None, Some, codes, map, option_map};
ghost use Rattle.std.specs.Prelude.{string_bytes, true};
ghost use Rattle.std.specs.List.{list_all};
ghost use Rattle.clap.specs.Words.{all_of, first_of, found_of, rows_of};
ghost use Rattle.mold_words.specs.NoOrders.{LacksOrder, LacksValue};
ghost use Rattle.mold_words.specs.Arguments.{local_options_view, published_options_view};
ghost use Rattle.mold_words.specs.Orders.{address_in, bound_in, burst_in, count_in, flag_in, follow_in, format_in};
ghost use Rattle.mold_words.specs.Orders.{from_in, limit_in, limits_in, live_in, local_in, number_in};
ghost use Rattle.mold_words.specs.Orders.{published_in, report_in};
ghost use Rattle.mold_words.specs.Orders.{session_in, turns_in, window_in};
ghost use Rattle.mold_words.specs.Values.{is_character};
ghost use Rattle.mold_words.specs.Addresses.{address_view};
ghost use Rattle.mold_wire.specs.declared.limits.TheConstants.{MAX_BURST, MAX_WINDOW};
ghost use Rattle.mold_wire.specs.declared.limits.TheConstants.{MAX_LIMIT, MAX_NUMBER, MIN_LIMIT};

use crate::address::Address;
use crate::addresses::address_of;
use crate::limits::Limits;
use crate::local_options::LocalOptions;
use crate::no_order::NoOrder;
use crate::published_options::PublishedOptions;
use crate::values::{number_of, session_of};
use clap::ArgMatches;
use mold_input::MessageFormat;
use mold_wire::{MAX_BURST, MAX_LIMIT, MAX_NUMBER, MAX_WINDOW, MIN_LIMIT};
use std::alloc::Global;

// The values of options that are not given.
const DEFAULT_LIMIT: u64 = 1400;

const DEFAULT_WINDOW: u64 = 1024;

const DEFAULT_TURNS: u64 = 1000;

// The greatest number of turns.
const MAX_TURNS: u64 = 1_000_000;

/// Returns the value of an option that must have one.
pub(crate) fn required_in<'a>(
    options: &ArgMatches<'a>,
    name: &'static str,
) -> Result<&'a str, NoOrder>
    ensures { MatchResult result
        (λ text. first_of name.now (rows_of (found_of options.now)) ≡ Some text.now)
        (LacksValue (first_of name.now (rows_of (found_of options.now)))) }
{
    text_in(options, name).ok_or(NoOrder::Missing { name })
}

/// Returns the name of a file that must be given, as a string that an order keeps.
pub(crate) fn file_in(
    alloc: Global,
    options: &ArgMatches<'_>,
    name: &'static str,
) -> Result<String, NoOrder>
    ensures { MatchResult result
        (λ text. first_of name.now (rows_of (found_of options.now)) ≡ Some (string_bytes text))
        (LacksOrder (first_of name.now (rows_of (found_of options.now)))) }
{
    let text = required_in(options, name)?;
    Ok(String::from_str(alloc, text)?)
}

/// Returns the name of the journal file, as a string that an order keeps.
pub(crate) fn journal_in(alloc: Global, options: &ArgMatches<'_>) -> Result<String, NoOrder>
    ensures { MatchResult result
        (λ text. first_of (codes "journal") (rows_of (found_of options.now)) ≡ Some (string_bytes text))
        (LacksOrder (first_of (codes "journal") (rows_of (found_of options.now)))) }
{
    file_in(alloc, options, "journal")
}

/// Whether the flag is given.
pub(crate) fn flag_in(options: &ArgMatches<'_>, name: &str) -> bool
    ensures { result ≡ flag_in name.now (rows_of (found_of options.now)) }
{
    text_in(options, name).is_some_and(|text| text == "true")
}

/// Returns the session name.
pub(crate) fn session_in(options: &ArgMatches<'_>) -> Result<[u8; 10], NoOrder>
    ensures value { MatchResult result
        (λ session. session_in (codes "session") (rows_of (found_of options.now)) ≡ Some session)
        (LacksValue (session_in (codes "session") (rows_of (found_of options.now)))) }
    ensures named { IfOk result (λ session. list_all is_character session ≡ true) }
{
    match text_in(options, "session") {
        Some(text) => session_of(text).ok_or(NoOrder::Session),
        None => Err(NoOrder::Session),
    }
}

/// Returns the value of an option that is a number in a range, or `usual` if the option is not given.
pub(crate) fn number_in(
    options: &ArgMatches<'_>,
    name: &'static str,
    usual: u64,
    least: u64,
    most: u64,
) -> Result<u64, NoOrder>
    requires { (least ≤ usual) × (usual ≤ most) }
    ensures value { MatchResult result
        (λ number. number_in name.now usual least most (rows_of (found_of options.now)) ≡ Some number)
        (LacksValue (number_in name.now usual least most (rows_of (found_of options.now)))) }
    ensures within { IfOk result (λ number. (least ≤ number) × (number ≤ most)) }
{
    match text_in(options, name) {
        Some(text) => number_of(text, least, most).ok_or(NoOrder::Number { name, least, most }),
        None => Ok(usual),
    }
}

/// Returns the value of the option, if it has one.
pub(crate) fn text_in<'a>(options: &ArgMatches<'a>, name: &str) -> Option<&'a str>
    ensures { option_map (λ text. text.now) result
        ≡ first_of name.now (rows_of (found_of options.now)) }
{
    options.get_str(name)
}

/// Returns all values of the option in the order in which they are given, if it has one.
pub(crate) fn texts_in<'b, 'a>(options: &'b ArgMatches<'a>, name: &str) -> Option<&'b [&'a str]>
    ensures { option_map (λ texts. map (λ text. text.now) texts.now) result
        ≡ all_of name.now (rows_of (found_of options.now)) }
{
    options.get_strs(name)
}

/// Returns the maximum length of a datagram.
pub(crate) fn limit_in(options: &ArgMatches<'_>, name: &'static str) -> Result<usize, NoOrder>
    ensures value { MatchResult result
        (λ number. limit_in name.now (rows_of (found_of options.now)) ≡ Some number)
        (LacksValue (limit_in name.now (rows_of (found_of options.now)))) }
    ensures within { IfOk result (λ number. (MIN_LIMIT ≤ number) × (number ≤ MAX_LIMIT)) }
{
    Ok(number_in(
        options,
        name,
        DEFAULT_LIMIT,
        MIN_LIMIT as u64,
        MAX_LIMIT as u64,
    )? as usize)
}

/// Returns the receiver's window.
pub(crate) fn window_in(options: &ArgMatches<'_>) -> Result<u32, NoOrder>
    ensures value { MatchResult result
        (λ number. window_in (rows_of (found_of options.now)) ≡ Some number)
        (LacksValue (window_in (rows_of (found_of options.now)))) }
    ensures within { IfOk result (λ number. (1 ≤ number) × (number ≤ MAX_WINDOW)) }
{
    Ok(number_in(options, "window", DEFAULT_WINDOW, 1, u64::from(MAX_WINDOW))? as u32)
}

/// Returns the maximum number of responses to a request.
pub(crate) fn burst_in(options: &ArgMatches<'_>) -> Result<u16, NoOrder>
    ensures value { MatchResult result
        (λ number. burst_in (rows_of (found_of options.now)) ≡ Some number)
        (LacksValue (burst_in (rows_of (found_of options.now)))) }
    ensures within { IfOk result (λ number. (1 ≤ number) × (number ≤ MAX_BURST)) }
{
    Ok(number_in(options, "burst", 1, 1, u64::from(MAX_BURST))? as u16)
}

/// Returns the sequence number of the first message.
pub(crate) fn from_in(options: &ArgMatches<'_>) -> Result<u64, NoOrder>
    ensures value { MatchResult result
        (λ number. from_in (rows_of (found_of options.now)) ≡ Some number)
        (LacksValue (from_in (rows_of (found_of options.now)))) }
    ensures within { IfOk result (λ number. (1 ≤ number) × (number ≤ MAX_NUMBER)) }
{
    number_in(options, "from", 1, 1, MAX_NUMBER)
}

/// Returns the maximum number of messages. It is `MAX_NUMBER` if the option is not given.
pub(crate) fn count_in(options: &ArgMatches<'_>) -> Result<u64, NoOrder>
    ensures { MatchResult result
        (λ number. count_in (rows_of (found_of options.now)) ≡ Some number)
        (LacksValue (count_in (rows_of (found_of options.now)))) }
{
    number_in(options, "count", MAX_NUMBER, 0, MAX_NUMBER)
}

/// Returns the number of turns.
pub(crate) fn turns_in(options: &ArgMatches<'_>) -> Result<u32, NoOrder>
    ensures value { MatchResult result
        (λ number. turns_in (rows_of (found_of options.now)) ≡ Some number)
        (LacksValue (turns_in (rows_of (found_of options.now)))) }
    ensures within { IfOk result (λ number. (1 ≤ number) × (number ≤ 1000000)) }
{
    Ok(number_in(options, "turns", DEFAULT_TURNS, 1, MAX_TURNS)? as u32)
}

/// Whether new records of the journal file are read while the command runs.
pub(crate) fn follow_in(options: &ArgMatches<'_>) -> bool
    ensures { result ≡ follow_in (rows_of (found_of options.now)) }
{
    flag_in(options, "follow")
}

/// Returns the number of turns of a server, or `None` if it does not end.
#[tactic(auto, unfolding(crate::specs::Orders::bound_in))]
pub(crate) fn bound_in(options: &ArgMatches<'_>) -> Result<Option<u32>, NoOrder>
    ensures value { MatchResult result
        (λ bound. bound_in (rows_of (found_of options.now)) ≡ Some bound)
        (LacksValue (bound_in (rows_of (found_of options.now)))) }
    ensures within { IfOk result (λ bound. IfSome bound (λ number. (1 ≤ number) × (number ≤ 1000000))) }
{
    match (follow_in(options), text_in(options, "turns")) {
        (true, None) => Ok(None),
        _ => Ok(Some(turns_in(options)?)),
    }
}

/// Whether text is written at the end of each turn.
pub(crate) fn live_in(options: &ArgMatches<'_>) -> bool
    ensures { result ≡ live_in (rows_of (found_of options.now)) }
{
    flag_in(options, "live")
}

/// Whether reports of both lines are printed.
pub(crate) fn report_in(options: &ArgMatches<'_>) -> bool
    ensures { result ≡ report_in (rows_of (found_of options.now)) }
{
    flag_in(options, "report")
}

/// Returns how the input or the output encodes messages. `--end-at-empty` is refused without `--blocks`.
#[tactic(auto, unfolding(crate::specs::Orders::format_in))]
pub(crate) fn format_in(options: &ArgMatches<'_>) -> Result<MessageFormat, NoOrder>
    ensures { MatchResult result
        (λ format. format_in (rows_of (found_of options.now)) ≡ Some format)
        (LacksValue (format_in (rows_of (found_of options.now)))) }
{
    match (flag_in(options, "blocks"), flag_in(options, "end-at-empty")) {
        (false, false) => Ok(MessageFormat::Lines),
        (true, false) => Ok(MessageFormat::Blocks),
        (true, true) => Ok(MessageFormat::BlocksToEmpty),
        (false, true) => Err(NoOrder::EndWithoutBlocks),
    }
}

/// Returns the limits of the publisher and of its server. The server's limit is at least the publisher's.
#[tactic(auto, unfolding(crate::specs::Orders::limits_in))]
pub(crate) fn limits_in(options: &ArgMatches<'_>) -> Result<Limits, NoOrder>
    ensures { MatchResult result
        (λ limits. limits_in (rows_of (found_of options.now)) ≡ Some (limits.limit, limits.server_limit))
        (LacksValue (limits_in (rows_of (found_of options.now)))) }
{
    let limit = limit_in(options, "limit")?;
    let server_limit = limit_in(options, "server-limit")?;
    if server_limit < limit {
        return Err(NoOrder::ServerLimit);
    }
    Ok(Limits {
        limit,
        server_limit,
    })
}

/// Returns the options that `sim` and `loop` share.
#[tactic(auto, unfolding(crate::specs::Orders::local_in))]
pub(crate) fn local_in(options: &ArgMatches<'_>) -> Result<LocalOptions, NoOrder>
    ensures { MatchResult result
        (λ local. local_in (rows_of (found_of options.now)) ≡ Some (local_options_view local))
        (LacksValue (local_in (rows_of (found_of options.now)))) }
{
    let session = session_in(options)?;
    let limits = limits_in(options)?;
    let window = window_in(options)?;
    let burst = burst_in(options)?;
    Ok(LocalOptions {
        session,
        limits,
        window,
        burst,
    })
}

/// Returns the options of `publish` and `feed` about the session that they publish.
#[tactic(auto, unfolding(crate::specs::Orders::published_in))]
pub(crate) fn published_in(options: &ArgMatches<'_>) -> Result<PublishedOptions, NoOrder>
    ensures { MatchResult result
        (λ published. published_in (rows_of (found_of options.now)) ≡ Some (published_options_view published))
        (LacksValue (published_in (rows_of (found_of options.now)))) }
{
    let session = session_in(options)?;
    let limit = limit_in(options, "limit")?;
    let beats = number_in(options, "beats", 1, 0, 1000)?;
    let ends = number_in(options, "ends", 1, 0, 1000)?;
    Ok(PublishedOptions {
        session,
        limit,
        beats: beats as u32,
        ends: ends as u32,
    })
}

/// Returns the value of an option that is an address. `check_addresses` has already refused other values.
pub(crate) fn address_in(options: &ArgMatches<'_>, name: &'static str) -> Result<Address, NoOrder>
    ensures { MatchResult result
        (λ address. address_in name.now (rows_of (found_of options.now)) ≡ Some (address_view address))
        (LacksValue (address_in name.now (rows_of (found_of options.now)))) }
{
    match text_in(options, name) {
        Some(text) => address_of(text).ok_or(NoOrder::Missing { name }),
        None => Err(NoOrder::Missing { name }),
    }
}
