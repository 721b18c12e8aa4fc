//! Reads the values of the options about captures.

ghost use Rattle.std.specs.Prelude.{◌≡◌, ◌<◌, IfOk, IfSome, MatchResult, Some, codes, count_by, length, map};
ghost use Rattle.std.specs.Prelude.{false, string_bytes, true};
ghost use Rattle.std.specs.List.{list_all};
ghost use Rattle.clap.specs.Words.{first_of, found_of, rows_of};
ghost use Rattle.mold_words.specs.Arguments.{capture_view};
ghost use Rattle.mold_words.specs.CaptureOptions.{captures_of, is_input, is_port, port_of, session_or_none};
ghost use Rattle.mold_words.specs.IpAddresses.{ip_of};
ghost use Rattle.mold_words.specs.NoOrders.{LacksOrder, LacksValue, is_address};
ghost use Rattle.mold_words.specs.Orders.{captures_in, has_filter, is_given, texts_in};
ghost use Rattle.mold_words.specs.Values.{is_character, values_of};

use crate::addresses::MAX_PORT;
use crate::capture_order::CaptureOrder;
use crate::ip_addresses::ip_of;
use crate::no_order::NoOrder;
use crate::options::{session_in, text_in, texts_in};
use crate::values::number_of;
use clap::ArgMatches;
use mold_frame::IpAddress;
use std::alloc::{AllocError, Global};

// The name of the capture that is standard input.
const INPUT: &str = "-";

/// Whether the option or argument is given.
pub(crate) fn is_given(options: &ArgMatches<'_>, name: &str) -> bool
    ensures { result ≡ is_given (rows_of (found_of options.now)) name.now }
{
    text_in(options, name).is_some()
}

// Refuses a filter that is given.
fn check_not_given(options: &ArgMatches<'_>, name: &'static str) -> Result<(), NoOrder>
    ensures { MatchResult result
        (λ _. is_given (rows_of (found_of options.now)) name.now ≡ false)
        (λ none. (is_given (rows_of (found_of options.now)) name.now ≡ true) × (is_address none ≡ false)) }
{
    if is_given(options, name) {
        return Err(NoOrder::FilterWithoutCapture { name });
    }
    Ok(())
}

/// Refuses the options that filter the datagrams of captures, for a command that reads none.
pub(crate) fn check_unfiltered(options: &ArgMatches<'_>) -> Result<(), NoOrder>
    ensures { MatchResult result
        (λ _. has_filter (rows_of (found_of options.now)) ≡ false)
        (λ none. (has_filter (rows_of (found_of options.now)) ≡ true) × (is_address none ≡ false)) }
{
    check_not_given(options, "port")?;
    check_not_given(options, "group")?;
    check_not_given(options, "session")
}

fn port_of(text: &str) -> Option<u16>
    ensures value { result ≡ port_of text.now }
    ensures within { IfSome result (λ port. is_port port ≡ true) }
{
    Some(number_of(text, 1, MAX_PORT)? as u16)
}

// Returns the ports of these texts.
fn ports_of(alloc: Global, texts: &[&str]) -> Result<Vec<u16>, NoOrder>
    ensures value { MatchResult result
        (λ ports. values_of port_of (map (λ text. text.now) texts.now) ≡ Some ports.items)
        (LacksOrder (values_of port_of (map (λ text. text.now) texts.now))) }
    ensures within { IfOk result (λ ports. list_all is_port ports.items ≡ true) }
{
    let mut ports = Vec::new(alloc);
    for text in texts {
        let Some(port) = port_of(text) else {
            return Err(NoOrder::Number {
                name: "port",
                least: 1,
                most: MAX_PORT,
            });
        };
        if let Err(error) = ports.push(port) {
            return Err(AllocError::from(error).into());
        }
    }
    Ok(ports)
}

// Returns the destination ports that pass.
fn ports_in(alloc: Global, options: &ArgMatches<'_>) -> Result<Vec<u16>, NoOrder>
    ensures value { MatchResult result
        (λ ports. values_of port_of (texts_in (codes "port") (rows_of (found_of options.now))) ≡ Some ports.items)
        (LacksOrder (values_of port_of (texts_in (codes "port") (rows_of (found_of options.now))))) }
    ensures within { IfOk result (λ ports. list_all is_port ports.items ≡ true) }
{
    match texts_in(options, "port") {
        None => Ok(Vec::new(alloc)),
        Some(texts) => ports_of(alloc, texts),
    }
}

// Returns the addresses of these texts. `check_addresses` has already refused other texts.
fn groups_of(alloc: Global, texts: &[&str]) -> Result<Vec<IpAddress>, NoOrder>
    ensures { MatchResult result
        (λ groups. values_of ip_of (map (λ text. text.now) texts.now) ≡ Some groups.items)
        (LacksOrder (values_of ip_of (map (λ text. text.now) texts.now))) }
{
    let mut groups = Vec::new(alloc);
    for text in texts {
        let Some(group) = ip_of(text) else {
            return Err(NoOrder::Missing { name: "group" });
        };
        if let Err(error) = groups.push(group) {
            return Err(AllocError::from(error).into());
        }
    }
    Ok(groups)
}

// Returns the destination addresses that pass.
fn groups_in(alloc: Global, options: &ArgMatches<'_>) -> Result<Vec<IpAddress>, NoOrder>
    ensures { MatchResult result
        (λ groups. values_of ip_of (texts_in (codes "group") (rows_of (found_of options.now))) ≡ Some groups.items)
        (LacksOrder (values_of ip_of (texts_in (codes "group") (rows_of (found_of options.now))))) }
{
    match texts_in(options, "group") {
        None => Ok(Vec::new(alloc)),
        Some(texts) => groups_of(alloc, texts),
    }
}

// Returns the session that passes, if one is given.
fn session_or_none(options: &ArgMatches<'_>) -> Result<Option<[u8; 10]>, NoOrder>
    ensures value { MatchResult result
        (λ session. session_or_none (first_of (codes "session") (rows_of (found_of options.now))) ≡ Some session)
        (LacksValue (session_or_none (first_of (codes "session") (rows_of (found_of options.now))))) }
    ensures named { IfOk result (λ session. IfSome session (λ name. list_all is_character name ≡ true)) }
{
    match text_in(options, "session") {
        Some(_) => Ok(Some(session_in(options)?)),
        None => Ok(None),
    }
}

fn is_input(name: &str) -> bool
    ensures { result ≡ is_input name.now }
{
    name == INPUT
}

// Returns how many of the names are standard input.
fn count_inputs(names: &[&str]) -> usize
    ensures { result ≡ count_by is_input (map (λ name. name.now) names.now) }
{
    names.iter().filter(|name| is_input(name)).count()
}

// Returns the names as strings that an order keeps.
fn copied(alloc: Global, names: &[&str]) -> Result<Vec<String>, AllocError>
    ensures { IfOk result (λ copies. map string_bytes copies.items ≡ map (λ name. name.now) names.now) }
{
    let mut copies = Vec::new(alloc);
    for name in names {
        let copy = String::from_str(alloc, name)?;
        copies.push(copy)?;
    }
    Ok(copies)
}

// Returns the names, if they are names of captures.
#[tactic(auto, unfolding(crate::specs::CaptureOptions::captures_of))]
fn captures_of(alloc: Global, names: &[&str]) -> Result<Vec<String>, NoOrder>
    ensures value { MatchResult result
        (λ captures. captures_of (map (λ name. name.now) names.now) ≡ Some (map string_bytes captures.items))
        (LacksOrder (captures_of (map (λ name. name.now) names.now))) }
    ensures some { IfOk result (λ captures. 0 < length captures.items) }
{
    if names.is_empty() {
        return Err(NoOrder::Missing { name: "capture" });
    }
    if count_inputs(names) > 1 {
        return Err(NoOrder::InputTwice);
    }
    Ok(copied(alloc, names)?)
}

// Returns the names of the captures.
fn names_in(alloc: Global, options: &ArgMatches<'_>) -> Result<Vec<String>, NoOrder>
    ensures value { MatchResult result
        (λ captures. captures_of (texts_in (codes "capture") (rows_of (found_of options.now)))
        ≡ Some (map string_bytes captures.items))
        (LacksOrder (captures_of (texts_in (codes "capture") (rows_of (found_of options.now))))) }
    ensures some { IfOk result (λ captures. 0 < length captures.items) }
{
    match texts_in(options, "capture") {
        None => Err(NoOrder::Missing { name: "capture" }),
        Some(names) => captures_of(alloc, names),
    }
}

/// Returns the captures of the options and which of their datagrams pass.
#[tactic(auto, unfolding(crate::specs::Orders::captures_in))]
pub(crate) fn captures_in(alloc: Global, options: &ArgMatches<'_>) -> Result<CaptureOrder, NoOrder>
    ensures { MatchResult result
        (λ order. captures_in (rows_of (found_of options.now)) ≡ Some (capture_view order))
        (LacksOrder (captures_in (rows_of (found_of options.now)))) }
{
    let ports = ports_in(alloc, options)?;
    let groups = groups_in(alloc, options)?;
    let session = session_or_none(options)?;
    let captures = names_in(alloc, options)?;
    Ok(CaptureOrder {
        captures,
        ports,
        groups,
        session,
    })
}
