//! Refuses invalid addresses before any other invalid value.

ghost use Rattle.std.specs.Prelude.{◌≡◌, MatchResult, false, is_some, not, true};
ghost use Rattle.std.specs.List.{list_any};
ghost use Rattle.clap.specs.Words.{found_of, rows_of};
ghost use Rattle.mold_words.specs.Addresses.{address_of};
ghost use Rattle.mold_words.specs.IpAddresses.{ip_of};
ghost use Rattle.mold_words.specs.NoOrders.{is_address};
ghost use Rattle.mold_words.specs.Orders.{has_invalid_address, has_invalid_group, has_invalid_interface};
ghost use Rattle.mold_words.specs.Orders.{has_invalid_server, has_no_address, is_no_address, is_no_host, is_no_port};
ghost use Rattle.mold_words.specs.Orders.{receives_no_address};

use crate::addresses::{address_of, host_of};
use crate::ip_addresses::ip_of;
use crate::line_ports::line_port_of;
use crate::no_order::NoOrder;
use crate::options::{text_in, texts_in};
use clap::ArgMatches;

// Refuses a value of the option that is not an address.
fn check_address(options: &ArgMatches<'_>, name: &'static str) -> Result<(), NoOrder>
    ensures { MatchResult result
        (λ _. is_no_address (rows_of (found_of options.now)) name.now ≡ false)
        (λ none. (is_no_address (rows_of (found_of options.now)) name.now ≡ true) × (is_address none ≡ true)) }
{
    match text_in(options, name) {
        Some(text) if address_of(text).is_none() => Err(NoOrder::Address { name }),
        _ => Ok(()),
    }
}

// Returns the reason for a value that is not a port of a line. Only an address can be a multicast group.
fn no_port(name: &'static str, text: &str) -> NoOrder
    ensures { is_address result ≡ true }
{
    if address_of(text).is_some() {
        NoOrder::Group { name }
    } else {
        NoOrder::LinePort { name }
    }
}

// Refuses a value of the option that is not a port of a line.
fn check_port(options: &ArgMatches<'_>, name: &'static str) -> Result<(), NoOrder>
    ensures { MatchResult result
        (λ _. is_no_port (rows_of (found_of options.now)) name.now ≡ false)
        (λ none. (is_no_port (rows_of (found_of options.now)) name.now ≡ true) × (is_address none ≡ true)) }
{
    match text_in(options, name) {
        Some(text) if line_port_of(text).is_none() => Err(no_port(name, text)),
        _ => Ok(()),
    }
}

// Refuses a value of the option that is not an IPv4 address.
fn check_host(options: &ArgMatches<'_>, name: &'static str) -> Result<(), NoOrder>
    ensures { MatchResult result
        (λ _. is_no_host (rows_of (found_of options.now)) name.now ≡ false)
        (λ none. (is_no_host (rows_of (found_of options.now)) name.now ≡ true) × (is_address none ≡ true)) }
{
    match text_in(options, name) {
        Some(text) if host_of(text).is_none() => Err(NoOrder::Host { name }),
        _ => Ok(()),
    }
}

fn is_invalid(text: &str) -> bool
    ensures { result ≡ not (is_some (address_of text.now)) }
{
    address_of(text).is_none()
}

// Whether any of the texts is not an address.
fn have_no_address(texts: &[&str]) -> bool
    ensures { result ≡ list_any (λ text. not (is_some (address_of text.now))) texts.now }
{
    texts.iter().any(|text| is_invalid(text))
}

// Refuses servers that are not addresses.
fn check_servers(options: &ArgMatches<'_>) -> Result<(), NoOrder>
    ensures { MatchResult result
        (λ _. has_invalid_server (rows_of (found_of options.now)) ≡ false)
        (λ none. (has_invalid_server (rows_of (found_of options.now)) ≡ true) × (is_address none ≡ true)) }
{
    let Some(texts) = texts_in(options, "server") else {
        return Ok(());
    };
    if have_no_address(texts) {
        return Err(NoOrder::Address { name: "server" });
    }
    Ok(())
}

fn is_no_ip(text: &str) -> bool
    ensures { result ≡ not (is_some (ip_of text.now)) }
{
    ip_of(text).is_none()
}

// Whether any of the texts is not an address of IPv4 or IPv6.
fn have_no_ip(texts: &[&str]) -> bool
    ensures { result ≡ list_any (λ text. not (is_some (ip_of text.now))) texts.now }
{
    texts.iter().any(|text| is_no_ip(text))
}

// Refuses groups that are not addresses of IPv4 or IPv6.
fn check_groups(options: &ArgMatches<'_>) -> Result<(), NoOrder>
    ensures { MatchResult result
        (λ _. has_invalid_group (rows_of (found_of options.now)) ≡ false)
        (λ none. (has_invalid_group (rows_of (found_of options.now)) ≡ true) × (is_address none ≡ true)) }
{
    let Some(texts) = texts_in(options, "group") else {
        return Ok(());
    };
    if have_no_ip(texts) {
        return Err(NoOrder::Ip { name: "group" });
    }
    Ok(())
}

// Refuses the values of `receive` that are not ports, IPv4 addresses or addresses.
#[tactic(auto, unfolding(crate::specs::Orders::receives_no_address))]
fn check_received(options: &ArgMatches<'_>) -> Result<(), NoOrder>
    ensures { MatchResult result
        (λ _. receives_no_address (rows_of (found_of options.now)) ≡ false)
        (λ none. (receives_no_address (rows_of (found_of options.now)) ≡ true) × (is_address none ≡ true)) }
{
    check_port(options, "a")?;
    check_port(options, "b")?;
    check_host(options, "source-a")?;
    check_host(options, "source-b")?;
    check_servers(options)
}

// Refuses the values of options that are not addresses.
fn check_each_address(options: &ArgMatches<'_>) -> Result<(), NoOrder>
    ensures { MatchResult result
        (λ _. has_invalid_address (rows_of (found_of options.now)) ≡ false)
        (λ none. (has_invalid_address (rows_of (found_of options.now)) ≡ true) × (is_address none ≡ true)) }
{
    check_address(options, "a")?;
    check_address(options, "b")?;
    check_address(options, "server")?;
    check_address(options, "bind")
}

// Refuses interfaces that are not IPv4 addresses.
fn check_interfaces(options: &ArgMatches<'_>) -> Result<(), NoOrder>
    ensures { MatchResult result
        (λ _. has_invalid_interface (rows_of (found_of options.now)) ≡ false)
        (λ none. (has_invalid_interface (rows_of (found_of options.now)) ≡ true) × (is_address none ≡ true)) }
{
    check_host(options, "interface-a")?;
    check_host(options, "interface-b")
}

/// Refuses values that are not addresses. The options that take addresses are known by their names.
#[tactic(auto, unfolding(crate::specs::Orders::has_no_address))]
pub(crate) fn check_addresses(name: &str, options: &ArgMatches<'_>) -> Result<(), NoOrder>
    ensures { MatchResult result
        (λ _. has_no_address name.now (rows_of (found_of options.now)) ≡ false)
        (λ none. (has_no_address name.now (rows_of (found_of options.now)) ≡ true) × (is_address none ≡ true)) }
{
    if name == "receive" {
        return check_received(options);
    }
    check_each_address(options)?;
    check_interfaces(options)?;
    check_groups(options)
}
