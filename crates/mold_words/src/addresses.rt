//! Parses the texts of options that are addresses.

ghost use Rattle.std.specs.Prelude.{◌≡◌, option_map};
ghost use Rattle.mold_words.specs.Addresses.{address_of, address_view, cut_at, host_of, is_plain, plain_number};
ghost use Rattle.mold_words.specs.declared.addresses.TheConstants.{MAX_PORT};

use crate::address::Address;
use crate::values::number_of;

/// The greatest port number.
pub(crate) const MAX_PORT: u64 = 65535;

// Returns the text before the first period and the text after it.
fn cut_at_point(text: &str) -> Option<(&str, &str)>
    ensures { option_map (λ parts. (parts.0.now, parts.1.now)) result ≡ cut_at 46 text.now }
{
    text.split_once('.')
}

/// Returns the text before the first colon and the text after it.
pub(crate) fn cut_at_colon(text: &str) -> Option<(&str, &str)>
    ensures { option_map (λ parts. (parts.0.now, parts.1.now)) result ≡ cut_at 58 text.now }
{
    text.split_once(':')
}

/// Whether the text has at most one character, or its first character is not 0.
pub(crate) fn is_plain(text: &str) -> bool
    ensures { result ≡ is_plain text.now }
{
    text.len() <= 1 || text.as_bytes()[0] != b'0'
}

#[tactic(auto, unfolding(crate::specs::Addresses::plain_number))]
fn byte_of(text: &str) -> Option<u8>
    ensures { result ≡ plain_number 255 text.now }
{
    if is_plain(text) {
        Some(number_of(text, 0, 255)? as u8)
    } else {
        None
    }
}

#[tactic(auto, unfolding(crate::specs::Addresses::plain_number))]
fn port_of(text: &str) -> Option<u16>
    ensures { result ≡ plain_number MAX_PORT text.now }
{
    if is_plain(text) {
        Some(number_of(text, 0, MAX_PORT)? as u16)
    } else {
        None
    }
}

/// Parses an IPv4 address such as 127.0.0.1: four numbers from 0 to 255 separated by periods. The numbers are decimal,
/// without leading zeros.
#[tactic(auto, unfolding(crate::specs::Addresses::host_of))]
pub(crate) fn host_of(text: &str) -> Option<[u8; 4]>
    ensures { result ≡ host_of text.now }
{
    let (first, rest) = cut_at_point(text)?;
    let (second, rest) = cut_at_point(rest)?;
    let (third, fourth) = cut_at_point(rest)?;
    let first = byte_of(first)?;
    let second = byte_of(second)?;
    let third = byte_of(third)?;
    let fourth = byte_of(fourth)?;
    Some([first, second, third, fourth])
}

/// Parses an address such as 127.0.0.1:9000: four numbers from 0 to 255 separated by periods, a colon, and a port
/// number from 0 to 65535. The numbers are decimal, without leading zeros.
#[tactic(auto, unfolding(crate::specs::Addresses::address_of))]
pub(crate) fn address_of(text: &str) -> Option<Address>
    ensures { option_map address_view result ≡ address_of text.now }
{
    let (host, port) = cut_at_colon(text)?;
    let host = host_of(host)?;
    let port = port_of(port)?;
    Some(Address { host, port })
}
