//! Parses the texts of options that are ports of lines.

ghost use Rattle.std.specs.Prelude.{◌≡◌, ◌≤◌, IfSome, false, option_map, true};
ghost use Rattle.mold_words.specs.Addresses.{address_view};
ghost use Rattle.mold_words.specs.LinePorts.{descriptor_of, is_group, is_line_port, line_address_of, line_port_of};
ghost use Rattle.mold_words.specs.LinePorts.{line_port_view};
ghost use Rattle.mold_words.specs.declared.line_ports.TheConstants.{MAX_DESCRIPTOR, MIN_DESCRIPTOR};

use crate::address::Address;
use crate::addresses::{address_of, cut_at_colon, is_plain};
use crate::line_port::LinePort;
use crate::values::number_of;

/// The least descriptor of a socket that the process was started with. 0 to 2 are the standard streams.
pub(crate) const MIN_DESCRIPTOR: u64 = 3;

/// The greatest descriptor of a socket that the process was started with.
pub(crate) const MAX_DESCRIPTOR: u64 = 1023;

// Whether the address is a multicast group.
fn is_group(host: [u8; 4]) -> bool
    ensures { result ≡ is_group host }
{
    224 <= host[0] && host[0] <= 239
}

// Parses a descriptor such as fd:3. The number has no leading zeros.
#[tactic(auto, unfolding(crate::specs::LinePorts::descriptor_of))]
fn descriptor_of(text: &str) -> Option<u16>
    ensures value { result ≡ descriptor_of text.now }
    ensures within { IfSome result (λ number. (3 ≤ number) × (number ≤ 1023)) }
{
    let (kind, number) = cut_at_colon(text)?;
    if kind == "fd" && is_plain(number) {
        Some(number_of(number, MIN_DESCRIPTOR, MAX_DESCRIPTOR)? as u16)
    } else {
        None
    }
}

// Parses an address that is not a multicast group.
#[tactic(auto, unfolding(crate::specs::LinePorts::line_address_of))]
fn line_address_of(text: &str) -> Option<Address>
    ensures value { option_map address_view result ≡ line_address_of text.now }
    ensures single { IfSome result (λ address. is_group address.host ≡ false) }
{
    let address = address_of(text)?;
    if is_group(address.host) {
        None
    } else {
        Some(address)
    }
}

/// Parses the port of a line: a descriptor from fd:3 to fd:1023, or an address that is not a multicast group.
#[tactic(auto, unfolding(crate::specs::LinePorts::line_port_of))]
pub(crate) fn line_port_of(text: &str) -> Option<LinePort>
    ensures value { option_map line_port_view result ≡ line_port_of text.now }
    ensures valid { IfSome result (λ port. is_line_port port ≡ true) }
{
    match descriptor_of(text) {
        Some(number) => Some(LinePort::Descriptor(number)),
        None => Some(LinePort::Address(line_address_of(text)?)),
    }
}
