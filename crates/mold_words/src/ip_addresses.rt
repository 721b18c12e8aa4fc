//! Parses the texts of options that are addresses of IPv4 or IPv6.

ghost use Rattle.std.specs.Prelude.{◌≡◌};
ghost use Rattle.mold_words.specs.IpAddresses.{ip_of, ipv6_of};

use crate::addresses::host_of;
use mold_frame::IpAddress;
use std::net::Ipv6Addr;

// Parses an IPv6 address.
fn ipv6_of(text: &str) -> Option<[u8; 16]>
    ensures { result ≡ ipv6_of text.now }
{
    match Ipv6Addr::parse_ascii(text.as_bytes()) {
        Ok(address) => Some(address.octets()),
        Err(_) => None,
    }
}

/// Parses an IPv4 address, as `host_of` does, or an IPv6 address: eight groups of one to four hexadecimal digits of either
/// case, with colons between them. `::` replaces one or more groups that are 0, and an IPv4 address may replace the last
/// two groups.
#[tactic(auto, unfolding(crate::specs::IpAddresses::ip_of))]
pub(crate) fn ip_of(text: &str) -> Option<IpAddress>
    ensures { result ≡ ip_of text.now }
{
    match host_of(text) {
        Some(bytes) => Some(IpAddress::V4(bytes)),
        None => Some(IpAddress::V6(ipv6_of(text)?)),
    }
}
