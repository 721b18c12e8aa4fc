//! Addresses as text.

ghost use Rattle.std.specs.Prelude.{◌≡◌, ◌++◌, codes, decimal, drop, length, take, OnErr, OnOk};
ghost use Rattle.std.specs.List.{flat_map};
ghost use Rattle.hex.specs.Hex.{encode_lower};
ghost use Rattle.mold_capture_commands.specs.Address.{address_text, after_colon, after_point, endpoint_text, groups};
ghost use Rattle.mold_capture_commands.specs.Address.{groups_text, joined_groups, points_text, port_text};

use mold_digits::{MAX_DIGITS, write_bytes, write_number};
use std::alloc::AllocError;

// The length of an address of IPv4 in bytes.
const IPV4_BYTES: usize = 4;

// The length of a group of an address of IPv6 in bytes.
const GROUP_BYTES: usize = 2;

// Splits off the first group: two bytes, or one if there are no more.
fn split_group(bytes: &[u8]) -> (&[u8], &[u8])
    ensures first { result.0.now ≡ take 2 bytes.now }
    ensures others { result.1.now ≡ drop 2 bytes.now }
{
    bytes.split_at(bytes.len().min(GROUP_BYTES))
}

/// Appends the number in decimal. If an allocation fails, other bytes may follow the earlier text.
pub(crate) fn push_number(text: &mut Vec<u8>, number: u64) -> Result<(), AllocError>
    ensures text { OnOk result (text.new.items ≡ text.old.items ++ decimal number) }
    ensures kept { OnErr result (take (length text.old.items) text.new.items ≡ text.old.items) }
{
    let at = text.len();
    text.resize(at.saturating_add(MAX_DIGITS), 0)?;
    let end = write_number(text.as_mut_slice(), at, number);
    text.truncate(end);
    Ok(())
}

// Appends two hexadecimal digits for each byte.
fn push_digits(text: &mut Vec<u8>, bytes: &[u8]) -> Result<(), AllocError>
    ensures text { OnOk result (text.new.items ≡ text.old.items ++ encode_lower bytes.now) }
    ensures kept { OnErr result (take (length text.old.items) text.new.items ≡ text.old.items) }
{
    let at = text.len();
    text.resize(at.saturating_add(bytes.len().saturating_mul(2)), 0)?;
    let end = write_bytes(text.as_mut_slice(), at, bytes);
    text.truncate(end);
    Ok(())
}

// Appends a point and the number.
fn push_point(text: &mut Vec<u8>, byte: u8) -> Result<(), AllocError>
    ensures text { OnOk result (text.new.items ≡ text.old.items ++ after_point byte) }
    ensures kept { OnErr result (take (length text.old.items) text.new.items ≡ text.old.items) }
{
    text.push(b'.')?;
    push_number(text, u64::from(byte))
}

// Appends each byte after a point.
fn push_points(text: &mut Vec<u8>, bytes: &[u8]) -> Result<(), AllocError>
    ensures text { OnOk result (text.new.items ≡ text.old.items ++ flat_map after_point bytes.now) }
    ensures kept { OnErr result (take (length text.old.items) text.new.items ≡ text.old.items) }
{
    for byte in bytes {
        push_point(text, *byte)?;
    }
    Ok(())
}

// Appends an address of IPv4.
fn push_ipv4(text: &mut Vec<u8>, address: &[u8]) -> Result<(), AllocError>
    ensures text { OnOk result (text.new.items ≡ text.old.items ++ points_text address.now) }
    ensures kept { OnErr result (take (length text.old.items) text.new.items ≡ text.old.items) }
{
    match address.split_first() {
        Some((first, others)) => {
            push_number(text, u64::from(*first))?;
            push_points(text, others)
        }
        None => Ok(()),
    }
}

// Appends a colon and the digits of the group.
fn push_colon(text: &mut Vec<u8>, group: &[u8]) -> Result<(), AllocError>
    ensures text { OnOk result (text.new.items ≡ text.old.items ++ after_colon group.now) }
    ensures kept { OnErr result (take (length text.old.items) text.new.items ≡ text.old.items) }
{
    text.push(b':')?;
    push_digits(text, group)
}

// Appends each group after a colon.
fn push_colons(text: &mut Vec<u8>, bytes: &[u8]) -> Result<(), AllocError>
    ensures text { OnOk result (text.new.items ≡ text.old.items ++ flat_map after_colon (groups bytes.now)) }
    ensures kept { OnErr result (take (length text.old.items) text.new.items ≡ text.old.items) }
{
    let mut rest = bytes;
    'groups: while !rest.is_empty() {
        let (group, others) = split_group(rest);
        push_colon(text, group)?;
        rest = others;
    }
    Ok(())
}

// Appends the groups with colons between them.
fn push_groups(text: &mut Vec<u8>, address: &[u8]) -> Result<(), AllocError>
    ensures text { OnOk result (text.new.items ≡ text.old.items ++ joined_groups address.now) }
    ensures kept { OnErr result (take (length text.old.items) text.new.items ≡ text.old.items) }
{
    let (first, others) = split_group(address);
    push_digits(text, first)?;
    push_colons(text, others)
}

// Appends an address of IPv6 in brackets.
fn push_ipv6(text: &mut Vec<u8>, address: &[u8]) -> Result<(), AllocError>
    ensures text { OnOk result (text.new.items ≡ text.old.items ++ groups_text address.now) }
    ensures kept { OnErr result (take (length text.old.items) text.new.items ≡ text.old.items) }
{
    text.push(b'[')?;
    push_groups(text, address)?;
    text.push(b']')?;
    Ok(())
}

// Appends a colon and the port.
fn push_port(text: &mut Vec<u8>, port: u16) -> Result<(), AllocError>
    ensures text { OnOk result (text.new.items ≡ text.old.items ++ port_text port) }
    ensures kept { OnErr result (take (length text.old.items) text.new.items ≡ text.old.items) }
{
    text.push(b':')?;
    push_number(text, u64::from(port))
}

#[tactic(auto, unfolding(crate::specs::Address::address_text))]
fn push_address(text: &mut Vec<u8>, address: &[u8]) -> Result<(), AllocError>
    ensures text { OnOk result (text.new.items ≡ text.old.items ++ address_text address.now) }
    ensures kept { OnErr result (take (length text.old.items) text.new.items ≡ text.old.items) }
{
    if address.len() == IPV4_BYTES {
        push_ipv4(text, address)
    } else {
        push_ipv6(text, address)
    }
}

/// Appends the address and the port: `192.168.1.7:26477`, or `[fe80:0000:0000:0000:0000:0000:0000:0001]:26477`. An
/// address of 4 bytes is one of IPv4, any other one of IPv6. If an allocation fails, a part of this may follow the
/// earlier text.
#[tactic(auto, unfolding(crate::specs::Address::endpoint_text))]
pub(crate) fn push_endpoint(text: &mut Vec<u8>, address: &[u8], port: u16) -> Result<(), AllocError>
    ensures text { OnOk result (text.new.items ≡ text.old.items ++ endpoint_text address.now port) }
    ensures kept { OnErr result (take (length text.old.items) text.new.items ≡ text.old.items) }
{
    push_address(text, address)?;
    push_port(text, port)
}
