//! The text of a captured datagram.

ghost use Rattle.std.specs.Prelude.{◌≡◌, ◌++◌, ◌+◌, ◌<◌, length, take, IfOk, OnErr, OnOk};
ghost use Rattle.mold_capture_commands.specs.Address.{endpoint_text};
ghost use Rattle.mold_capture_commands.specs.Shown.{datagram_text, fraction_text, nine_digits, origin_line};
ghost use Rattle.mold_capture_commands.specs.Shown.{payload_refused, payload_text, time_text};
ghost use Rattle.mold_frame.specs.Lent.{lent_datagram};
ghost use Rattle.mold_wire.specs.Reading.{reading};

use crate::address::{push_endpoint, push_number};
use mold_frame::Datagram;
use mold_pcap::FrameTime;
use mold_text::{packet_fault_words, push_packet, push_refused};
use std::alloc::AllocError;

fn digit(value: u32) -> u8
    requires { value < 10 }
    ensures { result ≡ 48 + value }
{
    b'0' + value as u8
}

// Returns the number in nine decimal digits, with leading zeros.
fn nine_digits(number: u32) -> [u8; 9]
    ensures { result ≡ nine_digits number }
{
    [
        digit(number / 100_000_000 % 10),
        digit(number / 10_000_000 % 10),
        digit(number / 1_000_000 % 10),
        digit(number / 100_000 % 10),
        digit(number / 10_000 % 10),
        digit(number / 1000 % 10),
        digit(number / 100 % 10),
        digit(number / 10 % 10),
        digit(number % 10),
    ]
}

// Appends a point and the nanoseconds.
fn push_fraction(text: &mut Vec<u8>, nanoseconds: u32) -> Result<(), AllocError>
    ensures text { OnOk result (text.new.items ≡ text.old.items ++ fraction_text nanoseconds) }
    ensures kept { OnErr result (take (length text.old.items) text.new.items ≡ text.old.items) }
{
    text.push(b'.')?;
    text.extend_from_slice(&nine_digits(nanoseconds))?;
    Ok(())
}

/// Appends the time of a frame.
pub(crate) fn push_time(text: &mut Vec<u8>, time: Option<FrameTime>) -> Result<(), AllocError>
    ensures text { OnOk result (text.new.items ≡ text.old.items ++ time_text time) }
    ensures kept { OnErr result (take (length text.old.items) text.new.items ≡ text.old.items) }
{
    match time {
        Some(time) => {
            push_number(text, time.seconds)?;
            push_fraction(text, time.nanoseconds)
        }
        None => {
            text.extend_from_slice(b"none")?;
            Ok(())
        }
    }
}

/// Appends the word and the address with its port.
pub(crate) fn push_side(
    text: &mut Vec<u8>,
    word: &[u8],
    address: &[u8],
    port: u16,
) -> Result<(), AllocError>
    ensures text { OnOk result (text.new.items ≡ text.old.items ++ (word.now ++ endpoint_text address.now port)) }
    ensures kept { OnErr result (take (length text.old.items) text.new.items ≡ text.old.items) }
{
    text.extend_from_slice(word)?;
    push_endpoint(text, address, port)
}

// Appends the line before a datagram.
fn push_origin(
    text: &mut Vec<u8>,
    time: Option<FrameTime>,
    datagram: &Datagram<'_>,
) -> Result<(), AllocError>
    ensures text { OnOk result (text.new.items ≡
        text.old.items ++ origin_line time (lent_datagram datagram.now)) }
    ensures kept { OnErr result (take (length text.old.items) text.new.items ≡ text.old.items) }
{
    text.extend_from_slice(b"at ")?;
    push_time(text, time)?;
    push_side(text, b" from ", datagram.source, datagram.source_port)?;
    push_side(text, b" to ", datagram.target, datagram.target_port)?;
    text.push(b'\n')?;
    Ok(())
}

// Appends the text of the packet that the payload encodes, or why it does not encode one. Returns whether it is
// refused.
fn push_payload(text: &mut Vec<u8>, payload: &[u8]) -> Result<bool, AllocError>
    ensures text { IfOk result (λ _. text.new.items ≡ text.old.items ++ payload_text (reading payload.now)) }
    ensures refused { IfOk result (λ refused. refused ≡ payload_refused (reading payload.now)) }
    ensures kept { OnErr result (take (length text.old.items) text.new.items ≡ text.old.items) }
{
    match mold_wire::decode(payload) {
        Ok(packet) => {
            push_packet(text, &packet)?;
            Ok(false)
        }
        Err(fault) => {
            push_refused(text, &packet_fault_words(fault))?;
            Ok(true)
        }
    }
}

/// Appends the lines of a datagram that was captured at this time: the line before it, and its packet or why its
/// payload does not encode one. Returns whether the payload is refused. If an allocation fails, a part of the lines may
/// follow the earlier text.
pub(crate) fn push_datagram(
    text: &mut Vec<u8>,
    time: Option<FrameTime>,
    datagram: &Datagram<'_>,
) -> Result<bool, AllocError>
    ensures text { IfOk result (λ _. text.new.items ≡
        text.old.items ++ datagram_text time (lent_datagram datagram.now)) }
    ensures refused { IfOk result (λ refused. refused ≡ payload_refused (reading datagram.now.payload.now)) }
    ensures kept { OnErr result (take (length text.old.items) text.new.items ≡ text.old.items) }
{
    push_origin(text, time, datagram)?;
    push_payload(text, datagram.payload)
}
