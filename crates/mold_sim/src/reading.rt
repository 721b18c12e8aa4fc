//! Reads the event of a line.

ghost use Rattle.std.specs.Prelude.{◌≡◌, IfOk};
ghost use Rattle.std.specs.Option.{option_copied, option_map};
ghost use Rattle.mold_digits.specs.Numbers.{decimal_of};
ghost use Rattle.mold_sim.specs.Script.{bytes_in, delivery, happening_of, noise, plain, way_in};
ghost use Rattle.mold_sim.specs.Script.{with_one, with_three, with_two};
ghost use Rattle.mold_world.specs.Event.{seen};
ghost use Rattle.mold_world.specs.declared.event.EventOf.TheVariants.{Ask};

use crate::event_words::{EventWords, cut};
use mold_digits::read_number;
use mold_receiver::Line;
use mold_world::{Event, Way};
use std::alloc::AllocError;

// Returns the bytes that the word encodes, or `None` if it encodes none. They replace the contents of `bytes`.
#[tactic(auto, unfolding(crate::specs::Script::bytes_in))]
fn read_bytes<'a>(word: &[u8], bytes: &'a mut Vec<u8>) -> Result<Option<&'a [u8]>, AllocError>
    ensures { IfOk result (λ found. option_copied found ≡ bytes_in word.now) }
{
    if word.is_empty() {
        return Ok(None);
    }
    if word == b"-".as_slice() {
        bytes.clear();
        return Ok(Some(bytes.as_slice()));
    }
    let spelled = mold_digits::decode(word, bytes)?;
    Ok(if spelled {
        Some(bytes.as_slice())
    } else {
        None
    })
}

fn read_way(word: &[u8]) -> Option<Way>
    ensures { result ≡ way_in word.now }
{
    if word == b"a".as_slice() {
        return Some(Way::Line(Line::A));
    }
    if word == b"b".as_slice() {
        return Some(Way::Line(Line::B));
    }
    if word == b"answer".as_slice() {
        return Some(Way::Answer);
    }
    None
}

// Reads a receiver's number or a datagram's index.
fn read_index(word: &[u8]) -> Option<usize>
    ensures { result ≡ decimal_of word.now }
{
    let number = read_number(word)?;
    Some(number as usize)
}

fn read_plain<'a>(name: &[u8]) -> Option<Event<'a>>
    ensures { option_map seen result ≡ plain name.now }
{
    if name == b"datagram".as_slice() {
        return Some(Event::Datagram);
    }
    if name == b"heartbeat".as_slice() {
        return Some(Event::Heartbeat);
    }
    if name == b"end".as_slice() {
        return Some(Event::End);
    }
    if name == b"close".as_slice() {
        return Some(Event::Close);
    }
    None
}

fn read_with_one<'a>(
    name: &[u8],
    value: &[u8],
    bytes: &'a mut Vec<u8>,
) -> Result<Option<Event<'a>>, AllocError>
    ensures { IfOk result (λ event. option_map seen event ≡ with_one name.now value.now) }
{
    if name == b"publish".as_slice() {
        let Some(message) = read_bytes(value, bytes)? else {
            return Ok(None);
        };
        return Ok(Some(Event::Publish(message)));
    }
    if name == b"request".as_slice() {
        let Some(request) = read_bytes(value, bytes)? else {
            return Ok(None);
        };
        return Ok(Some(Event::Request(request)));
    }
    if name == b"ask".as_slice() {
        return Ok(read_ask(value));
    }
    Ok(None)
}

fn read_ask<'a>(receiver: &[u8]) -> Option<Event<'a>>
    ensures { option_map seen result ≡ option_map (λ r. Ask r) (decimal_of receiver.now) }
{
    let receiver = read_index(receiver)?;
    Some(Event::Ask(receiver))
}

fn read_with_two<'a>(name: &[u8], receiver: &[u8], next: &[u8]) -> Option<Event<'a>>
    ensures { option_map seen result ≡ with_two name.now receiver.now next.now }
{
    if name != b"restart".as_slice() {
        return None;
    }
    let r = read_index(receiver)?;
    let next = read_number(next)?;
    Some(Event::Restart { r, next })
}

fn read_delivery<'a>(receiver: &[u8], way: &[u8], sent: &[u8]) -> Option<Event<'a>>
    ensures { option_map seen result ≡ delivery (decimal_of receiver.now) (way_in way.now) (decimal_of sent.now) }
{
    let r = read_index(receiver)?;
    let way = read_way(way)?;
    let sent = read_index(sent)?;
    Some(Event::Deliver { r, way, sent })
}

fn read_noise<'a>(
    receiver: &[u8],
    way: &[u8],
    digits: &[u8],
    bytes: &'a mut Vec<u8>,
) -> Result<Option<Event<'a>>, AllocError>
    ensures { IfOk result (λ event. option_map seen event ≡
        noise (decimal_of receiver.now) (way_in way.now) (bytes_in digits.now)) }
{
    let Some(r) = read_index(receiver) else {
        return Ok(None);
    };
    let Some(way) = read_way(way) else {
        return Ok(None);
    };
    let Some(bytes) = read_bytes(digits, bytes)? else {
        return Ok(None);
    };
    Ok(Some(Event::Noise { r, way, bytes }))
}

fn read_with_three<'a>(
    name: &[u8],
    receiver: &[u8],
    way: &[u8],
    value: &[u8],
    bytes: &'a mut Vec<u8>,
) -> Result<Option<Event<'a>>, AllocError>
    ensures { IfOk result (λ event. option_map seen event ≡
        with_three name.now receiver.now way.now value.now) }
{
    if name == b"deliver".as_slice() {
        return Ok(read_delivery(receiver, way, value));
    }
    if name == b"noise".as_slice() {
        return read_noise(receiver, way, value, bytes);
    }
    Ok(None)
}

/// Returns the event of the line, or `None` if the line has no valid event. The event borrows its bytes from `bytes`,
/// whose contents they replace. It allocates only if they don't fit there.
#[tactic(auto, unfolding(crate::specs::Script::happening_of))]
pub fn read_line<'a>(line: &[u8], bytes: &'a mut Vec<u8>) -> Result<Option<Event<'a>>, AllocError>
    ensures { IfOk result (λ event. option_map seen event ≡ happening_of line.now) }
{
    match cut(line) {
        Some(EventWords::One(name)) => Ok(read_plain(name)),
        Some(EventWords::Two(name, value)) => read_with_one(name, value, bytes),
        Some(EventWords::Three(name, receiver, next)) => Ok(read_with_two(name, receiver, next)),
        Some(EventWords::Four(name, receiver, way, value)) => {
            read_with_three(name, receiver, way, value, bytes)
        }
        None => Ok(None),
    }
}
