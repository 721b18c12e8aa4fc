//! The lines of the pairs.

ghost use Rattle.std.specs.Prelude.{◌≡◌, ◌++◌, ◌∷◌, None, OnOk, codes};
ghost use Rattle.hex.specs.Hex.{encode_lower};
ghost use Rattle.mold_capture_commands.specs.Sessions.{number_or_none, pair_text, session_words, tally_words};
ghost use Rattle.mold_devices.specs.Devices.{AppendsPrefix};
ghost use Rattle.mold_devices.specs.Faults.{CountsSink};
ghost use Rattle.mold_devices.specs.Writing.{Moves};
ghost use Rattle.mold_text.specs.Line.{line_of, word_text};

use crate::address::push_endpoint;
use crate::pair::Pair;
use crate::pair_tally::PairTally;
use mold_devices::{CommandFault, Sink, send_large};
use mold_text::{Word, push_line};
use mold_wire::Session;
use std::alloc::AllocError;

fn number_word(number: Option<u64>) -> Word<'static>
    ensures { word_text result ≡ number_or_none number }
{
    match number {
        Some(number) => Word::Number(number),
        None => Word::Text(b"none"),
    }
}

fn long_number_word(number: Option<u128>) -> Word<'static>
    ensures { word_text result ≡ number_or_none number }
{
    match number {
        Some(number) => Word::LongNumber(number),
        None => Word::Text(b"none"),
    }
}

// Appends the words of a session's tally, and the end of the line.
fn push_tally(text: &mut Vec<u8>, session: &Session, tally: &PairTally) -> Result<(), AllocError>
    ensures { OnOk result (text.new.items ≡
        text.old.items ++ line_of (codes "session" ∷ encode_lower session.now.0 ∷ tally_words tally.now)) }
{
    push_line(
        text,
        &[
            Word::Text(b"session"),
            Word::Digits(&session.0),
            Word::Text(b"datagrams"),
            Word::Number(tally.datagrams),
            Word::Text(b"messages"),
            number_word(tally.first),
            long_number_word(tally.last),
            Word::Text(b"heartbeats"),
            Word::Number(tally.heartbeats),
            Word::Text(b"end"),
            number_word(tally.end),
        ],
    )
}

// Appends the words of the datagrams that do not encode a packet, and the end of the line.
fn push_refused(text: &mut Vec<u8>, tally: &PairTally) -> Result<(), AllocError>
    ensures { OnOk result (text.new.items ≡
        text.old.items ++ line_of (codes "session" ∷ session_words None tally.now)) }
{
    push_line(
        text,
        &[
            Word::Text(b"session"),
            Word::Text(b"none"),
            Word::Text(b"refused"),
            Word::Number(tally.datagrams),
        ],
    )
}

// Appends the line of a pair after its destination.
fn push_session(
    text: &mut Vec<u8>,
    session: &Option<Session>,
    tally: &PairTally,
) -> Result<(), AllocError>
    ensures { OnOk result (text.new.items ≡
        text.old.items ++ line_of (codes "session" ∷ session_words session.now tally.now)) }
{
    match session {
        Some(session) => push_tally(text, session, tally),
        None => push_refused(text, tally),
    }
}

// Appends the line of a pair.
fn push_pair(text: &mut Vec<u8>, pair: &Pair, tally: &PairTally) -> Result<(), AllocError>
    ensures { OnOk result (text.new.items ≡ text.old.items ++ pair_text pair.now tally.now) }
{
    text.extend_from_slice(b"to ")?;
    push_endpoint(text, pair.target.as_bytes(), pair.port)?;
    text.push(b' ')?;
    push_session(text, &pair.session, tally)
}

/// Appends the line of a pair, and then writes the text if it has at least 65,536 bytes.
pub(crate) fn print_pair<K: Sink>(
    sink: &mut K,
    text: &mut Vec<u8>,
    pair: &Pair,
    tally: &PairTally,
) -> Result<(), CommandFault>
    ensures moved { OnOk result (Moves (K.held sink.old) (K.held sink.new)
        (text.old.items ++ pair_text pair.now tally.now) text.new.items) }
    ensures front { AppendsPrefix (K.held sink.old) (K.held sink.new)
        (text.old.items ++ pair_text pair.now tally.now) }
    ensures failures { CountsSink (K.failed sink.old) (K.failed sink.new) result }
{
    push_pair(text, pair, tally)?;
    send_large(sink, text)?;
    Ok(())
}
