//! Splits a line into words.

ghost use Rattle.std.specs.Prelude.{◌≡◌, ◌==◌, ◌<◌, [], ◌∷◌, length, MatchOption, position};
ghost use Rattle.memchr.specs.Find.{IsFirstByte, is_byte};
ghost use Rattle.mold_sim.specs.Script.{words_of};
ghost use Rattle.mold_sim.specs.EventWords.{words_in};

use memchr::memchr;

/// The words of a line. An event has one to four words.
#[derive(Drop)]
pub enum EventWords<'a> {
    /// The only word.
    One(&'a [u8]),
    /// Both words, in order.
    Two(&'a [u8], &'a [u8]),
    /// All three words, in order.
    Three(&'a [u8], &'a [u8], &'a [u8]),
    /// All four words, in order.
    Four(&'a [u8], &'a [u8], &'a [u8], &'a [u8]),
}

// In a line of fewer bytes, each byte is compared alone.
// For the optimizer: `memchr` does the same there, but is not inlined.
const SHORT: usize = 32;

// Returns the index of the first space of a short line.
#[inline(always)]
fn space_in_short(line: &[u8]) -> Option<usize>
    ensures { result ≡ position (λ byte. byte == 32) line.now }
{
    line.iter().position(|byte| *byte == b' ')
}

// Returns the index of the first space.
#[inline(always)]
fn first_space(line: &[u8]) -> Option<usize>
    ensures { IsFirstByte (is_byte 32) line.now result }
{
    if line.len() < SHORT {
        return space_in_short(line);
    }
    memchr(b' ', line)
}

// Returns the first word and what follows the space after it, or `None` if there is no space.
fn split_word(line: &[u8]) -> Option<(&[u8], &[u8])>
    ensures { MatchOption result (words_of line.now ≡ line.now ∷ [])
        (λ parts. words_of line.now ≡ parts.0.now ∷ words_of parts.1.now) }
{
    let Some(at) = first_space(line) else {
        return None;
    };
    Some((&line[..at], &line[at + 1..]))
}

/// Returns the words of the line, or `None` if there are more than four.
pub fn cut(line: &[u8]) -> Option<EventWords<'_>>
    ensures { MatchOption result (4 < length (words_of line.now))
        (λ words. words_of line.now ≡ words_in words) }
{
    let Some((first, rest)) = split_word(line) else {
        return Some(EventWords::One(line));
    };
    let Some((second, rest)) = split_word(rest) else {
        return Some(EventWords::Two(first, rest));
    };
    let Some((third, rest)) = split_word(rest) else {
        return Some(EventWords::Three(first, second, rest));
    };
    match split_word(rest) {
        Some(_) => None,
        None => Some(EventWords::Four(first, second, third, rest)),
    }
}
