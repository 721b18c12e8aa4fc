//! Lines of words.

ghost use Rattle.std.specs.Prelude.{◌≡◌, ◌++◌, ◌+◌, ◌≤◌, length, map, take, OnErr, OnOk};
ghost use Rattle.std.specs.List.{flat_map};
ghost use Rattle.mold_digits.specs.Writing.{IsWritten};
ghost use Rattle.mold_text.specs.Line.{after_space, joined, line_of, word_text};
ghost use Rattle.mold_text.specs.Room.{counted, line_room, words_room};

use crate::word::{Word, word_room, write_word};
use std::alloc::AllocError;

// Returns the greatest length in bytes of the words, each with a space or the end of the line. It returns
// `usize::MAX` if that length is greater.
#[inline(always)]
fn words_room(words: &[Word<'_>]) -> usize
    ensures { result ≡ counted (words_room words.now) }
{
    let mut room = 0usize;
    for word in words {
        room = room.saturating_add(word_room(word).saturating_add(1));
    }
    room
}

// Writes each word after a space, from offset `at` on, and returns the offset after them.
#[inline(always)]
fn write_spaced(out: &mut [u8], at: usize, words: &[Word<'_>]) -> usize
    requires { at + words_room words.now ≤ length out.old }
    ensures written { IsWritten out.old out.new at result (flat_map after_space (map word_text words.now)) }
    ensures most { result ≤ at + words_room words.now }
{
    let mut end = at;
    for word in words {
        out[end] = b' ';
        end = write_word(out, end + 1, word);
    }
    end
}

// Writes the words, separated by spaces, from offset `at` on, and returns the offset after them.
#[tactic(auto, unfolding(crate::specs::Line::joined))]
#[inline(always)]
fn write_joined(out: &mut [u8], at: usize, words: &[Word<'_>]) -> usize
    requires { at + words_room words.now ≤ length out.old }
    ensures written { IsWritten out.old out.new at result (joined (map word_text words.now)) }
    ensures most { result ≤ at + words_room words.now }
{
    match words.split_first() {
        Some((first, others)) => {
            let end = write_word(out, at, first);
            write_spaced(out, end, others)
        }
        None => at,
    }
}

// Writes the words of both lists as one list, like `write_joined`.
#[inline(always)]
fn write_both(out: &mut [u8], at: usize, words: &[Word<'_>], others: &[Word<'_>]) -> usize
    requires { at + (words_room words.now + words_room others.now) ≤ length out.old }
    ensures written { IsWritten out.old out.new at result
        (joined (map word_text words.now ++ map word_text others.now)) }
    ensures most { result ≤ at + (words_room words.now + words_room others.now) }
{
    if words.is_empty() {
        return write_joined(out, at, others);
    }
    let end = write_joined(out, at, words);
    write_spaced(out, end, others)
}

// Writes the words of both lists as one line from offset `at` on and returns the offset after it.
#[inline(always)]
fn write_words(out: &mut [u8], at: usize, words: &[Word<'_>], others: &[Word<'_>]) -> usize
    requires { at + (words_room words.now + words_room others.now + 1) ≤ length out.old }
    ensures written { IsWritten out.old out.new at result
        (line_of (map word_text words.now ++ map word_text others.now)) }
    ensures most { result ≤ at + (words_room words.now + words_room others.now + 1) }
{
    let end = write_both(out, at, words, others);
    out[end] = b'\n';
    end + 1
}

// Appends the words of both lists as one line. It allocates the room for the whole line at once.
#[inline(always)]
fn push_words(out: &mut Vec<u8>, words: &[Word<'_>], others: &[Word<'_>]) -> Result<(), AllocError>
    ensures line { OnOk result (out.new.items ≡
        out.old.items ++ line_of (map word_text words.now ++ map word_text others.now)) }
    ensures kept { OnErr result (take (length out.old.items) out.new.items ≡ out.old.items) }
{
    let at = out.len();
    // A sum that does not fit saturates at the greatest number, and an allocation of that size fails.
    let room = words_room(words)
        .saturating_add(words_room(others))
        .saturating_add(1);
    out.resize(at.saturating_add(room), 0)?;
    let end = write_words(out.as_mut_slice(), at, words, others);
    out.truncate(end);
    Ok(())
}

/// Returns an upper bound of the length in bytes of a line of these words, or `usize::MAX` if the bound is greater.
/// Each number counts with its greatest number of digits.
#[inline(always)]
pub fn line_room(words: &[Word<'_>]) -> usize
    ensures { result ≡ counted (line_room words.now) }
{
    words_room(words).saturating_add(1)
}

/// Writes the words, joined by single spaces, and the byte 0A from offset `at` on, and returns the offset after them.
/// There must be room for `line_room` bytes, and bytes after the line may change.
#[inline(always)]
pub fn write_line(out: &mut [u8], at: usize, words: &[Word<'_>]) -> usize
    requires { at + line_room words.now ≤ length out.old }
    ensures written { IsWritten out.old out.new at result (line_of (map word_text words.now)) }
    ensures most { result ≤ at + line_room words.now }
{
    write_words(out, at, words, &[])
}

/// Appends the words as a line: joined by single spaces, with the byte 0A at the end. If an allocation fails, a part of
/// the line may follow the earlier text.
#[inline(always)]
pub fn push_line(out: &mut Vec<u8>, words: &[Word<'_>]) -> Result<(), AllocError>
    ensures line { OnOk result (out.new.items ≡ out.old.items ++ line_of (map word_text words.now)) }
    ensures kept { OnErr result (take (length out.old.items) out.new.items ≡ out.old.items) }
{
    push_words(out, words, &[])
}

/// Appends the words of both lists as one line, like `push_line`.
pub fn push_line_with(
    out: &mut Vec<u8>,
    words: &[Word<'_>],
    others: &[Word<'_>],
) -> Result<(), AllocError>
    ensures line { OnOk result (out.new.items ≡
        out.old.items ++ line_of (map word_text words.now ++ map word_text others.now)) }
    ensures kept { OnErr result (take (length out.old.items) out.new.items ≡ out.old.items) }
{
    push_words(out, words, others)
}
