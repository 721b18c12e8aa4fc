//! The words of a line.

ghost use Rattle.std.specs.Prelude.{◌≡◌, ◌+◌, ◌*◌, ◌≤◌, length};
ghost use Rattle.mold_digits.specs.Writing.{IsWritten};
ghost use Rattle.mold_text.specs.Line.{message_digits, word_text};
ghost use Rattle.mold_text.specs.Room.{counted, word_room};

use mold_digits::{
    MAX_DIGITS, MAX_LONG_DIGITS, write_bytes, write_long_number, write_number, write_text,
};

/// A word of a line: its value and how it is printed.
#[derive(Drop)]
pub enum Word<'a> {
    /// The bytes, unchanged.
    Text(&'a [u8]),
    /// A number in decimal.
    Number(u64),
    /// A number of up to 128 bits in decimal.
    LongNumber(u128),
    /// Two lower-case hexadecimal digits for each byte.
    Digits(&'a [u8]),
    /// A message: its bytes as lower-case hexadecimal digits, or `-` if it is empty.
    Message(&'a [u8]),
}

/// Returns the greatest length of the word in bytes, or `usize::MAX` if that length is greater.
#[inline(always)]
pub(crate) fn word_room(word: &Word<'_>) -> usize
    ensures { result ≡ counted (word_room word.now) }
{
    match word {
        Word::Text(text) => text.len(),
        Word::Number(_) => MAX_DIGITS,
        Word::LongNumber(_) => MAX_LONG_DIGITS,
        Word::Digits(bytes) => bytes.len().saturating_mul(2),
        Word::Message(message) => message.len().saturating_mul(2).saturating_add(1),
    }
}

// Writes a message's digits, or `-` if it is empty, and returns the offset after them.
#[inline(always)]
fn write_message(out: &mut [u8], at: usize, message: &[u8]) -> usize
    requires { at + (2 * length message.now + 1) ≤ length out.old }
    ensures written { IsWritten out.old out.new at result (message_digits message.now) }
    ensures most { result ≤ at + (2 * length message.now + 1) }
{
    if message.is_empty() {
        out[at] = b'-';
        return at + 1;
    }
    write_bytes(out, at, message)
}

/// Writes the word without a space from offset `at` on and returns the offset after it.
#[inline(always)]
pub(crate) fn write_word(out: &mut [u8], at: usize, word: &Word<'_>) -> usize
    requires { at + word_room word.now ≤ length out.old }
    ensures written { IsWritten out.old out.new at result (word_text word.now) }
    ensures most { result ≤ at + word_room word.now }
{
    match word {
        Word::Text(text) => write_text(out, at, text),
        Word::Number(number) => write_number(out, at, *number),
        Word::LongNumber(number) => write_long_number(out, at, *number),
        Word::Digits(bytes) => write_bytes(out, at, bytes),
        Word::Message(message) => write_message(out, at, message),
    }
}
