//! Parses the texts of options that are sessions and numbers.

ghost use Rattle.std.specs.Prelude.{◌≡◌, ◌≤◌, true, IfSome};
ghost use Rattle.std.specs.List.{list_all};
ghost use Rattle.mold_words.specs.Values.{is_character, is_session, is_sized, number_of, session_of};

use mold_digits::read_number;
use mold_wire::SESSION_LENGTH;

fn is_character(byte: u8) -> bool
    ensures { result ≡ is_character byte }
{
    32 <= byte && byte <= 126
}

// Whether the text has 1 to `most` bytes.
fn is_sized(text: &str, most: usize) -> bool
    ensures { result ≡ is_sized most text.now }
{
    !text.is_empty() && text.len() <= most
}

fn are_characters(text: &str) -> bool
    ensures { result ≡ list_all is_character text.now }
{
    text.as_bytes().iter().all(|byte| is_character(*byte))
}

fn is_session(text: &str) -> bool
    ensures { result ≡ is_session text.now }
{
    is_sized(text, SESSION_LENGTH) && are_characters(text)
}

/// Returns the session name that a text of 1 to 10 characters from space to ~ gives, padded with spaces on the right.
pub(crate) fn session_of(text: &str) -> Option<[u8; SESSION_LENGTH]>
    ensures value { result ≡ session_of text.now }
    ensures named { IfSome result (λ session. list_all is_character session ≡ true) }
{
    if !is_session(text) {
        return None;
    }
    let mut session = [b' '; SESSION_LENGTH];
    session[..text.len()].copy_from_slice(text.as_bytes());
    Some(session)
}

/// Returns the number that 1 to 20 decimal digits represent, if it is in the range.
pub(crate) fn number_of(text: &str, least: u64, most: u64) -> Option<u64>
    ensures value { result ≡ number_of least most text.now }
    ensures within { IfSome result (λ number. (least ≤ number) × (number ≤ most)) }
{
    let number = read_number(text.as_bytes())?;
    if number < least || number > most {
        return None;
    }
    Some(number)
}
