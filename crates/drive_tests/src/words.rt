//! The words of a line.

use memchr::memchr;
use mold_digits::read_number;

/// The words of a line that were not read yet, separated by single spaces.
#[derive(Clone, Copy)]
pub(crate) struct Words<'a> {
    rest: &'a [u8],
}

impl<'a> Words<'a> {
    pub(crate) fn new(line: &'a [u8]) -> Words<'a> {
        Words { rest: line }
    }

    /// Returns the words of the line after its first one.
    pub(crate) fn after_first(line: &'a [u8]) -> Words<'a> {
        let mut words = Words::new(line);
        words.next_word();
        words
    }

    /// Returns the next word. It is empty if the line has no more words.
    pub(crate) fn next_word(&mut self) -> &'a [u8] {
        let line = self.rest;
        match memchr(b' ', line) {
            Some(at) => {
                self.rest = &line[at + 1..];
                &line[..at]
            }
            None => {
                self.rest = &line[line.len()..];
                line
            }
        }
    }

    /// Returns the number that the next word encodes in decimal, if it encodes one.
    pub(crate) fn next_number(&mut self) -> Option<u64> {
        read_number(self.next_word())
    }

    /// Returns the next number, if it is less than 2^32.
    pub(crate) fn next_small(&mut self) -> Option<u32> {
        u32::try_from(self.next_number()?).ok()
    }
}
