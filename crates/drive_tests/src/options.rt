//! The first line of the input: how a journal is written.

use crate::words::Words;

/// How the messages are written.
#[derive(Clone, Copy)]
pub(crate) struct WriterOptions {
    /// How many messages are committed together.
    pub group: u64,
    /// How often each line is appended.
    pub repeats: u64,
    /// Whether the session is closed at the end of the input.
    pub closes: bool,
    /// Whether the number of committed messages is reported after opening, after each commit and after closing.
    pub reports: bool,
}

/// Reads the options in these words, and appends the path to `path`. Returns `None` if there are other words, or if an
/// allocation fails.
pub(crate) fn read_options(mut words: Words<'_>, path: &mut Vec<u8>) -> Option<WriterOptions> {
    path.extend_from_slice(words.next_word()).ok()?;
    Some(WriterOptions {
        group: words.next_number()?,
        repeats: words.next_number()?,
        closes: words.next_number()? > 0,
        reports: words.next_number()? > 0,
    })
}
