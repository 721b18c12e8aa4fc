//! How many frames of captures count as what.

ghost use Rattle.std.specs.Prelude.{◌≡◌, ◌++◌, OnOk};
ghost use Rattle.mold_capture_commands.specs.Filter.{lent_found};
ghost use Rattle.mold_capture_commands.specs.Counts.{counted, counts_text, no_counts, others_text};

use crate::found::Found;
use mold_text::{Word, push_line};
use std::alloc::AllocError;

/// How many frames of captures count as what. Each number stays at `u64::MAX` once it is there.
#[derive(Clone, Copy, Debug, PartialEq, Eq)]
pub struct CaptureCounts {
    /// The UDP datagrams that pass the filters.
    pub datagrams: u64,
    /// The other packets, and those that do not pass.
    pub skipped: u64,
    /// The fragments and the datagrams that the capture cut short, which would pass.
    pub partial: u64,
    /// The frames of a link type that is not read.
    pub unread: u64,
}

impl CaptureCounts {
    /// Returns the counts of no frame.
    pub fn new() -> CaptureCounts
        ensures { result ≡ no_counts }
    {
        CaptureCounts {
            datagrams: 0,
            skipped: 0,
            partial: 0,
            unread: 0,
        }
    }

    /// Counts a frame.
    #[inline(always)]
    pub fn add(&mut self, found: &Found<'_>)
        ensures { self.new ≡ counted self.old (lent_found found.now) }
    {
        match found {
            Found::Passed(_) => self.datagrams = self.datagrams.saturating_add(1),
            Found::Skipped => self.skipped = self.skipped.saturating_add(1),
            Found::Partial => self.partial = self.partial.saturating_add(1),
            Found::Unread => self.unread = self.unread.saturating_add(1),
        }
    }
}

/// Appends the first line of `check --capture`.
pub(crate) fn push_counts(text: &mut Vec<u8>, counts: CaptureCounts) -> Result<(), AllocError>
    ensures { OnOk result (text.new.items ≡ text.old.items ++ counts_text counts) }
{
    push_line(
        text,
        &[
            Word::Text(b"datagrams"),
            Word::Number(counts.datagrams),
            Word::Text(b"skipped"),
            Word::Number(counts.skipped),
            Word::Text(b"partial"),
            Word::Number(counts.partial),
            Word::Text(b"unread"),
            Word::Number(counts.unread),
        ],
    )
}

/// Appends the line of `sessions` that counts the other frames: those that are not datagrams that pass.
pub(crate) fn push_others(text: &mut Vec<u8>, counts: CaptureCounts) -> Result<(), AllocError>
    ensures { OnOk result (text.new.items ≡ text.old.items ++ others_text counts) }
{
    push_line(
        text,
        &[
            Word::Text(b"skipped"),
            Word::Number(counts.skipped),
            Word::Text(b"partial"),
            Word::Number(counts.partial),
            Word::Text(b"unread"),
            Word::Number(counts.unread),
        ],
    )
}
