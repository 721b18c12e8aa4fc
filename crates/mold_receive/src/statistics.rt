//! The line of statistics.

ghost use Rattle.std.specs.Prelude.{◌≡◌, ◌++◌, length, map, take, OnErr, OnOk};
ghost use Rattle.mold_receive.specs.Statistics.{common_words, count_word, gap_words, line_words};
ghost use Rattle.mold_receive.specs.Statistics.{stats_line};
ghost use Rattle.mold_receiver.specs.declared.line.Line.TheVariants.{A, B};
ghost use Rattle.mold_text.specs.Line.{word_text};

use crate::receive_options::SECOND;
use mold_repair::{LineStats, RepairStats};
use mold_text::{Word, push_line_with};
use std::alloc::AllocError;

/// A microsecond in nanoseconds.
const MICRO: u64 = 1000;

/// Statistics at a time, of a receiver of one line or two.
#[derive(Drop)]
pub(crate) struct Statistics {
    /// The time in nanoseconds.
    pub(crate) time: u64,
    /// Whether there are two lines.
    pub(crate) both: bool,
    pub(crate) stats: RepairStats,
    /// The number of datagrams that were dropped at the ports, if it is known.
    pub(crate) drops: Option<u64>,
}

impl Statistics {
    // Returns the words for the first missing messages.
    fn gap_words(&self) -> [Word<'static>; 2]
        ensures { map word_text result ≡ gap_words self.now.stats.gap }
    {
        match self.stats.gap {
            Some(gap) => [
                Word::Number(gap.first),
                Word::Number(gap.end.saturating_sub(1)),
            ],
            None => [Word::Text(b"none"), Word::Text(b"none")],
        }
    }

    // Returns the words of the fields before those of the lines.
    fn common_words(&self) -> [Word<'static>; 26]
        ensures { map word_text result ≡ common_words self.now.time self.now.stats self.now.drops }
    {
        let [first, last] = self.gap_words();
        let counts = self.stats.counts;
        [
            Word::Text(b"stats"),
            Word::Text(b"at"),
            Word::Number(self.time / SECOND),
            Word::Text(b"next"),
            Word::Number(self.stats.next),
            Word::Text(b"known"),
            Word::Number(self.stats.known),
            Word::Text(b"gap"),
            first,
            last,
            Word::Text(b"missing"),
            Word::Number(self.stats.missing),
            Word::Text(b"stored"),
            Word::Number(u64::from(self.stats.stored)),
            Word::Text(b"requests"),
            Word::Number(counts.requests),
            Word::Text(b"answers"),
            Word::Number(counts.answers),
            Word::Text(b"useless"),
            Word::Number(counts.useless),
            Word::Text(b"lost"),
            Word::Number(counts.lost),
            Word::Text(b"contradictions"),
            Word::Number(counts.contradictions),
            Word::Text(b"dropped"),
            count_word(self.drops),
        ]
    }

    /// Appends the line of statistics. If an allocation fails, a part of the line may follow the earlier text.
    pub(crate) fn push(&self, out: &mut Vec<u8>) -> Result<(), AllocError>
        ensures line { OnOk result (out.new.items ≡ out.old.items
            ++ stats_line self.now.time self.now.both self.now.stats self.now.drops) }
        ensures kept { OnErr result (take (length out.old.items) out.new.items ≡ out.old.items) }
    {
        let common = self.common_words();
        if self.both {
            push_line_with(out, &common, &both_words(self.stats.a, self.stats.b))
        } else {
            push_line_with(out, &common, &a_words(self.stats.a))
        }
    }
}

// Returns the word for a count that may be unknown.
fn count_word(count: Option<u64>) -> Word<'static>
    ensures { word_text result ≡ count_word count }
{
    match count {
        Some(count) => Word::Number(count),
        None => Word::Text(b"unknown"),
    }
}

// Returns the words of the fields of line A.
fn a_words(a: LineStats) -> [Word<'static>; 11]
    ensures { map word_text result ≡ line_words A a }
{
    [
        Word::Text(b"a"),
        Word::Text(b"datagrams"),
        Word::Number(a.datagrams),
        Word::Text(b"first"),
        Word::Number(a.first),
        Word::Text(b"again"),
        Word::Number(a.again),
        Word::Text(b"refused"),
        Word::Number(a.refused),
        Word::Text(b"late"),
        Word::Number(a.late / MICRO),
    ]
}

// Returns the words of the fields of both lines.
fn both_words(a: LineStats, b: LineStats) -> [Word<'static>; 22]
    ensures { map word_text result ≡ line_words A a ++ line_words B b }
{
    [
        Word::Text(b"a"),
        Word::Text(b"datagrams"),
        Word::Number(a.datagrams),
        Word::Text(b"first"),
        Word::Number(a.first),
        Word::Text(b"again"),
        Word::Number(a.again),
        Word::Text(b"refused"),
        Word::Number(a.refused),
        Word::Text(b"late"),
        Word::Number(a.late / MICRO),
        Word::Text(b"b"),
        Word::Text(b"datagrams"),
        Word::Number(b.datagrams),
        Word::Text(b"first"),
        Word::Number(b.first),
        Word::Text(b"again"),
        Word::Number(b.again),
        Word::Text(b"refused"),
        Word::Number(b.refused),
        Word::Text(b"late"),
        Word::Number(b.late / MICRO),
    ]
}
