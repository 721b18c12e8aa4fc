//! The steps of a repairer, and what each of them prints.

ghost use Rattle.std.specs.Prelude.{◌<◌, ◌^◌};

use crate::calls::Calls;
use crate::report::{push_none, push_syntax};
use crate::words::Words;
use mold_digits::decode;
use mold_pacing::Gap;
use mold_receiver::{Batch, Line, Taken};
use mold_repair::{LineStats, RepairOrigin, RepairStats, Repairer};
use mold_text::{Word, push_line, push_refusal};
use std::alloc::{AllocError, Global};

// The times of a repairer are below this one.
const TIMES: u64 = 1 << 62;

/// A repairer, to which the steps of the input's lines are applied.
#[derive(Drop)]
pub(crate) struct Driver {
    repairer: Repairer,
    batch: Batch,
    // The bytes of the last datagram.
    bytes: Vec<u8>,
}

// Appends a line for each message of the batch: its number and its bytes.
fn push_messages(out: &mut Vec<u8>, batch: &Batch) -> Result<(), AllocError> {
    let mut number = batch.first().unwrap_or(0);
    for message in batch {
        push_line(out, &[Word::Number(number), Word::Message(message)])?;
        number = number.wrapping_add(1);
    }
    Ok(())
}

fn push_taken(out: &mut Vec<u8>, taken: Taken) -> Result<(), AllocError> {
    push_line(
        out,
        &[
            Word::Text(b"taken"),
            Word::Number(u64::from(taken.handed)),
            Word::Number(u64::from(taken.kept)),
            Word::Number(u64::from(taken.beyond)),
        ],
    )
}

// Appends the numbers that were given up, and how many stored messages were delivered then.
fn push_lost(out: &mut Vec<u8>, lost: Gap, delivered: usize) -> Result<(), AllocError> {
    push_line(
        out,
        &[
            Word::Text(b"lost"),
            Word::Number(lost.first),
            Word::Number(lost.end),
            Word::Number(delivered as u64),
        ],
    )
}

// Appends the statistics of the line with this name.
fn push_line_stats(out: &mut Vec<u8>, name: &[u8], stats: LineStats) -> Result<(), AllocError> {
    push_line(
        out,
        &[
            Word::Text(name),
            Word::Number(stats.datagrams),
            Word::Number(stats.first),
            Word::Number(stats.again),
            Word::Number(stats.refused),
            Word::Number(stats.late),
        ],
    )
}

// Appends the state of the receiver and what was counted, and then the statistics of both lines.
fn push_stats(out: &mut Vec<u8>, stats: &RepairStats) -> Result<(), AllocError> {
    push_line(
        out,
        &[
            Word::Text(b"stats"),
            Word::Number(stats.next),
            Word::Number(stats.known),
            Word::Number(stats.missing),
            Word::Number(u64::from(stats.stored)),
            Word::Number(stats.counts.requests),
            Word::Number(stats.counts.answers),
            Word::Number(stats.counts.useless),
            Word::Number(stats.counts.lost),
        ],
    )?;
    push_line_stats(out, b"a", stats.a)?;
    push_line_stats(out, b"b", stats.b)
}

impl Driver {
    pub(crate) fn new(alloc: Global, repairer: Repairer) -> Driver {
        Driver {
            repairer,
            batch: Batch::new(alloc),
            bytes: Vec::new(alloc),
        }
    }

    fn apply_at(
        &mut self,
        time: u64,
        step: &[u8],
        words: Words<'_>,
        out: &mut Vec<u8>,
    ) -> Result<(), AllocError>
        requires { time < 2 ^ 62 }
    {
        match step {
            b"a" => self.take(time, Some(Line::A), words, out),
            b"b" => self.take(time, Some(Line::B), words, out),
            b"server" => self.take(time, None, words, out),
            b"poll" => self.poll(time, out),
            b"lost" => self.lose(time, out),
            b"deadline" => self.wait(time, out),
            b"missing" => self.push_missing(time, out),
            _ => push_syntax(out),
        }
    }

    // Takes the datagram that the words end with. Without an origin, they begin with a server's index.
    fn take(
        &mut self,
        time: u64,
        line: Option<Line>,
        mut words: Words<'_>,
        out: &mut Vec<u8>,
    ) -> Result<(), AllocError>
        requires { time < 2 ^ 62 }
    {
        let origin = match line {
            Some(line) => RepairOrigin::Line(line),
            None => RepairOrigin::Server(words.next_small().unwrap_or(0)),
        };
        if !decode(words.next_word(), &mut self.bytes)? {
            return push_syntax(out);
        }
        self.batch.clear();
        match self
            .repairer
            .take(time, origin, self.bytes.as_slice(), &mut self.batch)
        {
            Ok(taken) => {
                push_taken(out, taken)?;
                push_messages(out, &self.batch)
            }
            Err(why) => push_refusal(out, &[Word::Text(b"refused")], why),
        }
    }

    fn poll(&mut self, time: u64, out: &mut Vec<u8>) -> Result<(), AllocError>
        requires { time < 2 ^ 62 }
    {
        match self.repairer.poll(time) {
            Some(ask) => push_line(
                out,
                &[
                    Word::Text(b"ask"),
                    Word::Number(u64::from(ask.server)),
                    Word::Number(ask.request.sequence),
                    Word::Number(u64::from(ask.request.count)),
                ],
            ),
            None => push_none(out),
        }
    }

    fn lose(&mut self, time: u64, out: &mut Vec<u8>) -> Result<(), AllocError>
        requires { time < 2 ^ 62 }
    {
        self.batch.clear();
        match self.repairer.lost(time, &mut self.batch)? {
            Some(gap) => {
                push_lost(out, gap, self.batch.len())?;
                push_messages(out, &self.batch)
            }
            None => push_none(out),
        }
    }

    fn wait(&mut self, time: u64, out: &mut Vec<u8>) -> Result<(), AllocError>
        requires { time < 2 ^ 62 }
    {
        match self.repairer.deadline(time) {
            Some(time) => push_line(out, &[Word::Text(b"deadline"), Word::Number(time)]),
            None => push_none(out),
        }
    }

    fn push_missing(&self, from: u64, out: &mut Vec<u8>) -> Result<(), AllocError> {
        match self.repairer.next_missing(from) {
            Some(gap) => push_line(
                out,
                &[
                    Word::Text(b"missing"),
                    Word::Number(gap.first),
                    Word::Number(gap.end),
                ],
            ),
            None => push_none(out),
        }
    }
}

impl Calls for Driver {
    /// Applies the step that the line names, and appends what its call returns. The steps are `a TIME DATAGRAM`,
    /// `b TIME DATAGRAM`, `server TIME SERVER DATAGRAM`, `poll TIME`, `lost TIME`, `deadline TIME`, `missing NUMBER`
    /// and `stats`. A datagram is hexadecimal digits. Any other line is `refused Syntax`.
    fn apply(&mut self, line: &[u8], out: &mut Vec<u8>) -> Result<(), AllocError> {
        let mut words = Words::new(line);
        let step = words.next_word();
        match words.next_number() {
            Some(time) if time < TIMES => self.apply_at(time, step, words, out),
            None if step == b"stats".as_slice() => push_stats(out, &self.repairer.stats()),
            _ => push_syntax(out),
        }
    }
}
