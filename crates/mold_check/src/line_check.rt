//! Checks datagrams given as lines of hexadecimal digits, line by line.

ghost use Rattle.std.specs.Prelude.{◌≡◌, ◌++◌, length, take, IfOk, OnErr, OnOk};
ghost use Rattle.std.specs.Io.KnownBytes.{Appends};
ghost use Rattle.hex.specs.Hex.{decode_of};
ghost use Rattle.mold_check.specs.CheckLines.{count_line};
ghost use Rattle.mold_check.specs.Checking.{beginning, beginning_over, checking_status, checking_text};
ghost use Rattle.mold_check.specs.Checking.{judged_digits, not_hex_text, taken};
ghost use Rattle.mold_check.specs.Report.{Printed};
ghost use Rattle.mold_devices.specs.Devices.{AppendsPrefix};
ghost use Rattle.mold_devices.specs.Faults.{CountsSink};

use crate::fresh_judge::FreshJudge;
use crate::judge::Judge;
use crate::naming::Counted;
use crate::printing::print_pushed;
use mold_devices::{CommandFault, Sink, send};
use mold_text::{Word, push_line};
use std::alloc::{AllocError, Global};
use std::marker::Model;

/// A check of lines of hexadecimal digits, each of which encodes a datagram. The lines after one that is not an even
/// number of hexadecimal digits are only counted, and so are those after which the judge has decided. It keeps no line,
/// only the messages that the judge stores. The first line has number 1. The numbers stop at `u64::MAX`.
#[derive(Drop)]
pub struct LineCheck<J> {
    judge: J,
    bytes: Vec<u8>,
    next: u64,
    datagrams: u64,
    // The number of the first line that is not hexadecimal.
    not_hex: Option<u64>,
}

impl<J> Model for LineCheck<J> {
    ghost use Rattle.mold_check.specs.Checking.{Checking};

    ghost Value = { Checking J };

    ghost view = { λ c. record {
      next = c.next;
      datagrams = c.datagrams;
      judge = c.judge;
      not_hex = c.not_hex;
    } };
}

impl<J: FreshJudge> LineCheck<J> {
    /// Returns a check that has taken no line, with a new judge. This allocates nothing.
    pub fn new(alloc: Global) -> LineCheck<J>
        ensures { result ≡ beginning J.judging }
    {
        LineCheck::over(alloc, J::new(alloc))
    }
}

impl<J: Judge> LineCheck<J> {
    /// Returns a check that has taken no line and adds its datagrams to this judge. This allocates nothing.
    pub fn over(alloc: Global, judge: J) -> LineCheck<J>
        ensures { result ≡ beginning_over judge }
    {
        LineCheck {
            judge,
            bytes: Vec::new(alloc),
            next: 1,
            datagrams: 0,
            not_hex: None,
        }
    }

    /// Takes the next line. It returns an error if an allocation fails.
    #[tactic(auto, unfolding(crate::specs::Checking::taken))]
    pub fn take(&mut self, line: &[u8]) -> Result<(), AllocError>
        ensures { OnOk result (self.new ≡ taken J.judging self.old line.now) }
    {
        let number = self.next;
        self.next = number.saturating_add(1);
        if line.is_empty() {
            return Ok(());
        }
        self.datagrams = self.datagrams.saturating_add(1);
        if self.not_hex.is_none() && !self.judge.is_decided() {
            self.not_hex = judge(&mut self.judge, &mut self.bytes, number, line)?;
        }
        Ok(())
    }

    /// Returns the judge of the datagrams so far.
    pub fn judge(&self) -> &J
        ensures { result.now ≡ self.now.judge }
    {
        &self.judge
    }

    /// Returns the number of the first line that is not hexadecimal, if there is one.
    pub fn not_hex(&self) -> Option<u64>
        ensures { result ≡ self.now.not_hex }
    {
        self.not_hex
    }

    /// Writes the number of datagrams so far. After a fault, a prefix of this was written. `Write` is returned only if the
    /// sink failed, `Memory` only if an allocation failed, and `Read` never.
    pub fn print_counts<K: Sink>(&self, alloc: Global, sink: &mut K) -> Result<(), CommandFault>
        ensures whole { OnOk result (Appends (K.held sink.old) (K.held sink.new) (count_line self.now.datagrams)) }
        ensures front { AppendsPrefix (K.held sink.old) (K.held sink.new) (count_line self.now.datagrams) }
        ensures failures { CountsSink (K.failed sink.old) (K.failed sink.new) result }
    {
        let mut text = Vec::new(alloc);
        push_count(&mut text, self.datagrams)?;
        send(sink, &mut text)
    }

    /// Writes the number of datagrams and the outcome of the lines so far, and returns the exit status. After a fault,
    /// a prefix of the text was written. `Write` is returned only if the sink failed, `Memory` only if an allocation
    /// failed, and `Read` never.
    pub fn print<K: Sink>(&self, alloc: Global, sink: &mut K) -> Result<u8, CommandFault>
        ensures whole { IfOk result (λ status. Appends (K.held sink.old) (K.held sink.new)
            (checking_text J.judging self.now) × (status ≡ checking_status J.judging self.now)) }
        ensures front { AppendsPrefix (K.held sink.old) (K.held sink.new) (checking_text J.judging self.now) }
        ensures failures { CountsSink (K.failed sink.old) (K.failed sink.new) result }
    {
        let mut text = Vec::new(alloc);
        push_count(&mut text, self.datagrams)?;
        let names = Counted { word: b"line" };
        match self.not_hex {
            Some(number) => {
                self.judge.print_early(sink, &mut text, &names)?;
                print_not_hex(sink, &mut text, number)
            }
            None => self.judge.print(sink, &mut text, &names),
        }
    }
}

// Adds the datagram of the line to the judge. Returns the number of the line if it is not hexadecimal. The decoded
// bytes replace the contents of `bytes`.
fn judge<J: Judge>(
    judge: &mut J,
    bytes: &mut Vec<u8>,
    number: u64,
    digits: &[u8],
) -> Result<Option<u64>, AllocError>
    ensures { IfOk result (λ not_hex.
        (judge.new, not_hex) ≡ judged_digits J.judging judge.old number (decode_of digits.now)) }
{
    if !mold_digits::decode(digits, bytes)? {
        return Ok(Some(number));
    }
    judge.add(number, bytes.as_slice())?;
    Ok(None)
}

fn push_count(text: &mut Vec<u8>, datagrams: u64) -> Result<(), AllocError>
    ensures { OnOk result (text.new.items ≡ text.old.items ++ count_line datagrams) }
{
    push_line(text, &[Word::Text(b"datagrams"), Word::Number(datagrams)])
}

fn push_not_hex(text: &mut Vec<u8>, number: u64) -> Result<(), AllocError>
    ensures line { OnOk result (text.new.items ≡ text.old.items ++ not_hex_text number) }
    ensures kept { OnErr result (take (length text.old.items) text.new.items ≡ text.old.items) }
{
    push_line(
        text,
        &[
            Word::Text(b"refused"),
            Word::Text(b"line"),
            Word::Number(number),
            Word::Text(b"NotHex"),
        ],
    )
}

// Writes the text and that the line with this number is not hexadecimal, and returns the exit status. If an allocation
// fails, writes the text.
fn print_not_hex<K: Sink>(sink: &mut K, text: &mut Vec<u8>, number: u64) -> Result<u8, CommandFault>
    ensures { Printed (K.held sink.old) (K.held sink.new) (K.failed sink.old) (K.failed sink.new) text.old.items
        (not_hex_text number) 2 text.new.items result }
{
    let len = text.len();
    let pushed = push_not_hex(text, number);
    print_pushed(sink, text, len, pushed, 2)
}
