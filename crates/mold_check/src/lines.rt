//! `mold check -`: checks datagrams given as lines of hexadecimal digits.

ghost use Rattle.std.specs.Prelude.{◌≡◌, IfOk, IfSome};
ghost use Rattle.std.specs.Io.KnownBytes.{Appends};
ghost use Rattle.mold_check.specs.CheckLines.{check_status, check_text};
ghost use Rattle.mold_check.specs.Checking.{all_taken, beginning, beginning_over};
ghost use Rattle.mold_devices.specs.Devices.{AppendsPrefix};
ghost use Rattle.mold_devices.specs.Faults.{CountsCommand, CountsRead};
ghost use Rattle.mold_devices.specs.Lines.{lines_of};

use crate::datagram_check::DatagramCheck;
use crate::fresh_judge::FreshJudge;
use crate::judge::Judge;
use crate::line_check::LineCheck;
use mold_devices::{CommandFault, ReadFault, Sink, Source};
use mold_input::PacketLines;
use std::alloc::Global;

/// Reads all lines of the source into a check with this judge. The check can then be printed. Of a long line that can
/// only be refused, only a part is kept.
///
/// `Read` is returned only if the source failed, `Memory` only if an allocation failed.
pub fn read_lines_over<J: Judge, S: Source>(
    alloc: Global,
    source: &mut S,
    judge: J,
) -> Result<LineCheck<J>, ReadFault>
    ensures taken { IfOk result (λ check. IfSome (S.left source.old) (λ input.
        check ≡ all_taken J.judging (beginning_over judge) (lines_of input))) }
    ensures failures { CountsRead (S.failed source.old) (S.failed source.new) result }
{
    J::fault_law();
    let mut lines = PacketLines::new(alloc)?;
    let mut check = LineCheck::over(alloc, judge);
    'lines: loop {
        if !lines.advance(source)? {
            return Ok(check);
        }
        check.take(lines.line())?;
    }
}

/// Reads all lines of the source into a check with a new judge, as `read_lines_over` does.
pub fn read_lines<J: FreshJudge, S: Source>(
    alloc: Global,
    source: &mut S,
) -> Result<LineCheck<J>, ReadFault>
    ensures taken { IfOk result (λ check. IfSome (S.left source.old) (λ input.
        check ≡ all_taken J.judging (beginning J.judging) (lines_of input))) }
    ensures failures { CountsRead (S.failed source.old) (S.failed source.new) result }
{
    read_lines_over(alloc, source, J::new(alloc))
}

/// Checks the datagrams that the lines of the source encode as hexadecimal digits, in their order. It writes the
/// outcome to the sink and returns the exit status: 0 whole, 1 incomplete, 2 a line is refused.
///
/// It reads all lines before it writes, and keeps only the messages that the checker stores. Of a long line that can
/// only be refused, it keeps only a part. After a fault, a prefix of the text was written. `Read` and `Write` are
/// returned only if the source or the sink failed, `Memory` only if an allocation failed.
pub fn check_lines<S: Source, K: Sink>(
    alloc: Global,
    source: &mut S,
    sink: &mut K,
) -> Result<u8, CommandFault>
    ensures whole { IfOk result (λ status. IfSome (S.left source.old) (λ input.
        Appends (K.held sink.old) (K.held sink.new) (check_text input) × (status ≡ check_status input))) }
    ensures front { IfSome (S.left source.old) (λ input.
        AppendsPrefix (K.held sink.old) (K.held sink.new) (check_text input)) }
    ensures failures { CountsCommand (S.failed source.old) (S.failed source.new)
        (K.failed sink.old) (K.failed sink.new) result }
{
    let check: LineCheck<DatagramCheck> = read_lines(alloc, source)?;
    check.print(alloc, sink)
}
