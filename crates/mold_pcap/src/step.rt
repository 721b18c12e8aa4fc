//! Reads one part of a capture.

ghost use Rattle.std.specs.Prelude.{◌≡◌, ◌<◌, IfErr, IfOk};
ghost use Rattle.std.specs.Io.KnownBytes.{prepend_known};
ghost use Rattle.mold_devices.specs.Lines.{work_left};
ghost use Rattle.mold_pcap.specs.Looks.{look};
ghost use Rattle.mold_pcap.specs.Reading.{CountsCapture, GivesFault, HasFrame, HasWorked, IsStep};
ghost use Rattle.mold_pcap.specs.declared.look.Look.TheVariants.{Other, Short};

use crate::fault::{CaptureError, CaptureFault};
use crate::format::Format;
use crate::look::Look;
use crate::passing::{Passing, pass_block};
use crate::place::Place;
use crate::window::Window;
use mold_devices::Source;

/// What one part of a capture gives.
#[derive(Clone, Copy)]
pub enum Step {
    /// The part has no frame, or more of it was read.
    More,
    /// The capture has ended without a fault.
    End,
    /// The part has a frame. Its `used` bytes were not passed yet, so the window begins with them.
    Frame { place: Place, used: usize },
}

// Reads until the window has `need` bytes, without which the next part is not known.
fn read_more<S: Source>(
    format: &mut Format,
    window: &mut Window,
    source: &mut S,
    need: usize,
) -> Result<Step, CaptureError>
    requires { look format.old window.old ≡ Short need }
    ensures step { IfOk result (λ step. IsStep step format.old (prepend_known window.old (S.left source.old))
        format.new window.new (S.left source.new)) }
    ensures frame { IfOk result (λ step. HasFrame step window.new) }
    ensures fault { IfErr result (GivesFault format.old (prepend_known window.old (S.left source.old))) }
    ensures work { IfOk result (λ step. HasWorked step (S.bound source.new) window.new
        (work_left (S.bound source.old) window.old)) }
    ensures failures { CountsCapture (S.failed source.old) (S.failed source.new) result }
{
    if window.fill(need, source)? {
        return Ok(Step::More);
    }
    match format.ending(window.rest().is_empty()) {
        Some(why) => Err(CaptureError::Fault(why)),
        None => Ok(Step::End),
    }
}

// Passes a block of another kind, which has `total` bytes.
fn pass_other<S: Source>(
    format: &mut Format,
    window: &mut Window,
    source: &mut S,
    total: usize,
) -> Result<Step, CaptureError>
    requires { look format.old window.old ≡ Other total }
    ensures step { IfOk result (λ step. IsStep step format.old (prepend_known window.old (S.left source.old))
        format.new window.new (S.left source.new)) }
    ensures frame { IfOk result (λ step. HasFrame step window.new) }
    ensures fault { IfErr result (GivesFault format.old (prepend_known window.old (S.left source.old))) }
    ensures work { IfOk result (λ step. HasWorked step (S.bound source.new) window.new
        (work_left (S.bound source.old) window.old)) }
    ensures failures { CountsCapture (S.failed source.old) (S.failed source.new) result }
{
    match pass_block(window, source, format.order(), total)? {
        Passing::Whole => {
            format.advance(total);
            Ok(Step::More)
        }
        Passing::Cut => Err(CaptureError::Fault(CaptureFault::Cut { at: format.at() })),
        Passing::Differs => Err(CaptureError::Fault(CaptureFault::BadBlock { at: format.at() })),
    }
}

/// Reads the next part of a capture, or more of it.
#[inline(always)]
pub fn take_part<S: Source>(
    format: &mut Format,
    window: &mut Window,
    source: &mut S,
) -> Result<Step, CaptureError>
    ensures step { IfOk result (λ step. IsStep step format.old (prepend_known window.old (S.left source.old))
        format.new window.new (S.left source.new)) }
    ensures frame { IfOk result (λ step. HasFrame step window.new) }
    ensures fault { IfErr result (GivesFault format.old (prepend_known window.old (S.left source.old))) }
    ensures work { IfOk result (λ step. HasWorked step (S.bound source.new) window.new
        (work_left (S.bound source.old) window.old)) }
    ensures failures { CountsCapture (S.failed source.old) (S.failed source.new) result }
{
    match format.look(window.rest()) {
        Look::Framed { place, used } => {
            format.advance(used);
            Ok(Step::Frame { place, used })
        }
        Look::Short { need } => read_more(format, window, source, need),
        Look::Passed { next, used } => {
            format.pass(next, used);
            window.skip(used);
            Ok(Step::More)
        }
        Look::Other { total } => pass_other(format, window, source, total),
        Look::Refused { why } => Err(CaptureError::Fault(why)),
        Look::Ended => Ok(Step::End),
    }
}
