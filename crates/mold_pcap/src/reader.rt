//! Reads a capture frame by frame.

ghost use Rattle.std.specs.Prelude.{◌≡◌, ◌+◌, ◌<◌, ◌≤◌, [], drop, length, false, None, Ok, IfErr, IfNone, IfOk, IfSome};
ghost use Rattle.std.specs.Prelude.{OnErr};
ghost use Rattle.std.specs.Bool.{OnFalse, OnTrue};
ghost use Rattle.std.specs.Io.KnownBytes.{prepend_known};
ghost use Rattle.mold_devices.specs.Lines.{work_left};
ghost use Rattle.mold_pcap.specs.Captures.{frame_at};
ghost use Rattle.mold_pcap.specs.Formats.{at_start};
ghost use Rattle.mold_pcap.specs.Reading.{CountsCapture, GivesEnd, GivesFault, GivesFrame, IsSpent, no_frame};
ghost use Rattle.mold_pcap.specs.declared.kind.Kind.TheVariants.{Spent};

use crate::fault::CaptureError;
use crate::format::Format;
use crate::place::Place;
use crate::step::{Step, take_part};
use crate::time::FrameTime;
use crate::window::Window;
use mold_devices::Source;
use std::alloc::{AllocError, Global};
use std::marker::Model;

// Reads up to the next frame, or returns `None` if the capture has ended. The window begins with the part that has the
// frame, and the number is the length of this part.
fn next_frame<S: Source>(
    format: &mut Format,
    window: &mut Window,
    source: &mut S,
) -> Result<Option<(Place, usize)>, CaptureError>
    ensures frame { IfOk result (λ found. IfSome found (λ part. GivesFrame format.old
        (prepend_known window.old (S.left source.old)) (frame_at part.0 window.new) format.new
        (prepend_known (drop part.1 window.new) (S.left source.new)))) }
    ensures within { IfOk result (λ found. IfSome found (λ part.
        (part.1 ≤ length window.new) × (part.0.start + part.0.len ≤ part.1))) }
    ensures end { IfOk result (λ found. IfNone found
        (GivesEnd format.old (prepend_known window.old (S.left source.old)) None)) }
    ensures fault { IfErr result (GivesFault format.old (prepend_known window.old (S.left source.old))) }
    ensures work { IfOk result (λ found. IfSome found (λ part. work_left (S.bound source.new) (drop part.1 window.new)
        < work_left (S.bound source.old) window.old)) }
    ensures failures { CountsCapture (S.failed source.old) (S.failed source.new) result }
{
    'parts: loop {
        match take_part(format, window, source)? {
            Step::Frame { place, used } => return Ok(Some((place, used))),
            Step::More => {}
            Step::End => return Ok(None),
        }
    }
}

/// Reads the frames of a capture, classic pcap or pcapng, from a source. It holds 393,216 bytes of the capture and the
/// interfaces of its section, whatever the capture's length.
///
/// Each frame is borrowed from the bytes that were read, without a copy. The original length of a frame is ignored: the
/// captured bytes count. The frames and the fault are a function of the capture's bytes, in whatever pieces the source
/// returns them.
#[derive(Drop)]
pub struct CaptureReader {
    format: Format,
    window: Window,
    // Where the last frame is in the part with which the window begins.
    place: Place,
    // The length of this part. It is 0 without a frame.
    used: usize,
}

impl Model for CaptureReader {
    ghost use Rattle.std.specs.Prelude.{◌+◌, ◌≤◌, drop, length};
    ghost use Rattle.mold_pcap.specs.Captures.{frame_at};
    ghost use Rattle.mold_pcap.specs.Reading.{ReaderState};

    ghost Value = { ReaderState };

    ghost view = { λ r. record {
      format = r.format;
      frame = frame_at r.place r.window;
      rest = drop r.used r.window;
    } };

    ghost invariant = { λ r. (r.used ≤ length r.window) × (r.place.start + r.place.len ≤ r.used) };
}

impl CaptureReader {
    /// Makes a reader that has read nothing. It allocates all its memory here, some 430 KiB.
    pub fn new(alloc: Global) -> Result<CaptureReader, AllocError>
        ensures { IfOk result (λ reader. reader ≡ record { format = at_start; frame = no_frame; rest = [] }) }
    {
        Ok(CaptureReader {
            format: Format::new(alloc)?,
            window: Window::new(alloc)?,
            place: Place::empty(),
            used: 0,
        })
    }

    /// Returns the link type of the last frame. It is 0 without a frame.
    pub fn link(&self) -> u16
        ensures { result ≡ self.now.frame.link }
    {
        self.place.link
    }

    /// Returns the captured bytes of the last frame. They are empty before the first frame, and after the end or an
    /// error.
    pub fn frame(&self) -> &[u8]
        ensures { result.now ≡ self.now.frame.bytes }
    {
        let start = self.place.start;
        &self.window.rest()[start..start + self.place.len]
    }

    /// Returns the time of the last frame. There is none for a simple packet, for a time before 1970 or at 2^64
    /// seconds or later, and if the interface's unit is neither a power of 10 up to 19 nor one of 2 up to 63. A
    /// fraction of a classic record that is a second or more is carried over to the seconds. It is computed by this
    /// call.
    pub fn time(&self) -> Option<FrameTime>
        ensures time { result ≡ self.now.frame.time }
        ensures below { IfSome result (λ time. time.nanoseconds < 1000000000) }
    {
        self.place.stamp.time()
    }

    /// Returns the number of bytes of the capture up to the end of the last part that was passed: a record, a block or
    /// the head. It stays at `u64::MAX` once it is there. After a fault, the part at fault begins there.
    pub fn position(&self) -> u64
        ensures { result ≡ self.now.format.at }
    {
        self.format.at()
    }

    /// Reads the next frame, or returns false if the capture ends after a whole part. It allocates nothing, and takes
    /// up to 65,536 bytes with each read.
    ///
    /// `Read` means that a read failed, `Fault` that the capture's bytes have this fault. After an error or the end,
    /// the reader is spent: it has no frame, and each further call reads nothing and returns `Ok(false)`.
    pub fn advance<S: Source>(&mut self, source: &mut S) -> Result<bool, CaptureError>
        ensures frame { IfOk result (λ more. OnTrue more (GivesFrame
            self.old.format (prepend_known self.old.rest (S.left source.old)) self.new.frame
            self.new.format (prepend_known self.new.rest (S.left source.new)))) }
        ensures end { IfOk result (λ more. OnFalse more (GivesEnd
            self.old.format (prepend_known self.old.rest (S.left source.old)) None)) }
        ensures fault { IfErr result (GivesFault
            self.old.format (prepend_known self.old.rest (S.left source.old))) }
        ensures work { IfOk result (λ more. OnTrue more
            (work_left (S.bound source.new) self.new.rest < work_left (S.bound source.old) self.old.rest)) }
        ensures failures { CountsCapture (S.failed source.old) (S.failed source.new) result }
        ensures ended { IfOk result (λ more. OnFalse more (IsSpent self.new)) }
        ensures refused { OnErr result (IsSpent self.new) }
        ensures again { self.old.format.kind ≡ Spent → (result ≡ Ok false) × (source.new ≡ source.old) }
    {
        self.window.skip(self.used);
        self.place = Place::empty();
        self.used = 0;
        if self.format.is_spent() {
            return Ok(false);
        }
        match next_frame(&mut self.format, &mut self.window, source) {
            Ok(Some((place, used))) => {
                self.place = place;
                self.used = used;
                Ok(true)
            }
            Ok(None) => {
                self.format.spend();
                Ok(false)
            }
            Err(error) => {
                self.format.spend();
                Err(error)
            }
        }
    }
}
