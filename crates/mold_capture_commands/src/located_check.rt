//! Checks the frames of captures, and finds where the refused datagram is.

ghost use Rattle.std.specs.Prelude.{◌≡◌, IfErr, IfOk, IfSome, OnOk};
ghost use Rattle.mold_capture_commands.specs.Faults.{OnRead};
ghost use Rattle.mold_capture_commands.specs.RefusedAt.{LocatesPart, all_located, frame_located, name_begun};
ghost use Rattle.mold_capture_commands.specs.RefusedAt.{nothing_located};
ghost use Rattle.mold_devices.specs.Faults.{CountsRead};
ghost use Rattle.mold_pcap.specs.Captures.{capture_of};

use crate::filter::CaptureFilter;
use crate::found::Found;
use crate::frame_check::FrameCheck;
use crate::place::{FramePlace, push_place};
use crate::several::SessionsSeen;
use crate::watch::Watch;
use mold_check::Judge;
use mold_devices::{ReadFault, Source};
use mold_frame::read_frame;
use mold_pcap::{CaptureError, CaptureFault, CaptureReader};
use std::alloc::{AllocError, Global};
use std::marker::Model;

/// A check of the frames of captures that knows where the refused datagram is.
#[derive(Drop)]
pub(crate) struct LocatedCheck<J> {
    pub(crate) check: FrameCheck<J>,
    // The name of the current file, and its frames so far.
    name: Vec<u8>,
    frame: u64,
    /// The line of the refused datagram. It is empty without one.
    pub(crate) place: Vec<u8>,
    pub(crate) sessions: SessionsSeen,
}

impl<J> Model for LocatedCheck<J> {
    ghost use Rattle.mold_capture_commands.specs.RefusedAt.{LocatedState};

    ghost Value = { LocatedState J };

    ghost view = { λ c. record {
      check = c.check;
      name = c.name.items;
      frame = c.frame;
      place = c.place.items;
      sessions = c.sessions;
    } };
}

impl<J: Judge> LocatedCheck<J> {
    /// Returns a check of no frame that adds its datagrams to this judge. This allocates nothing.
    pub(crate) fn over(alloc: Global, judge: J) -> LocatedCheck<J>
        ensures { result ≡ nothing_located judge }
    {
        LocatedCheck {
            check: FrameCheck::over(alloc, judge),
            name: Vec::new(alloc),
            frame: 0,
            place: Vec::new(alloc),
            sessions: SessionsSeen::new(),
        }
    }

    /// Begins the file with this name.
    pub(crate) fn begin(&mut self, name: &[u8]) -> Result<(), AllocError>
        ensures { OnOk result (self.new ≡ name_begun self.old name.now) }
    {
        self.frame = 0;
        self.name.clear();
        self.name.extend_from_slice(name)?;
        Ok(())
    }

    // Takes the next frame, which is the last one of the reader. It returns an error if an allocation fails.
    #[inline(always)]
    fn take(&mut self, filter: &CaptureFilter, reader: &CaptureReader) -> Result<(), AllocError>
        ensures { OnOk result (self.new ≡ frame_located J.judging filter.now self.old reader.now.frame) }
    {
        let found = filter.find(read_frame(reader.link(), reader.frame()));
        self.frame = self.frame.saturating_add(1);
        let was_decided = self.check.judge.is_decided();
        self.check.take(found)?;
        let Found::Passed(datagram) = found else {
            return Ok(());
        };
        let is_decided = self.check.judge.is_decided();
        self.sessions.take(is_decided, datagram.payload);
        if is_decided && !was_decided {
            let place = FramePlace {
                name: self.name.as_slice(),
                frame: self.frame,
                time: reader.time(),
            };
            push_place(
                &mut self.place,
                self.check.counts.datagrams,
                place,
                &datagram,
            )?;
        }
        Ok(())
    }
}

/// Reads a capture and takes its frames. Returns the fault of the capture, if it has one. The frames before the fault
/// or before a failed read are taken. `watch` is called after each frame.
pub(crate) fn read_frames<J: Judge, S: Source, W: Watch>(
    alloc: Global,
    filter: &CaptureFilter,
    source: &mut S,
    check: &mut LocatedCheck<J>,
    watch: &mut W,
) -> Result<Option<CaptureFault>, ReadFault>
    ensures taken { IfOk result (λ fault. IfSome (S.left source.old) (λ bytes.
        (check.new ≡ all_located J.judging filter.now check.old (capture_of bytes).frames)
        × (fault ≡ (capture_of bytes).fault))) }
    ensures part { IfErr result (λ why. OnRead why (IfSome (S.left source.old) (λ bytes.
        LocatesPart J.judging filter.now check.old check.new (capture_of bytes).frames))) }
    ensures failures { CountsRead (S.failed source.old) (S.failed source.new) result }
{
    let mut reader = CaptureReader::new(alloc)?;
    'frames: loop {
        match reader.advance(source) {
            Ok(true) => {
                check.take(filter, &reader)?;
                watch.watch(reader.position(), check.check.counts.datagrams);
            }
            Ok(false) => return Ok(None),
            Err(CaptureError::Fault(fault)) => return Ok(Some(fault)),
            Err(CaptureError::Read) => return Err(ReadFault::Read),
        }
    }
}
