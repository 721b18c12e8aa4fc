//! Reads the frames of captures for their sessions.

ghost use Rattle.std.specs.Prelude.{◌≡◌, IfErr, IfOk, IfSome, OnOk};
ghost use Rattle.mold_capture_commands.specs.Faults.{OnRead};
ghost use Rattle.mold_capture_commands.specs.FrameChecking.{founds};
ghost use Rattle.mold_capture_commands.specs.Filter.{lent_found};
ghost use Rattle.mold_capture_commands.specs.SessionState.{CountsPart, HasTarget, all_counted, frame_counted};
ghost use Rattle.mold_capture_commands.specs.SessionState.{nothing_counted};
ghost use Rattle.mold_devices.specs.Faults.{CountsRead};
ghost use Rattle.mold_pcap.specs.Captures.{capture_of};

use crate::counts::CaptureCounts;
use crate::filter::CaptureFilter;
use crate::found::Found;
use crate::pair_lines::PairLines;
use crate::watch::Watch;
use mold_devices::{ReadFault, Source};
use mold_frame::laws::address_law;
use mold_frame::read_frame;
use mold_pcap::{CaptureError, CaptureFault, CaptureReader};
use std::alloc::{AllocError, Global};

/// What is counted of the frames of captures.
#[derive(Drop)]
pub(crate) struct SessionFrames {
    pub(crate) counts: CaptureCounts,
    pub(crate) lines: PairLines,
}

impl SessionFrames {
    /// Returns the counts of no frame. This allocates nothing.
    pub(crate) fn new(alloc: Global) -> SessionFrames
        ensures { result ≡ nothing_counted }
    {
        SessionFrames {
            counts: CaptureCounts::new(),
            lines: PairLines::new(alloc),
        }
    }

    // Counts the next frame. It returns an error if an allocation fails.
    #[inline(always)]
    fn take(&mut self, found: Found<'_>) -> Result<(), AllocError>
        requires { HasTarget (lent_found found) }
        ensures { OnOk result (self.new ≡ frame_counted self.old (lent_found found.entry)) }
    {
        self.counts.add(&found);
        self.lines.take(found)
    }
}

/// Reads a capture and counts its frames. Returns the fault of the capture, if it has one. The frames before the fault
/// or before a failed read are counted. `watch` is called after each frame.
pub(crate) fn read_sessions<S: Source, W: Watch>(
    alloc: Global,
    filter: &CaptureFilter,
    source: &mut S,
    watch: &mut W,
    sessions: &mut SessionFrames,
) -> Result<Option<CaptureFault>, ReadFault>
    ensures taken { IfOk result (λ fault. IfSome (S.left source.old) (λ bytes.
        (sessions.new ≡ all_counted sessions.old (founds filter.now (capture_of bytes).frames))
        × (fault ≡ (capture_of bytes).fault))) }
    ensures part { IfErr result (λ why. OnRead why (IfSome (S.left source.old) (λ bytes.
        CountsPart filter.now sessions.old sessions.new (capture_of bytes).frames))) }
    ensures failures { CountsRead (S.failed source.old) (S.failed source.new) result }
{
    address_law();
    let mut reader = CaptureReader::new(alloc)?;
    'frames: loop {
        match reader.advance(source) {
            Ok(true) => {
                sessions.take(filter.find(read_frame(reader.link(), reader.frame())))?;
                watch.watch(reader.position(), sessions.counts.datagrams);
            }
            Ok(false) => return Ok(None),
            Err(CaptureError::Fault(fault)) => return Ok(Some(fault)),
            Err(CaptureError::Read) => return Err(ReadFault::Read),
        }
    }
}
