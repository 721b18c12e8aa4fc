//! Judges the frames of captures one by one.

ghost use Rattle.std.specs.Prelude.{◌≡◌, OnOk};
ghost use Rattle.mold_capture_commands.specs.Filter.{lent_found};
ghost use Rattle.mold_capture_commands.specs.FrameChecking.{beginning, taken};
ghost use Rattle.mold_capture_commands.specs.Targets.{aimed, destination_of};
ghost use Rattle.mold_frame.specs.Lent.{lent_datagram};

use crate::counts::CaptureCounts;
use crate::found::Found;
use crate::targets::Targets;
use mold_check::Judge;
use mold_frame::Datagram;
use std::alloc::{AllocError, Global};

/// A check of the frames of captures.
#[derive(Drop)]
pub(crate) struct FrameCheck<J> {
    pub(crate) counts: CaptureCounts,
    pub(crate) judge: J,
    pub(crate) targets: Targets,
}

impl<J: Judge> FrameCheck<J> {
    /// Returns a check of no frame that adds its datagrams to this judge. This allocates nothing.
    pub(crate) fn over(alloc: Global, judge: J) -> FrameCheck<J>
        ensures { result ≡ beginning judge }
    {
        FrameCheck {
            counts: CaptureCounts::new(),
            judge,
            targets: Targets::new(alloc),
        }
    }

    // Judges the next datagram that passes.
    fn add(&mut self, datagram: &Datagram<'_>) -> Result<(), AllocError>
        ensures judge { OnOk result (self.new.judge ≡
            J.judging.added self.old.judge self.old.counts.datagrams datagram.now.payload.now) }
        ensures targets { OnOk result (self.new.targets ≡ aimed self.old.targets (J.judging.decided self.old.judge)
            (J.judging.decided self.new.judge) (destination_of (lent_datagram datagram.now))) }
        ensures counts { self.new.counts ≡ self.old.counts }
    {
        let before = self.judge.is_decided();
        self.judge.add(self.counts.datagrams, datagram.payload)?;
        self.targets.take(before, self.judge.is_decided(), datagram)
    }

    /// Takes the next frame. It returns an error if an allocation fails.
    #[inline(always)]
    pub(crate) fn take(&mut self, found: Found<'_>) -> Result<(), AllocError>
        ensures { OnOk result (self.new ≡ taken J.judging self.old (lent_found found.entry)) }
    {
        self.counts.add(&found);
        match found {
            Found::Passed(datagram) => self.add(&datagram),
            Found::Skipped | Found::Partial | Found::Unread => Ok(()),
        }
    }
}
