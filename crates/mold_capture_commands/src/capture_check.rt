//! `mold check --capture`: checks the datagrams of captures.

ghost use Rattle.std.specs.Prelude.{◌≡◌, ◌++◌, IfErr, IfOk, IfSome, OnOk};
ghost use Rattle.std.specs.Io.KnownBytes.{Appends};
ghost use Rattle.mold_capture_commands.specs.Checking.{TakesPart, check_status, check_text, file_taken};
ghost use Rattle.mold_capture_commands.specs.Checking.{file_unread, leaves_out_partial};
ghost use Rattle.mold_capture_commands.specs.Checking.{no_captures, no_captures_over};
ghost use Rattle.mold_capture_commands.specs.Counts.{counts_text};
ghost use Rattle.mold_capture_commands.specs.Faults.{OnRead};
ghost use Rattle.mold_devices.specs.Devices.{AppendsPrefix};
ghost use Rattle.mold_devices.specs.Faults.{CountsRead, CountsSink};
ghost use Rattle.mold_pcap.specs.Captures.{capture_of};

use crate::counts::push_counts;
use crate::faults::{push_fault, push_unread};
use crate::filter::CaptureFilter;
use crate::located_check::{LocatedCheck, read_frames};
use crate::watch::Watch;
use mold_check::{Counted, FreshJudge, Judge};
use mold_devices::{CommandFault, ReadFault, Sink, Source, send};
use std::alloc::{AllocError, Global};
use std::marker::Model;

/// The command `check --capture`: a check of the datagrams of captures, which are read one after the other. A judge finds
/// the outcome: `DatagramCheck` for one session, `EachCheck` for each session by itself, and `Digested` by digest.
///
/// It keeps the messages that the judge stores, the lines of the files at fault, the destination of the first accepted
/// datagram, the line of the refused one and the name of the current file.
#[derive(Drop)]
pub struct CaptureCheck<J> {
    frames: LocatedCheck<J>,
    // The lines of the files at fault.
    faults: Vec<u8>,
    at_fault: bool,
    alloc: Global,
}

impl<J> Model for CaptureCheck<J> {
    ghost use Rattle.mold_capture_commands.specs.Checking.{CheckState};

    ghost Value = { CheckState J };

    ghost view = { λ c. record {
      counts = c.frames.check.counts;
      judge = c.frames.check.judge;
      targets = c.frames.check.targets;
      place = c.frames.place;
      sessions = c.frames.sessions;
      faults = c.faults.items;
      at_fault = c.at_fault;
    } };
}

impl<J: FreshJudge> CaptureCheck<J> {
    /// Returns a check of no capture, with a new judge. This allocates nothing.
    pub fn new(alloc: Global) -> CaptureCheck<J>
        ensures { result ≡ no_captures J.judging }
    {
        CaptureCheck::over(alloc, J::new(alloc))
    }
}

impl<J: Judge> CaptureCheck<J> {
    /// Returns a check of no capture that adds its datagrams to this judge. This allocates nothing.
    pub fn over(alloc: Global, judge: J) -> CaptureCheck<J>
        ensures { result ≡ no_captures_over judge }
    {
        CaptureCheck {
            frames: LocatedCheck::over(alloc, judge),
            faults: Vec::new(alloc),
            at_fault: false,
            alloc,
        }
    }

    /// Reads a capture and checks its datagrams that pass, after those of the captures before it. If the file is at
    /// fault, the datagrams before its fault are checked, and `print` reports the fault under the name. `watch` is
    /// called after each frame; it has no effect on the outcome.
    ///
    /// `Read` is returned only if the source failed, `Memory` only if an allocation failed. The datagrams before a
    /// failed read are checked.
    pub fn read<S: Source, W: Watch>(
        &mut self,
        name: &[u8],
        filter: &CaptureFilter,
        source: &mut S,
        watch: &mut W,
    ) -> Result<(), ReadFault>
        ensures taken { OnOk result (IfSome (S.left source.old) (λ bytes.
            self.new ≡ file_taken J.judging filter.now self.old name.now bytes)) }
        ensures part { IfErr result (λ why. OnRead why (IfSome (S.left source.old) (λ bytes.
            TakesPart J.judging filter.now self.old self.new name.now (capture_of bytes).frames))) }
        ensures failures { CountsRead (S.failed source.old) (S.failed source.new) result }
    {
        self.frames.begin(name)?;
        if let Some(fault) = read_frames(self.alloc, filter, source, &mut self.frames, watch)? {
            self.at_fault = true;
            push_fault(&mut self.faults, name, fault)?;
        }
        Ok(())
    }

    /// Notes that the file with this name can't be read from this byte on, after `read` has returned `Read` for it or
    /// without such a call. `print` reports the file. The datagrams that were read before count. It returns an error if
    /// an allocation fails.
    pub fn add_unread(&mut self, name: &[u8], at: u64) -> Result<(), AllocError>
        ensures { OnOk result (self.new ≡ file_unread self.old name.now at) }
    {
        self.at_fault = true;
        push_unread(&mut self.faults, name, at)
    }

    /// Returns whether the first refused datagram has another destination than the first accepted one: another address
    /// or another port. If so, the files may have several sessions, which `mold sessions` lists. It is false if no
    /// datagram is refused, if the first datagram is refused, and always with an `EachCheck`.
    pub fn sees_other_target(&self) -> bool
        ensures { result ≡ self.now.targets.other }
    {
        self.frames.check.targets.other()
    }

    /// Returns the line that states where the refused datagram is: `datagram K is frame F at TIME to ADDR of NAME`,
    /// where `F` counts the frames of the file from 1. It is empty if no datagram is refused, and always with an
    /// `EachCheck`.
    pub fn place(&self) -> &[u8]
        ensures { result.now ≡ self.now.place }
    {
        self.frames.place.as_slice()
    }

    /// Returns whether the refused datagram or a later one encodes a packet of another session than the first packet.
    /// It is false if no datagram is refused, and always with an `EachCheck`.
    pub fn sees_several_sessions(&self) -> bool
        ensures { result ≡ self.now.sessions.several }
    {
        self.frames.sessions.several
    }

    /// Returns whether a session is whole although partial datagrams were left out. It returns an error if an allocation
    /// fails.
    pub fn leaves_out_partial(&self) -> Result<bool, AllocError>
        ensures { IfOk result (λ out. out ≡ leaves_out_partial J.judging self.now) }
    {
        if self.frames.check.counts.partial == 0 {
            return Ok(false);
        }
        self.frames.check.judge.is_whole()
    }

    /// Returns the judge of the datagrams so far.
    pub fn judge(&self) -> &J
        ensures { result.now ≡ self.now.judge }
    {
        &self.frames.check.judge
    }

    /// Returns whether a file is at fault.
    pub fn is_at_fault(&self) -> bool
        ensures { result ≡ self.now.at_fault }
    {
        self.at_fault
    }

    /// Writes the counts of the frames and the lines of the files at fault. After a fault, a prefix of this was written.
    /// `Write` is returned only if the sink failed, `Memory` only if an allocation failed, and `Read` never.
    pub fn print_counts<K: Sink>(&self, sink: &mut K) -> Result<(), CommandFault>
        ensures whole { OnOk result (Appends (K.held sink.old) (K.held sink.new)
            (counts_text self.now.counts ++ self.now.faults)) }
        ensures front { AppendsPrefix (K.held sink.old) (K.held sink.new)
            (counts_text self.now.counts ++ self.now.faults) }
        ensures failures { CountsSink (K.failed sink.old) (K.failed sink.new) result }
    {
        let mut text = Vec::new(self.alloc);
        push_counts(&mut text, self.frames.check.counts)?;
        text.extend_from_slice(self.faults.as_slice())?;
        send(sink, &mut text)
    }

    /// Writes the counts of the frames, the lines of the files at fault and the outcome of the datagrams, and returns
    /// the exit status: 2 if a file is at fault or a datagram is refused, otherwise 0 whole and 1 incomplete. After a
    /// fault, a prefix of the text was written.
    ///
    /// `Write` is returned only if the sink failed, `Memory` only if an allocation failed, and `Read` never.
    pub fn print<K: Sink>(&self, sink: &mut K) -> Result<u8, CommandFault>
        ensures whole { IfOk result (λ status. Appends (K.held sink.old) (K.held sink.new)
            (check_text J.judging self.now) × (status ≡ check_status J.judging self.now)) }
        ensures front { AppendsPrefix (K.held sink.old) (K.held sink.new) (check_text J.judging self.now) }
        ensures failures { CountsSink (K.failed sink.old) (K.failed sink.new) result }
    {
        let mut text = Vec::new(self.alloc);
        push_counts(&mut text, self.frames.check.counts)?;
        text.extend_from_slice(self.faults.as_slice())?;
        let status = self
            .frames
            .check
            .judge
            .print(sink, &mut text, &Counted { word: b"datagram" })?;
        if self.at_fault {
            return Ok(2);
        }
        Ok(status)
    }
}
