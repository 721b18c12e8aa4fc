//! `mold sessions --capture`: lists the destinations and sessions of captures.

ghost use Rattle.std.specs.Prelude.{◌≡◌, IfErr, IfOk, IfSome, OnOk};
ghost use Rattle.std.specs.Io.KnownBytes.{Appends};
ghost use Rattle.mold_capture_commands.specs.Faults.{OnRead};
ghost use Rattle.mold_capture_commands.specs.SessionState.{SessionsPart, no_sessions, sessions_taken};
ghost use Rattle.mold_capture_commands.specs.SessionState.{sessions_unread};
ghost use Rattle.mold_capture_commands.specs.SessionState.{state_status, state_text};
ghost use Rattle.mold_devices.specs.Devices.{AppendsPrefix};
ghost use Rattle.mold_devices.specs.Faults.{CountsRead, CountsSink};
ghost use Rattle.mold_pcap.specs.Captures.{capture_of};

use crate::counts::push_others;
use crate::faults::{push_fault, push_unread};
use crate::filter::CaptureFilter;
use crate::session_frames::{SessionFrames, read_sessions};
use crate::watch::Watch;
use mold_devices::{CommandFault, ReadFault, Sink, Source, send};
use std::alloc::{AllocError, Global};
use std::marker::Model;

/// The command `sessions --capture`: the destinations and sessions of the datagrams of captures, which are read one
/// after the other.
///
/// It keeps what it prints of each pair of destination and session, the counts of the frames, and the lines of the
/// files at fault.
#[derive(Drop)]
pub struct Sessions {
    frames: SessionFrames,
    // The lines of the files at fault.
    faults: Vec<u8>,
    at_fault: bool,
    alloc: Global,
}

impl Model for Sessions {
    ghost use Rattle.mold_capture_commands.specs.SessionState.{SessionState};

    ghost Value = { SessionState };

    ghost view = { λ s. record { frames = s.frames; faults = s.faults.items; at_fault = s.at_fault } };
}

impl Sessions {
    /// Returns a list of no sessions. This allocates nothing.
    pub fn new(alloc: Global) -> Sessions
        ensures { result ≡ no_sessions }
    {
        Sessions {
            frames: SessionFrames::new(alloc),
            faults: Vec::new(alloc),
            at_fault: false,
            alloc,
        }
    }

    /// Reads a capture and counts its datagrams that pass, after those of the captures before it. If the file is at
    /// fault, the datagrams before its fault are counted, and `print` reports the fault under the name. `watch` is
    /// called after each frame.
    ///
    /// The pairs are in a hash table, so the cost of a datagram does not grow with their number. The hash has a fixed
    /// seed, so a capture can be made whose hashes collide.
    ///
    /// `Read` is returned only if the source failed, `Memory` only if an allocation failed. The datagrams before a
    /// failed read are counted.
    pub fn read<S: Source, W: Watch>(
        &mut self,
        name: &[u8],
        filter: &CaptureFilter,
        source: &mut S,
        watch: &mut W,
    ) -> Result<(), ReadFault>
        ensures taken { OnOk result (IfSome (S.left source.old) (λ bytes.
            self.new ≡ sessions_taken filter.now self.old name.now bytes)) }
        ensures part { IfErr result (λ why. OnRead why (IfSome (S.left source.old) (λ bytes.
            SessionsPart filter.now self.old self.new (capture_of bytes).frames))) }
        ensures failures { CountsRead (S.failed source.old) (S.failed source.new) result }
    {
        if let Some(fault) = read_sessions(self.alloc, filter, source, watch, &mut self.frames)? {
            self.at_fault = true;
            push_fault(&mut self.faults, name, fault)?;
        }
        Ok(())
    }

    /// Notes that the file with this name can't be read from this byte on, after `read` has returned `Read` for it or
    /// without such a call. `print` reports the file. The datagrams that were read before count. It returns an error if
    /// an allocation fails.
    pub fn add_unread(&mut self, name: &[u8], at: u64) -> Result<(), AllocError>
        ensures { OnOk result (self.new ≡ sessions_unread self.old name.now at) }
    {
        self.at_fault = true;
        push_unread(&mut self.faults, name, at)
    }

    /// Writes a line for each pair of destination and session, the counts of the other frames and the lines of the
    /// files at fault, in pieces of 65,536 bytes or more. Returns the exit status: 2 if a file is at fault, otherwise
    /// 0. After a fault, a prefix of the text was written.
    ///
    /// `Write` is returned only if the sink failed, `Memory` only if an allocation failed, and `Read` never.
    pub fn print<K: Sink>(&self, sink: &mut K) -> Result<u8, CommandFault>
        ensures whole { IfOk result (λ status. Appends (K.held sink.old) (K.held sink.new)
            (state_text self.now) × (status ≡ state_status self.now)) }
        ensures front { AppendsPrefix (K.held sink.old) (K.held sink.new) (state_text self.now) }
        ensures failures { CountsSink (K.failed sink.old) (K.failed sink.new) result }
    {
        let mut text = Vec::new(self.alloc);
        self.frames.lines.print(sink, &mut text)?;
        push_others(&mut text, self.frames.counts)?;
        text.extend_from_slice(self.faults.as_slice())?;
        send(sink, &mut text)?;
        Ok(if self.at_fault { 2 } else { 0 })
    }
}
