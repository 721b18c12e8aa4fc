//! `mold show --capture`: prints the datagrams of captures.

ghost use Rattle.std.specs.Prelude.{◌≡◌, IfErr, IfOk, IfSome, OnOk};
ghost use Rattle.std.specs.Io.KnownBytes.{Appends};
ghost use Rattle.mold_capture_commands.specs.CaptureShow.{capture_shown, capture_unread, frames_text};
ghost use Rattle.mold_capture_commands.specs.CaptureShow.{nothing_shown, show_status};
ghost use Rattle.mold_devices.specs.Devices.{AppendsPrefix};
ghost use Rattle.mold_devices.specs.Faults.{CountsCommand, CountsSink};
ghost use Rattle.mold_pcap.specs.Captures.{capture_of};

use crate::faults::{push_fault, push_unread};
use crate::filter::CaptureFilter;
use crate::frame_show::print_frames;
use mold_devices::{CommandFault, Sink, Source, write_all};
use std::alloc::{AllocError, Global};
use std::marker::Model;

/// The command `show --capture`: prints the datagrams of captures, which are read one after the other.
///
/// It keeps only the lines of the files at fault.
#[derive(Drop)]
pub struct CaptureShow {
    refused: bool,
    // The lines of the files at fault.
    faults: Vec<u8>,
    at_fault: bool,
    alloc: Global,
}

impl Model for CaptureShow {
    ghost use Rattle.mold_capture_commands.specs.CaptureShow.{ShowState};

    ghost Value = { ShowState };

    ghost view = { λ s. record { refused = s.refused; faults = s.faults.items; at_fault = s.at_fault } };
}

impl CaptureShow {
    /// Makes the command before its first file. This allocates nothing.
    pub fn new(alloc: Global) -> CaptureShow
        ensures { result ≡ nothing_shown }
    {
        CaptureShow {
            refused: false,
            faults: Vec::new(alloc),
            at_fault: false,
            alloc,
        }
    }

    /// Reads a capture and writes the lines of its datagrams that pass. If the file is at fault, the datagrams before
    /// its fault are printed, and `end` reports the fault under the name. After a fault, a prefix of the lines was
    /// written.
    ///
    /// `Read` is returned only if the source failed, `Write` only if the sink failed, `Memory` only if an allocation
    /// failed. It holds some 430 KiB and less than 65,536 bytes of text besides the lines of one datagram.
    pub fn read<S: Source, K: Sink>(
        &mut self,
        name: &[u8],
        filter: &CaptureFilter,
        source: &mut S,
        sink: &mut K,
    ) -> Result<(), CommandFault>
        ensures shown { OnOk result (IfSome (S.left source.old) (λ bytes.
            self.new ≡ capture_shown filter.now self.old name.now (capture_of bytes))) }
        ensures part { IfErr result (λ why. why ≡ CommandFault.Read → self.new ≡ self.old) }
        ensures whole { OnOk result (IfSome (S.left source.old) (λ bytes.
            Appends (K.held sink.old) (K.held sink.new) (frames_text filter.now (capture_of bytes).frames))) }
        ensures front { IfSome (S.left source.old) (λ bytes.
            AppendsPrefix (K.held sink.old) (K.held sink.new) (frames_text filter.now (capture_of bytes).frames)) }
        ensures failures { CountsCommand (S.failed source.old) (S.failed source.new)
            (K.failed sink.old) (K.failed sink.new) result }
    {
        let ending = print_frames(self.alloc, filter, source, sink)?;
        self.refused |= ending.refused;
        if let Some(fault) = ending.fault {
            self.at_fault = true;
            push_fault(&mut self.faults, name, fault)?;
        }
        Ok(())
    }

    /// Notes that the capture with this name can't be read from this byte on, after `read` has returned `Read` for it
    /// or without such a call. `end` reports the capture. It returns an error if an allocation fails.
    pub fn add_unread(&mut self, name: &[u8], at: u64) -> Result<(), AllocError>
        ensures { OnOk result (self.new ≡ capture_unread self.old name.now at) }
    {
        self.at_fault = true;
        push_unread(&mut self.faults, name, at)
    }

    /// Writes the lines of the files at fault, and returns the exit status: 2 if a datagram is refused or a file is at
    /// fault, otherwise 0. After a fault, a prefix of the lines was written. It allocates nothing.
    ///
    /// `Write` is returned only if the sink failed, and no other fault.
    pub fn end<K: Sink>(&self, sink: &mut K) -> Result<u8, CommandFault>
        ensures whole { IfOk result (λ status. Appends (K.held sink.old) (K.held sink.new) self.now.faults
            × (status ≡ show_status self.now)) }
        ensures front { AppendsPrefix (K.held sink.old) (K.held sink.new) self.now.faults }
        ensures failures { CountsSink (K.failed sink.old) (K.failed sink.new) result }
    {
        let Ok(()) = write_all(sink, self.faults.as_slice()) else {
            return Err(CommandFault::Write);
        };
        if self.refused || self.at_fault {
            return Ok(2);
        }
        Ok(0)
    }
}
