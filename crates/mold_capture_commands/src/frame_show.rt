//! Prints the datagrams of a capture one by one.

ghost use Rattle.std.specs.Prelude.{◌≡◌, ◌++◌, ◌||◌, [], false, length, take, IfOk, IfSome, OnErr, OnOk};
ghost use Rattle.std.specs.Io.KnownBytes.{Appends, prepend_known};
ghost use Rattle.mold_capture_commands.specs.CaptureShow.{ending_of, frames_text};
ghost use Rattle.mold_capture_commands.specs.Showing.{HasLess, HasPrinted, IsNext};
ghost use Rattle.mold_devices.specs.Devices.{AppendsPrefix};
ghost use Rattle.mold_devices.specs.Faults.{CountsCommand, CountsRead};
ghost use Rattle.mold_devices.specs.Lines.{work_left};
ghost use Rattle.mold_pcap.specs.Captures.{capture_of};

use crate::filter::CaptureFilter;
use crate::found::Found;
use crate::shown::push_datagram;
use mold_devices::{CommandFault, ReadFault, Sink, Source, end_with, send, send_large};
use mold_frame::read_frame;
use mold_pcap::{CaptureError, CaptureFault, CaptureReader};
use std::alloc::{AllocError, Global};

/// What is known after a capture was printed.
#[derive(Clone, Copy, Debug, PartialEq, Eq)]
pub(crate) struct Ending {
    /// Whether a datagram that passes was refused.
    pub(crate) refused: bool,
    /// The fault of the capture, if it has one.
    pub(crate) fault: Option<CaptureFault>,
}

// What one call of `print_next` did.
#[derive(Clone, Copy, Debug, PartialEq, Eq)]
enum Next {
    Printed,
    // The capture has no further frame, and it has this fault.
    Ended(Option<CaptureFault>),
}

// The text that is not written yet, and whether a datagram was refused.
#[derive(Drop)]
struct Unsent {
    text: Vec<u8>,
    refused: bool,
}

impl Unsent {
    // Prints the last frame of the reader.
    fn print(&mut self, filter: &CaptureFilter, reader: &CaptureReader) -> Result<(), AllocError>
        ensures printed { OnOk result (HasPrinted filter.now reader.now.frame self.old self.new) }
        ensures kept { OnErr result (take (length self.old.text.items) self.new.text.items ≡ self.old.text.items) }
    {
        if let Found::Passed(datagram) = filter.find(read_frame(reader.link(), reader.frame())) {
            self.refused |= push_datagram(&mut self.text, reader.time(), &datagram)?;
        }
        Ok(())
    }
}

// Reads and prints the next frame.
fn print_next<S: Source>(
    reader: &mut CaptureReader,
    filter: &CaptureFilter,
    source: &mut S,
    unsent: &mut Unsent,
) -> Result<Next, ReadFault>
    ensures next { IfOk result (λ next. IsNext next filter.now
        reader.old.format (prepend_known reader.old.rest (S.left source.old)) reader.new.frame
        reader.new.format (prepend_known reader.new.rest (S.left source.new)) unsent.old unsent.new) }
    ensures kept { OnErr result (take (length unsent.old.text.items) unsent.new.text.items ≡ unsent.old.text.items) }
    ensures work { IfOk result (λ next. HasLess next (S.bound source.new) reader.new.rest
        (work_left (S.bound source.old) reader.old.rest)) }
    ensures failures { CountsRead (S.failed source.old) (S.failed source.new) result }
{
    match reader.advance(source) {
        Ok(true) => {
            unsent.print(filter, reader)?;
            Ok(Next::Printed)
        }
        Ok(false) => Ok(Next::Ended(None)),
        Err(CaptureError::Fault(fault)) => Ok(Next::Ended(Some(fault))),
        Err(CaptureError::Read) => Err(ReadFault::Read),
    }
}

/// Reads a capture and prints its datagrams that pass, in pieces of at least 65,536 bytes and the rest at the end. The
/// frames before a fault of the capture are printed. After a failed read or allocation, the text of the earlier frames
/// is written.
pub(crate) fn print_frames<S: Source, K: Sink>(
    alloc: Global,
    filter: &CaptureFilter,
    source: &mut S,
    sink: &mut K,
) -> Result<Ending, CommandFault>
    ensures whole { IfOk result (λ ending. IfSome (S.left source.old) (λ bytes.
        Appends (K.held sink.old) (K.held sink.new) (frames_text filter.now (capture_of bytes).frames)
        × (ending ≡ ending_of filter.now (capture_of bytes)))) }
    ensures front { IfSome (S.left source.old) (λ bytes.
        AppendsPrefix (K.held sink.old) (K.held sink.new) (frames_text filter.now (capture_of bytes).frames)) }
    ensures failures { CountsCommand (S.failed source.old) (S.failed source.new)
        (K.failed sink.old) (K.failed sink.new) result }
{
    let mut reader = CaptureReader::new(alloc)?;
    let mut unsent = Unsent {
        text: Vec::new(alloc),
        refused: false,
    };
    'frames: loop {
        let printed = unsent.text.len();
        match print_next(&mut reader, filter, source, &mut unsent) {
            Ok(Next::Printed) => send_large(sink, &mut unsent.text)?,
            Ok(Next::Ended(fault)) => {
                send(sink, &mut unsent.text)?;
                return Ok(Ending {
                    refused: unsent.refused,
                    fault,
                });
            }
            Err(fault) => return Err(end_with(sink, &mut unsent.text, printed, fault.into())),
        }
    }
}
