//! The lines of the files that are at fault.

ghost use Rattle.std.specs.Prelude.{◌≡◌, ◌++◌, Some, length, take, OnErr, OnOk};
ghost use Rattle.mold_capture_commands.specs.Faults.{at_text, fault_text, unread_text};

use mold_pcap::CaptureFault;
use mold_text::{Word, push_line};
use std::alloc::AllocError;

// Appends the line of a file whose part at this byte is at fault.
fn push_at<'a>(
    text: &mut Vec<u8>,
    name: &'a [u8],
    fault: &'a [u8],
    at: u64,
) -> Result<(), AllocError>
    ensures line { OnOk result (text.new.items ≡ text.old.items ++ at_text name.now fault.now at) }
    ensures kept { OnErr result (take (length text.old.items) text.new.items ≡ text.old.items) }
{
    push_line(
        text,
        &[
            Word::Text(b"capture"),
            Word::Text(name),
            Word::Text(fault),
            Word::Number(at),
        ],
    )
}

/// Appends the line of the file with this name, which can't be read from this byte on.
pub(crate) fn push_unread(text: &mut Vec<u8>, name: &[u8], at: u64) -> Result<(), AllocError>
    ensures line { OnOk result (text.new.items ≡ text.old.items ++ unread_text name.now at) }
    ensures kept { OnErr result (take (length text.old.items) text.new.items ≡ text.old.items) }
{
    push_at(text, name, b"Unread", at)
}

/// Appends the line of the file with this name, which has this fault.
pub(crate) fn push_fault(
    text: &mut Vec<u8>,
    name: &[u8],
    fault: CaptureFault,
) -> Result<(), AllocError>
    ensures line { OnOk result (text.new.items ≡ text.old.items ++ fault_text name.now (Some fault)) }
    ensures kept { OnErr result (take (length text.old.items) text.new.items ≡ text.old.items) }
{
    match fault {
        CaptureFault::Cut { at } => push_at(text, name, b"Cut", at),
        CaptureFault::TooLong { at } => push_at(text, name, b"TooLong", at),
        CaptureFault::BadBlock { at } => push_at(text, name, b"BadBlock", at),
        CaptureFault::NoInterface { at } => push_at(text, name, b"NoInterface", at),
        CaptureFault::NoCapture => push_line(
            text,
            &[
                Word::Text(b"capture"),
                Word::Text(name),
                Word::Text(b"NoCapture"),
            ],
        ),
    }
}
