//! The line of a refused datagram: where it is in the captures.

ghost use Rattle.std.specs.Prelude.{◌≡◌, ◌++◌, OnOk};
ghost use Rattle.mold_capture_commands.specs.RefusedAt.{frame_words, name_words, place_line, target_words, time_words};
ghost use Rattle.mold_frame.specs.Lent.{lent_datagram};

use crate::address::push_number;
use crate::shown::{push_side, push_time};
use mold_frame::Datagram;
use mold_pcap::FrameTime;
use std::alloc::AllocError;

/// Where a frame is: its file, its number in the file, from 1 on, and its time.
#[derive(Clone, Copy, Debug, PartialEq, Eq)]
pub(crate) struct FramePlace<'a> {
    pub(crate) name: &'a [u8],
    pub(crate) frame: u64,
    pub(crate) time: Option<FrameTime>,
}

// Appends the numbers of the datagram and of its frame.
fn push_frame(text: &mut Vec<u8>, number: u64, frame: u64) -> Result<(), AllocError>
    ensures { OnOk result (text.new.items ≡ text.old.items ++ frame_words number frame) }
{
    text.extend_from_slice(b"datagram ")?;
    push_number(text, number)?;
    text.extend_from_slice(b" is frame ")?;
    push_number(text, frame)
}

// Appends the time of the frame.
fn push_when(text: &mut Vec<u8>, time: Option<FrameTime>) -> Result<(), AllocError>
    ensures { OnOk result (text.new.items ≡ text.old.items ++ time_words time) }
{
    text.extend_from_slice(b" at ")?;
    push_time(text, time)
}

// Appends the name of the file, and the end of the line.
fn push_name(text: &mut Vec<u8>, name: &[u8]) -> Result<(), AllocError>
    ensures { OnOk result (text.new.items ≡ text.old.items ++ name_words name.now) }
{
    text.extend_from_slice(b" of ")?;
    text.extend_from_slice(name)?;
    text.push(b'\n')?;
    Ok(())
}

// Appends the destination and the name of the file, and the end of the line.
fn push_target(text: &mut Vec<u8>, datagram: &Datagram<'_>, name: &[u8]) -> Result<(), AllocError>
    ensures { OnOk result (text.new.items ≡
        text.old.items ++ (target_words (lent_datagram datagram.now) ++ name_words name.now)) }
{
    push_side(text, b" to ", datagram.target, datagram.target_port)?;
    push_name(text, name)
}

/// Appends the line of the datagram with this number, whose frame is there.
#[tactic(auto, unfolding(crate::specs::RefusedAt::place_line))]
pub(crate) fn push_place(
    text: &mut Vec<u8>,
    number: u64,
    place: FramePlace<'_>,
    datagram: &Datagram<'_>,
) -> Result<(), AllocError>
    ensures { OnOk result (text.new.items ≡ text.old.items
        ++ place_line number place.entry.frame place.entry.time (lent_datagram datagram.now) place.entry.name.now) }
{
    push_frame(text, number, place.frame)?;
    push_when(text, place.time)?;
    push_target(text, datagram, place.name)
}
