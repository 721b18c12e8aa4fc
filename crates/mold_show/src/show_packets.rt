//! `mold show`: prints packets, given as lines of hexadecimal digits, field by field.

ghost use Rattle.std.specs.Prelude.{◌≡◌, ◌++◌, false, length, take, IfOk, OnErr};
ghost use Rattle.mold_show.specs.Show.{line_refused, line_text, packet_refused, packet_shown};
ghost use Rattle.mold_wire.specs.Reading.{reading};

use crate::show::{end_show, refuse_digits};
use mold_devices::{LineCommand, ReadFault, Source, Turn};
use mold_input::PacketLines;
use mold_text::{packet_fault_words, push_packet, push_refused};
use std::alloc::{AllocError, Global};
use std::marker::Model;

// Appends the text of the packet that the bytes encode, or why they encode none. Returns whether they are
// refused.
fn show_packet(bytes: &[u8], out: &mut Vec<u8>) -> Result<bool, AllocError>
    ensures text { IfOk result (λ _. out.new.items ≡ out.old.items ++ packet_shown (reading bytes.now)) }
    ensures refused { IfOk result (λ refused. refused ≡ packet_refused (reading bytes.now)) }
    ensures kept { OnErr result (take (length out.old.items) out.new.items ≡ out.old.items) }
{
    match mold_wire::decode(bytes) {
        Ok(packet) => {
            push_packet(out, &packet)?;
            Ok(false)
        }
        Err(fault) => {
            push_refused(out, &packet_fault_words(fault))?;
            Ok(true)
        }
    }
}

// Appends the text for a line, and returns whether the line is refused. The decoded bytes of the line replace
// the contents of `bytes`.
#[tactic(auto, unfolding(crate::specs::Show::line_text, crate::specs::Show::line_refused))]
fn show_line(line: &[u8], bytes: &mut Vec<u8>, out: &mut Vec<u8>) -> Result<bool, AllocError>
    ensures text { IfOk result (λ _. out.new.items ≡ out.old.items ++ line_text false line.now) }
    ensures refused { IfOk result (λ refused. refused ≡ line_refused false line.now) }
    ensures kept { OnErr result (take (length out.old.items) out.new.items ≡ out.old.items) }
{
    if line.is_empty() {
        return Ok(false);
    }
    if !mold_digits::decode(line, bytes)? {
        refuse_digits(out)?;
        return Ok(true);
    }
    show_packet(bytes.as_slice(), out)
}

/// The command `show`. It prints the packets that the lines of its input encode.
#[derive(Drop)]
pub struct ShowPackets {
    refused: bool,
    bytes: Vec<u8>,
}

impl Model for ShowPackets {
    ghost use Rattle.mold_show.specs.Show.{ShowState};

    ghost Value = { ShowState };

    ghost view = { λ s. record { refused = s.refused } };
}

impl ShowPackets {
    /// Makes the command before its first line. This allocates nothing.
    pub fn new(alloc: Global) -> ShowPackets
        ensures { result ≡ record { refused = false } }
    {
        ShowPackets {
            refused: false,
            bytes: Vec::new(alloc),
        }
    }
}

impl LineCommand for ShowPackets {
    ghost use Rattle.mold_show.specs.Show.{show_printing};

    type Reader = PacketLines;

    ghost prints = { show_printing false };

    fn turn<S: Source>(
        &mut self,
        lines: &mut PacketLines,
        source: &mut S,
        out: &mut Vec<u8>,
    ) -> Result<Turn, ReadFault> {
        if !lines.advance(source)? {
            return Ok(end_show(self.refused));
        }
        self.refused |= show_line(lines.line(), &mut self.bytes, out)?;
        Ok(Turn::More)
    }
}
