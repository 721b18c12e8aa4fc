//! Packets as lines of hexadecimal digits.

ghost use Rattle.std.specs.Prelude.{◌≡◌, ◌<◌, [], true, IfOk};
ghost use Rattle.std.specs.Io.KnownBytes.{prepend_known};
ghost use Rattle.mold_devices.specs.Faults.{CountsRead};
ghost use Rattle.mold_devices.specs.Lines.{work_left};
ghost use Rattle.mold_input.specs.LongLines.{GivesStart};
ghost use Rattle.mold_input.specs.PacketLines.{content};

use crate::joining::{LINE_END, PIECE, join_line};
use crate::packet_part::PacketPart;
use crate::part::Part;
use memchr::memchr;
use mold_devices::{InputReader, Piece, ReadFault, Source};
use std::alloc::{AllocError, Global};
use std::marker::Model;

/// A reader of lines of packets. A line is borrowed from the bytes of one read, without a copy, if that read contains
/// the whole line. A line that spans several reads is kept whole while it can still hold a packet. Once it can only be
/// refused, a shorter line with the same fault takes its place. The memory that a line takes is in proportion to the
/// length at which it can only be refused.
#[derive(Drop)]
pub struct PacketLines {
    piece: Box<Piece<PIECE>>,
    part: PacketPart,
    inside: Option<usize>,
}

impl Model for PacketLines {
    ghost use Rattle.std.specs.Prelude.{◌<◌, length};
    ghost use Rattle.std.specs.Option.{ForSome};
    ghost use Rattle.mold_devices.specs.Lines.{LineState, line_in, rest_in};
    ghost use Rattle.mold_input.specs.declared.joining.TheConstants.{PIECE};

    ghost Value = { LineState };

    ghost view = { λ l. record {
      line = line_in l.inside l.part l.piece.value;
      rest = rest_in l.inside l.piece.value;
    } };

    ghost invariant = { λ l. ForSome l.inside (λ len. (len < length l.piece.value) × (len < PIECE)) };
}

impl PacketLines {
    /// Makes a reader with no line yet. It fails if the allocation of its buffer fails.
    pub fn new(alloc: Global) -> Result<PacketLines, AllocError>
        ensures { IfOk result (λ lines. lines.rest ≡ []) }
    {
        Ok(PacketLines {
            piece: Box::new(alloc, Piece::new())?,
            part: PacketPart::new(alloc),
            inside: None,
        })
    }

    /// Returns the line that `advance` found last, without the byte that ends it. If the line holds no packet, this may
    /// be a shorter line with the same fault.
    pub fn line(&self) -> &[u8]
        ensures { result.now ≡ self.now.line }
    {
        match self.inside {
            Some(len) => &self.piece.rest()[..len],
            None => self.part.kept(),
        }
    }

    /// Moves to the next line and returns whether there is one. It reads only if no whole line was read already, and
    /// allocates only for a line that spans several reads or has no end of line. After a fault, the part of the line
    /// that was read is lost.
    pub fn advance<S: Source>(&mut self, source: &mut S) -> Result<bool, ReadFault>
        ensures line { IfOk result (λ found. GivesStart content
            (prepend_known self.old.rest (S.left source.old))
            (prepend_known self.new.rest (S.left source.new)) found self.new.line) }
        ensures work { IfOk result (λ found. found ≡ true →
            work_left (S.bound source.new) self.new.rest < work_left (S.bound source.old) self.old.rest) }
        ensures failures { CountsRead (S.failed source.old) (S.failed source.new) result }
    {
        if let Some(len) = self.inside {
            self.piece.skip(len + 1);
            self.inside = None;
        }
        self.part.clear();
        if let Some(at) = memchr(LINE_END, self.piece.rest()) {
            self.inside = Some(at);
            return Ok(true);
        }
        join_line(&mut self.piece, &mut self.part, source)
    }
}

impl InputReader for PacketLines {
    ghost unread = { λ l. l.rest };

    fn new(alloc: Global) -> Result<PacketLines, AllocError> {
        PacketLines::new(alloc)
    }
}
