//! Messages as lines of hexadecimal digits.

ghost use Rattle.std.specs.Prelude.{◌≡◌, ◌<◌, [], IfOk};
ghost use Rattle.std.specs.Io.KnownBytes.{prepend_known};
ghost use Rattle.mold_devices.specs.Faults.{CountsRead};
ghost use Rattle.mold_devices.specs.Lines.{work_left};
ghost use Rattle.mold_input.specs.Entries.{GivesNext, IsEntryFound, known_entries, line_entries};
ghost use Rattle.mold_input.specs.declared.input_kind.InputKind.TheVariants as kind;

use crate::input_kind::InputKind;
use crate::joining::{LINE_END, PIECE, join_line};
use crate::line_part::{LinePart, read_line};
use crate::message_reader::MessageReader;
use crate::next::Next;
use memchr::memchr;
use mold_devices::{InputReader, Piece, ReadFault, Source};
use std::alloc::{AllocError, Global};
use std::marker::Model;

/// A reader of lines of hexadecimal digits. Each line is one message; an empty line is an empty message. It keeps at
/// most `MAX_LINE` bytes of a line.
#[derive(Drop)]
pub struct HexLines {
    piece: Box<Piece<PIECE>>,
    part: LinePart,
    message: Vec<u8>,
}

impl Model for HexLines {
    ghost use Rattle.mold_input.specs.Entries.{ReaderState};

    ghost Value = { ReaderState };

    ghost view = { λ h. record { message = h.message.items; unread = h.piece.value } };
}

impl InputReader for HexLines {
    ghost unread = { λ h. h.unread };

    fn new(alloc: Global) -> Result<HexLines, AllocError> {
        Ok(HexLines {
            piece: Box::new(alloc, Piece::new())?,
            part: LinePart::new(alloc),
            message: Vec::new(alloc),
        })
    }
}

impl MessageReader for HexLines {
    ghost entries = { line_entries };

    ghost input_kind = { kind.Lines };

    ghost found = { λ h. h.message };

    fn kind() -> InputKind {
        InputKind::Lines
    }

    // Each line reduces the remaining work, even if it is not a message. So a command can continue after a fault.
    fn advance<S: Source>(&mut self, source: &mut S) -> Result<Next, ReadFault>
        ensures next { IfOk result (λ next. GivesNext
            (known_entries line_entries (prepend_known self.old.unread (S.left source.old)))
            (known_entries line_entries (prepend_known self.new.unread (S.left source.new))) next self.new.message) }
        ensures work { IfOk result (λ next. IsEntryFound next →
            work_left (S.bound source.new) self.new.unread < work_left (S.bound source.old) self.old.unread) }
        ensures failures { CountsRead (S.failed source.old) (S.failed source.new) result }
    {
        if let Some(at) = memchr(LINE_END, self.piece.rest()) {
            let next = read_line(&self.piece.rest()[..at], &mut self.message)?;
            self.piece.skip(at + 1);
            return Ok(next);
        }
        self.part.clear();
        if !join_line(&mut self.piece, &mut self.part, source)? {
            return Ok(Next::End);
        }
        Ok(self.part.read(&mut self.message)?)
    }

    fn message(&self) -> &[u8] {
        self.message.as_slice()
    }
}
