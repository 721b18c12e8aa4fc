//! `mold show --request`: prints requests, given as lines of hexadecimal digits, field by field.

ghost use Rattle.std.specs.Prelude.{◌≡◌, ◌++◌, false, true, length, take, IfOk, OnErr, OnOk};
ghost use Rattle.mold_show.specs.ShowRequests.{line_fault_words, message_refused, message_text};
ghost use Rattle.mold_text.specs.Text.{refused_line};

use crate::show::{end_show, refuse_digits};
use mold_devices::{LineCommand, ReadFault, Source, Turn};
use mold_input::{HexLines, InputFault, MessageReader, Next};
use mold_text::{push_refused, push_request, request_fault_words};
use mold_wire::{Request, RequestError};
use std::alloc::AllocError;
use std::marker::Model;

// Appends the text for the bytes of a line, and returns whether they are refused.
fn show_message(bytes: &[u8], out: &mut Vec<u8>) -> Result<bool, AllocError>
    ensures text { IfOk result (λ _. out.new.items ≡ out.old.items ++ message_text bytes.now) }
    ensures refused { IfOk result (λ refused. refused ≡ message_refused bytes.now) }
    ensures kept { OnErr result (take (length out.old.items) out.new.items ≡ out.old.items) }
{
    if bytes.is_empty() {
        return Ok(false);
    }
    match Request::decode(bytes) {
        Ok(request) => {
            push_request(out, &request)?;
            Ok(false)
        }
        Err(fault) => {
            push_refused(out, &request_fault_words(fault))?;
            Ok(true)
        }
    }
}

// Appends the text of a line that is refused.
fn refuse_line(why: InputFault, out: &mut Vec<u8>) -> Result<(), AllocError>
    ensures text { OnOk result (out.new.items ≡ out.old.items ++ refused_line (line_fault_words why)) }
    ensures kept { OnErr result (take (length out.old.items) out.new.items ≡ out.old.items) }
{
    match why {
        InputFault::TooLong { len } => {
            push_refused(
                out,
                &request_fault_words(RequestError::RequestLength { len }),
            )
        }
        // A line is never `Cut`.
        InputFault::NotHex | InputFault::Cut => refuse_digits(out),
    }
}

/// The command `show --request`. It prints the requests that the lines of its input encode.
#[derive(Drop)]
pub struct ShowRequests {
    refused: bool,
}

impl Model for ShowRequests {
    ghost use Rattle.mold_show.specs.Show.{ShowState};

    ghost Value = { ShowState };

    ghost view = { λ s. record { refused = s.refused } };
}

impl ShowRequests {
    /// Makes the command before its first line.
    pub fn new() -> ShowRequests
        ensures { result ≡ record { refused = false } }
    {
        ShowRequests { refused: false }
    }
}

impl LineCommand for ShowRequests {
    ghost use Rattle.mold_show.specs.Show.{show_printing};

    type Reader = HexLines;

    ghost prints = { show_printing true };

    fn turn<S: Source>(
        &mut self,
        lines: &mut HexLines,
        source: &mut S,
        out: &mut Vec<u8>,
    ) -> Result<Turn, ReadFault> {
        match lines.advance(source)? {
            Next::Message => {
                self.refused |= show_message(lines.message(), out)?;
                Ok(Turn::More)
            }
            Next::Fault { why } => {
                refuse_line(why, out)?;
                self.refused = true;
                Ok(Turn::More)
            }
            Next::End => Ok(end_show(self.refused)),
        }
    }
}
