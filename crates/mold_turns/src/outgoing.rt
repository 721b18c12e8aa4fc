//! The text that a loop still has to write to standard output and standard error, and its count of failed sends and
//! receives.

ghost use Rattle.mold_devices.specs.declared.output.TheConstants.{LARGE};
ghost use Rattle.std.specs.Prelude.{◌≡◌, ◌<◌, ◌≤◌, [], false, true, length, map, take, IfErr, IsOk, OnErr};
ghost use Rattle.std.specs.Prelude.{OnOk};
ghost use Rattle.std.specs.Io.KnownBytes.{Appends};
ghost use Rattle.mold_devices.specs.Devices.{AppendsPrefix, Counts};
ghost use Rattle.mold_turns.specs.Outgoing.{IsBounded, failed_often, failed_once, nothing_in, nothing_out, said_out};
ghost use Rattle.mold_turns.specs.Outgoing.{KeepsSide, with_more, with_note};
ghost use Rattle.mold_devices.specs.Writing.{EndsWith, Moves};
ghost use Rattle.mold_text.specs.Line.{line_of, word_text};

use mold_devices::{CommandFault, LARGE, Sink, end_with, send};
use mold_input::MessageFormat;
use mold_text::{Word, push_line};
use std::alloc::{AllocError, Global};
use std::marker::Model;

/// The text that is still to be written, and the count of failed sends and receives. The memory of written text is
/// kept for the next text.
///
/// A *note* is a line that is not a message, such as a refusal. If messages are printed as lines, notes are written
/// among them to standard output. If messages are printed as blocks, notes are written to standard error.
#[derive(Drop)]
pub struct Outgoing {
    /// The text that is still to be written to standard output. New lines are appended to it.
    pub text: Vec<u8>,
    /// The text that is still to be written to standard error. New notes are appended to it.
    pub side: Vec<u8>,
    /// The number of the empty message before which printing stopped, if it stopped. Only in the format `BlocksToEmpty`
    /// an empty message stops it, since its block would mark the end.
    pub stopped: Option<u64>,
    failures: u64,
    format: MessageFormat,
}

impl Model for Outgoing {
    ghost use Rattle.mold_turns.specs.Outgoing.{OutgoingState};

    ghost Value = { OutgoingState };

    ghost view = { λ d. record {
      text = d.text.items;
      side = d.side.items;
      failures = d.failures;
      format = d.format;
      stopped = d.stopped;
    } };
}

impl Outgoing {
    /// Returns an empty text and a count of 0, for messages as lines. This allocates no memory.
    pub fn new(alloc: Global) -> Outgoing
        ensures { result ≡ nothing_out }
    {
        Outgoing::with_format(alloc, MessageFormat::Lines)
    }

    /// Returns an empty text and a count of 0, for messages in this format. This allocates no memory.
    pub fn with_format(alloc: Global, format: MessageFormat) -> Outgoing
        ensures { result ≡ nothing_in format }
    {
        Outgoing {
            text: Vec::new(alloc),
            side: Vec::new(alloc),
            stopped: None,
            failures: 0,
            format,
        }
    }

    /// Returns the format in which messages are printed.
    pub fn format(&self) -> MessageFormat
        ensures { result ≡ self.now.format }
    {
        self.format
    }

    /// Returns the length in bytes of the text that is still to be written.
    pub fn unwritten(&self) -> usize
        ensures { result ≡ length self.now.text }
    {
        self.text.len()
    }

    /// Returns the count of failed sends and receives.
    pub fn failures(&self) -> u64
        ensures { result ≡ self.now.failures }
    {
        self.failures
    }

    /// Counts one failed send or receive. The count stops at 18446744073709551615.
    pub fn count_failure(&mut self)
        ensures { self.new ≡ failed_once self.old }
    {
        self.failures = self.failures.saturating_add(1);
    }

    /// Counts `count` failed sends or receives. The count stops at 18446744073709551615.
    pub fn count_failures(&mut self, count: u64)
        ensures { self.new ≡ failed_often count self.old }
    {
        self.failures = self.failures.saturating_add(count);
    }

    /// Appends the words as a line. If an allocation fails, a part of the line may follow the earlier text.
    pub fn push_line(&mut self, words: &[Word<'_>]) -> Result<(), AllocError>
        ensures line { OnOk result (self.new ≡ with_more (line_of (map word_text words.now)) self.old) }
        ensures kept { OnErr result (take (length self.old.text) self.new.text ≡ self.old.text) }
        ensures failures { self.new.failures ≡ self.old.failures }
        ensures keeps { KeepsSide self.old self.new }
    {
        push_line(&mut self.text, words)
    }

    /// Appends the words as a line that is not a message: to the text for standard output if messages are printed as
    /// lines, otherwise to the text for standard error. If an allocation fails, a part of the line may follow the
    /// earlier text.
    pub fn push_note(&mut self, words: &[Word<'_>]) -> Result<(), AllocError>
        ensures note { OnOk result (self.new ≡ with_note (line_of (map word_text words.now)) self.old) }
        ensures kept { OnErr result (take (length self.old.text) self.new.text ≡ self.old.text) }
        ensures keeps { KeepsSide self.old self.new }
    {
        match self.format {
            MessageFormat::Lines => push_line(&mut self.text, words),
            MessageFormat::Blocks | MessageFormat::BlocksToEmpty => push_line(
                &mut self.side,
                words,
            ),
        }
    }

    /// Writes the text for standard error. If there is none, nothing is done. After a fault, a prefix of it is written,
    /// and the text is unchanged.
    pub fn send_side<E: Sink>(&mut self, errors: &mut E) -> Result<(), CommandFault>
        ensures whole { OnOk result (Appends (E.held errors.old) (E.held errors.new) self.old.side) }
        ensures empty { OnOk result (self.new ≡ said_out self.old) }
        ensures same { OnErr result (self.new ≡ self.old) }
        ensures front { AppendsPrefix (E.held errors.old) (E.held errors.new) self.old.side }
        ensures fault { IfErr result (λ fault. fault ≡ CommandFault.Write) }
        ensures sink { Counts (E.failed errors.old) (E.failed errors.new) result }
        ensures live { E.live errors.new ≡ E.live errors.old }
        ensures none { self.old.side ≡ [] → IsOk result × (errors.new ≡ errors.old) }
    {
        if self.side.is_empty() {
            return Ok(());
        }
        send(errors, &mut self.side)
    }

    /// Writes the text if it has at least 65,536 bytes or the sink is live, and otherwise does nothing. After a fault,
    /// a prefix of the text is written, and the text is unchanged.
    pub fn send_large<K: Sink>(&mut self, sink: &mut K) -> Result<(), CommandFault>
        ensures moved { OnOk result (Moves (K.held sink.old) (K.held sink.new) self.old.text self.new.text) }
        ensures large { OnOk result (LARGE ≤ length self.old.text → self.new.text ≡ []) }
        ensures small { K.live sink.old ≡ false → length self.old.text < LARGE → IsOk result × (self.new ≡ self.old) }
        ensures bounded { OnOk result (IsBounded (K.live sink.old) self.new.text) }
        ensures live { K.live sink.new ≡ K.live sink.old }
        ensures same { OnErr result (self.new ≡ self.old) }
        ensures failures { self.new.failures ≡ self.old.failures }
        ensures side { self.new.side ≡ self.old.side }
        ensures format { self.new.format ≡ self.old.format }
        ensures stopped { self.new.stopped ≡ self.old.stopped }
        ensures front { AppendsPrefix (K.held sink.old) (K.held sink.new) self.old.text }
        ensures fault { IfErr result (λ fault. fault ≡ CommandFault.Write) }
        ensures sink { Counts (K.failed sink.old) (K.failed sink.new) result }
    {
        if self.text.len() < LARGE && !sink.is_live() {
            return Ok(());
        }
        self.send(sink)
    }

    /// Ends a loop that met the fault `met`: writes the first `len` bytes of the text, which earlier turns printed, and
    /// drops the others. Returns the fault that the loop ends with: `met`, or `Write` if the write fails.
    pub fn end_with<K: Sink>(&mut self, len: usize, met: CommandFault, sink: &mut K) -> CommandFault
        ensures ends { EndsWith met result (K.held sink.old) (K.held sink.new) (take len self.old.text)
            (K.failed sink.old) (K.failed sink.new) }
        ensures failures { self.new.failures ≡ self.old.failures }
        ensures side { self.new.side ≡ self.old.side }
        ensures format { self.new.format ≡ self.old.format }
        ensures stopped { self.new.stopped ≡ self.old.stopped }
        ensures live { K.live sink.new ≡ K.live sink.old }
    {
        end_with(sink, &mut self.text, len, met)
    }

    /// Writes the text. After a fault, a prefix of it is written, and the text is unchanged.
    pub fn send<K: Sink>(&mut self, sink: &mut K) -> Result<(), CommandFault>
        ensures whole { OnOk result (Appends (K.held sink.old) (K.held sink.new) self.old.text) }
        ensures empty { OnOk result (self.new.text ≡ []) }
        ensures live { K.live sink.new ≡ K.live sink.old }
        ensures same { OnErr result (self.new ≡ self.old) }
        ensures failures { self.new.failures ≡ self.old.failures }
        ensures side { self.new.side ≡ self.old.side }
        ensures format { self.new.format ≡ self.old.format }
        ensures stopped { self.new.stopped ≡ self.old.stopped }
        ensures front { AppendsPrefix (K.held sink.old) (K.held sink.new) self.old.text }
        ensures fault { IfErr result (λ fault. fault ≡ CommandFault.Write) }
        ensures sink { Counts (K.failed sink.old) (K.failed sink.new) result }
    {
        send(sink, &mut self.text)
    }
}
