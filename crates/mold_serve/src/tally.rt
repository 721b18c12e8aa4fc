//! What a server has printed and counted.

ghost use Rattle.std.specs.Prelude.{◌≡◌, length, take, OnErr, OnOk};
ghost use Rattle.mold_devices.specs.Devices.{one_more};
ghost use Rattle.mold_turns.specs.Outgoing.{with_more};
ghost use Rattle.mold_turns.specs.Runs.{Begins};
ghost use Rattle.mold_serve.specs.Tally.{served_line, no_tally, with_answered, with_failed, with_outgoing};
ghost use Rattle.mold_serve.specs.Tally.{request_refused_text, with_quiet, with_refused};

use mold_refusals::push_answer_refusal;
use mold_session::AnswerError;
use mold_text::Word;
use mold_turns::Outgoing;
use std::alloc::{AllocError, Global};

/// What a server has printed and counted. The counts stop at 18446744073709551615.
#[derive(Drop)]
pub struct Tally {
    /// The text that is still to be written, and the count of failed sends and receives.
    pub outgoing: Outgoing,
    /// The number of datagrams that were sent as responses.
    pub answered: u64,
    /// The number of refused requests.
    pub refused: u64,
    /// The number of receives that gave nothing.
    pub quiet: u64,
}

impl Tally {
    /// Returns a tally without text and with counts of 0. This allocates no memory.
    pub fn new(alloc: Global) -> Tally
        ensures { result ≡ no_tally }
    {
        Tally {
            outgoing: Outgoing::new(alloc),
            answered: 0,
            refused: 0,
            quiet: 0,
        }
    }

    // Prints and counts a response that was sent, with the sequence number and the message count of its header.
    pub(crate) fn add_answered(&mut self, sequence: u64, count: u64) -> Result<(), AllocError>
        ensures answered { OnOk result (self.new ≡ with_answered sequence count self.old) }
        ensures prints { Begins self.old.outgoing.text self.new.outgoing.text }
    {
        let words = [
            Word::Text(b"answered"),
            Word::Number(sequence),
            Word::Number(count),
        ];
        self.outgoing.push_line(&words)?;
        add_one(&mut self.answered);
        Ok(())
    }

    // Prints and counts a refused request.
    pub(crate) fn add_refused(&mut self, why: AnswerError) -> Result<(), AllocError>
        ensures refused { OnOk result (self.new ≡ with_refused why self.old) }
        ensures prints { Begins self.old.outgoing.text self.new.outgoing.text }
    {
        push_request_refused(&mut self.outgoing, why)?;
        add_one(&mut self.refused);
        Ok(())
    }

    // Counts a receive that gave nothing.
    pub(crate) fn add_quiet(&mut self)
        ensures { self.new ≡ with_quiet self.old }
    {
        add_one(&mut self.quiet);
    }

    // Counts a failed send or receive.
    pub(crate) fn add_failed(&mut self)
        ensures { self.new ≡ with_failed self.old }
    {
        self.outgoing.count_failure();
    }

    // Prints the last line.
    pub(crate) fn push_last(&mut self) -> Result<(), AllocError>
        ensures line { OnOk result
            (self.new ≡ with_outgoing (with_more (served_line self.old) self.old.outgoing) self.old) }
        ensures prints { Begins self.old.outgoing.text self.new.outgoing.text }
    {
        let words = [
            Word::Text(b"answered"),
            Word::Number(self.answered),
            Word::Text(b"refused"),
            Word::Number(self.refused),
            Word::Text(b"quiet"),
            Word::Number(self.quiet),
            Word::Text(b"failed"),
            Word::Number(self.outgoing.failures()),
        ];
        self.outgoing.push_line(&words)
    }
}

// Appends the line of a refused request.
fn push_request_refused(outgoing: &mut Outgoing, why: AnswerError) -> Result<(), AllocError>
    ensures text { OnOk result (outgoing.new ≡ with_more (request_refused_text why) outgoing.old) }
    ensures kept { OnErr result (take (length outgoing.old.text) outgoing.new.text ≡ outgoing.old.text) }
{
    push_answer_refusal(&mut outgoing.text, &[Word::Text(b"refused")], why)
}

// Adds 1 to a count, which stops at 18446744073709551615.
fn add_one(number: &mut u64)
    ensures { number.new ≡ one_more number.old }
{
    *number = number.saturating_add(1);
}
