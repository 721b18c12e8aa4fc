//! Checks digested datagrams one by one, up to the first refused one.

ghost use Rattle.std.specs.Prelude.{◌≡◌, ◌++◌, [], length, take, IfOk, OnErr, OnOk};
ghost use Rattle.std.specs.Io.KnownBytes.{Appends};
ghost use Rattle.mold_capture.specs.Outcome.{outcome_in};
ghost use Rattle.mold_check.specs.DigestCheck.{digest_text, whole_line};
ghost use Rattle.mold_check.specs.Report.{Printed, outcome_status};
ghost use Rattle.mold_devices.specs.Devices.{AppendsPrefix};
ghost use Rattle.mold_devices.specs.Faults.{CountsSink};

use crate::datagram_check::{DatagramCheck, print_refused};
use crate::fresh_judge::FreshJudge;
use crate::judge::Judge;
use crate::naming::Naming;
use crate::printing::print_pushed;
use crate::report::print_verdict;
use mold_capture::Verdict;
use mold_devices::{CommandFault, Sink};
use mold_rule::laws::lacking_law;
use mold_text::{Word, push_line};
use std::alloc::{AllocError, Global};
use std::marker::Model;

/// A check of digested datagrams up to the first refused one. It prints what a `DatagramCheck` prints, but `by digest`
/// follows the number of messages of a whole session.
#[derive(Drop)]
pub struct DigestCheck {
    check: DatagramCheck,
}

impl Model for DigestCheck {
    ghost use Rattle.std.specs.Coded.{codes};
    ghost use Rattle.mold_capture.specs.Seen.{seen_code};
    ghost use Rattle.mold_check.specs.Judgement.{Judgement};

    ghost Value = { Judgement };

    ghost coded = { Prim.hlevel (codes, seen_code) };

    ghost view = { λ c. c.check };
}

impl FreshJudge for DigestCheck {
    fn new(alloc: Global) -> DigestCheck {
        DigestCheck {
            check: DatagramCheck::new(alloc),
        }
    }
}

impl Judge for DigestCheck {
    ghost use Rattle.mold_check.specs.DigestCheck.{digest_judging};

    ghost judging = { digest_judging };

    fn add(&mut self, number: u64, bytes: &[u8]) -> Result<(), AllocError> {
        self.check.add(number, bytes)
    }

    fn is_decided(&self) -> bool {
        self.check.is_decided()
    }

    fn print<K: Sink, N: Naming>(
        &self,
        sink: &mut K,
        text: &mut Vec<u8>,
        naming: &N,
    ) -> Result<u8, CommandFault> {
        lacking_law();
        if let Some(datagram) = self.check.refused() {
            return print_refused(sink, text, naming, datagram);
        }
        match self.check.checker().verdict() {
            Ok(verdict) => print_by_digest(sink, text, &verdict),
            Err(_) => Err(CommandFault::Memory),
        }
    }

    fn is_whole(&self) -> Result<bool, AllocError> {
        self.check.is_whole()
    }

    fn print_early<K: Sink, N: Naming>(
        &self,
        _sink: &mut K,
        _text: &mut Vec<u8>,
        _naming: &N,
    ) -> Result<(), CommandFault> {
        Ok(())
    }

    fn fault_law() {}
}

fn push_whole(text: &mut Vec<u8>, messages: u64) -> Result<(), AllocError>
    ensures line { OnOk result (text.new.items ≡ text.old.items ++ whole_line messages) }
    ensures kept { OnErr result (take (length text.old.items) text.new.items ≡ text.old.items) }
{
    push_line(
        text,
        &[
            Word::Text(b"whole"),
            Word::Number(messages),
            Word::Text(b"by"),
            Word::Text(b"digest"),
        ],
    )
}

// Writes the text and that the session is whole by its digests, and returns the exit status.
fn print_whole<K: Sink>(sink: &mut K, text: &mut Vec<u8>, messages: u64) -> Result<u8, CommandFault>
    ensures { Printed (K.held sink.old) (K.held sink.new) (K.failed sink.old) (K.failed sink.new) text.old.items
        (whole_line messages) 0 text.new.items result }
{
    let len = text.len();
    let pushed = push_whole(text, messages);
    print_pushed(sink, text, len, pushed, 0)
}

// Writes the text and what the verdict on digested datagrams reports, and returns the exit status.
fn print_by_digest<K: Sink>(
    sink: &mut K,
    text: &mut Vec<u8>,
    verdict: &Verdict,
) -> Result<u8, CommandFault>
    ensures whole { IfOk result (λ status. Appends (K.held sink.old) (K.held sink.new)
        (text.old.items ++ digest_text [] (outcome_in verdict.now))
        × (status ≡ outcome_status (outcome_in verdict.now))) }
    ensures front { AppendsPrefix (K.held sink.old) (K.held sink.new)
        (text.old.items ++ digest_text [] (outcome_in verdict.now)) }
    ensures failures { CountsSink (K.failed sink.old) (K.failed sink.new) result }
{
    match verdict {
        Verdict::Whole { messages } => print_whole(sink, text, *messages),
        Verdict::Incomplete { .. } => print_verdict(sink, text, verdict),
    }
}
