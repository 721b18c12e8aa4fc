//! Checks datagrams one by one, up to the first refused one.

ghost use Rattle.std.specs.Prelude.{◌≡◌, ◌==◌};
ghost use Rattle.mold_capture.specs.Outcome.{outcome_in};
ghost use Rattle.mold_check.specs.Judgement.{refused_text};
ghost use Rattle.mold_check.specs.Report.{Printed, outcome_status};

use crate::fresh_judge::FreshJudge;
use crate::judge::Judge;
use crate::naming::Naming;
use crate::printing::print_pushed;
use crate::refused_datagram::RefusedDatagram;
use crate::report::print_verdict;
use mold_capture::{Checker, Refusal, Verdict};
use mold_devices::{CommandFault, Sink};
use mold_rule::laws::lacking_law;
use std::alloc::{AllocError, Global};
use std::marker::Model;

/// A check of datagrams up to the first refused one. It keeps only the messages that the checker stores.
#[derive(Drop)]
pub struct DatagramCheck {
    checker: Checker,
    refused: Option<RefusedDatagram>,
}

impl Model for DatagramCheck {
    ghost use Rattle.std.specs.Coded.{codes};
    ghost use Rattle.mold_capture.specs.Seen.{seen_code};
    ghost use Rattle.mold_check.specs.Judgement.{Judgement};

    ghost Value = { Judgement };

    ghost coded = { Prim.hlevel (codes, seen_code) };

    ghost view = { λ c. record { seen = c.checker; refused = c.refused } };
}

impl DatagramCheck {
    /// Returns the datagram that is refused, if there is one.
    pub fn refused(&self) -> Option<RefusedDatagram>
        ensures { result ≡ self.now.refused }
    {
        self.refused
    }

    /// Returns the checker, which has the accepted datagrams. It states whether they are whole and what they carry.
    pub fn checker(&self) -> &Checker
        ensures { result.now ≡ self.now.seen }
    {
        &self.checker
    }
}

impl FreshJudge for DatagramCheck {
    fn new(alloc: Global) -> DatagramCheck {
        DatagramCheck {
            checker: Checker::new(alloc),
            refused: None,
        }
    }
}

impl Judge for DatagramCheck {
    ghost use Rattle.mold_check.specs.Judgement.{datagram_judging};

    ghost judging = { datagram_judging };

    // After a refusal it does nothing.
    fn add(&mut self, number: u64, bytes: &[u8]) -> Result<(), AllocError> {
        if self.refused.is_some() {
            return Ok(());
        }
        match self.checker.add(bytes) {
            Ok(()) => Ok(()),
            Err(Refusal::Memory) => Err(AllocError),
            Err(why) => {
                self.refused = Some(RefusedDatagram { number, why });
                Ok(())
            }
        }
    }

    fn is_decided(&self) -> bool {
        self.refused.is_some()
    }

    fn print<K: Sink, N: Naming>(
        &self,
        sink: &mut K,
        text: &mut Vec<u8>,
        naming: &N,
    ) -> Result<u8, CommandFault> {
        lacking_law();
        if let Some(datagram) = self.refused {
            return print_refused(sink, text, naming, datagram);
        }
        match self.checker.verdict() {
            Ok(verdict) => print_verdict(sink, text, &verdict),
            Err(_) => Err(CommandFault::Memory),
        }
    }

    fn is_whole(&self) -> Result<bool, AllocError> {
        lacking_law();
        if self.refused.is_some() {
            return Ok(false);
        }
        match self.checker.verdict() {
            Ok(verdict) => Ok(is_whole(&verdict)),
            Err(_) => Err(AllocError),
        }
    }

    fn print_early<K: Sink, N: Naming>(
        &self,
        _sink: &mut K,
        _text: &mut Vec<u8>,
        _naming: &N,
    ) -> Result<(), CommandFault> {
        Ok(())
    }

    fn fault_law() {}
}

fn is_whole(verdict: &Verdict) -> bool
    ensures { result ≡ (outcome_status (outcome_in verdict.now) == 0) }
{
    match verdict {
        Verdict::Whole { .. } => true,
        Verdict::Incomplete { .. } => false,
    }
}

/// Writes the text and the reason why the datagram is refused, and returns the exit status. If an allocation fails,
/// writes the text.
pub(crate) fn print_refused<K: Sink, N: Naming>(
    sink: &mut K,
    text: &mut Vec<u8>,
    naming: &N,
    datagram: RefusedDatagram,
) -> Result<u8, CommandFault>
    ensures { Printed (K.held sink.old) (K.held sink.new) (K.failed sink.old) (K.failed sink.new) text.old.items
        (refused_text (N.named naming.now) datagram) 2 text.new.items result }
{
    let len = text.len();
    let pushed = naming.push_refused(text, datagram.number, datagram.why);
    print_pushed(sink, text, len, pushed, 2)
}
