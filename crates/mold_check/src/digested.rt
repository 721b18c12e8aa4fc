//! Judges digested datagrams.

use crate::fresh_judge::FreshJudge;
use crate::judge::Judge;
use crate::naming::Naming;
use mold_devices::{CommandFault, Sink};
use mold_digest::DigestKey;
use std::alloc::{AllocError, Global};
use std::marker::Model;

/// A judge of the digested datagrams: each message is replaced by its digest under the key, so the judge keeps 16 bytes
/// for each message. The session of a digested datagram is that of the datagram. `Digested<DigestCheck>` checks one
/// session, and `Digested<EachCheck<DigestCheck>>` each session by itself.
///
/// It holds one digested datagram, in a buffer that grows to the longest one.
#[derive(Drop)]
pub struct Digested<'a, J> {
    key: &'a DigestKey,
    judge: J,
    // The last digested datagram.
    bytes: Vec<u8>,
}

impl<'a, J> Model for Digested<'a, J> {
    ghost use Rattle.mold_check.specs.Digested.{DigestedState};

    ghost Value = { DigestedState J };

    ghost view = { λ c. record { key = c.key.now; judge = c.judge } };
}

impl<'a, J: FreshJudge> Digested<'a, J> {
    ghost use Rattle.std.specs.Prelude.{◌≡◌};
    ghost use Rattle.mold_check.specs.Digested.{digested_beginning};

    /// Returns a judge of no datagram under this key, over a new judge. This allocates nothing.
    pub fn new(key: &'a DigestKey, alloc: Global) -> Digested<'a, J>
        ensures { result ≡ digested_beginning key.now J.judging }
    {
        Digested {
            key,
            judge: J::new(alloc),
            bytes: Vec::new(alloc),
        }
    }
}

impl<'a, J: Judge> Judge for Digested<'a, J> {
    ghost use Rattle.mold_check.specs.Digested.{digested_judging};
    ghost use Rattle.mold_check.specs.Judge.{JudgesByFault};

    ghost judging = { digested_judging J.judging };

    fn add(&mut self, number: u64, bytes: &[u8]) -> Result<(), AllocError> {
        self.key.digested(bytes, &mut self.bytes)?;
        self.judge.add(number, self.bytes.as_slice())
    }

    fn is_decided(&self) -> bool {
        self.judge.is_decided()
    }

    fn print<K: Sink, N: Naming>(
        &self,
        sink: &mut K,
        text: &mut Vec<u8>,
        naming: &N,
    ) -> Result<u8, CommandFault> {
        self.judge.print(sink, text, naming)
    }

    fn is_whole(&self) -> Result<bool, AllocError> {
        self.judge.is_whole()
    }

    fn print_early<K: Sink, N: Naming>(
        &self,
        sink: &mut K,
        text: &mut Vec<u8>,
        naming: &N,
    ) -> Result<(), CommandFault> {
        self.judge.print_early(sink, text, naming)
    }

    // For the toolchain: it states the clause of the trait again.
    fn fault_law()
        ensures { JudgesByFault (digested_judging J.judging) }
    {
        J::fault_law();
    }
}
