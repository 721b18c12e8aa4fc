//! Checks several sessions, each by itself.

use crate::fresh_judge::FreshJudge;
use crate::judge::Judge;
use crate::naming::Naming;
use crate::session_key::session_key;
use crate::session_table::SessionTable;
use mold_devices::{CommandFault, Sink, send};
use std::alloc::{AllocError, Global};
use std::marker::Model;

/// A check of several sessions, each of which is judged by itself. It prints the sessions in the order of their first
/// appearance. The datagrams that do not encode a packet count as one more session, of which only their number is
/// printed. The exit status is the greatest of all sessions, and 1 without a session.
///
/// A datagram of the session of the last one costs a comparison, any other one a search of a hash table. The hash has a
/// fixed seed, so an input can be made whose hashes collide.
#[derive(Drop)]
pub struct EachCheck<J> {
    table: SessionTable<J>,
    // The datagrams that do not encode a packet. It stays at `u64::MAX` once it is there.
    refused: u64,
}

impl<J> Model for EachCheck<J> {
    ghost use Rattle.mold_check.specs.EachCheck.{EachState};

    ghost Value = { EachState J };

    ghost view = { λ c. record { entries = c.table; refused = c.refused } };
}

impl<J: FreshJudge> FreshJudge for EachCheck<J> {
    fn new(alloc: Global) -> EachCheck<J> {
        EachCheck {
            table: SessionTable::new(alloc),
            refused: 0,
        }
    }
}

impl<J: FreshJudge> Judge for EachCheck<J> {
    ghost use Rattle.mold_check.specs.EachCheck.{each_judging};

    ghost judging = { each_judging J.judging };

    fn add(&mut self, number: u64, bytes: &[u8]) -> Result<(), AllocError> {
        let key = session_key(bytes);
        if key.session.is_none() {
            self.refused = self.refused.saturating_add(1);
        }
        self.table.add(key, number, bytes)
    }

    fn is_decided(&self) -> bool {
        false
    }

    fn print<K: Sink, N: Naming>(
        &self,
        sink: &mut K,
        text: &mut Vec<u8>,
        naming: &N,
    ) -> Result<u8, CommandFault> {
        let status = self.table.print(sink, text, naming, self.refused)?;
        send(sink, text)?;
        if self.table.is_empty() {
            return Ok(1);
        }
        Ok(status)
    }

    fn is_whole(&self) -> Result<bool, AllocError> {
        self.table.is_some_whole()
    }

    fn print_early<K: Sink, N: Naming>(
        &self,
        sink: &mut K,
        text: &mut Vec<u8>,
        naming: &N,
    ) -> Result<(), CommandFault> {
        self.table.print(sink, text, naming, self.refused)?;
        Ok(())
    }

    fn fault_law() {
        J::fault_law();
    }
}
