//! The pairs of the datagrams so far, each with its tally.

ghost use Rattle.std.specs.Prelude.{◌≡◌, ◌++◌, [], IfSome, None, OnOk, position, slice_get};
ghost use Rattle.std.specs.Map.{keys_of, values_of};
ghost use Rattle.indexmap.specs.IndexMap.{set_value_at};
ghost use Rattle.mold_capture_commands.specs.Filter.{lent_found};
ghost use Rattle.mold_capture_commands.specs.Pairs.{same_pair};
ghost use Rattle.mold_capture_commands.specs.SessionState.{HasTarget, lines_more, lines_text, lines_with};
ghost use Rattle.mold_capture_commands.specs.SessionState.{tally_more};
ghost use Rattle.mold_devices.specs.Devices.{AppendsPrefix};
ghost use Rattle.mold_devices.specs.Faults.{CountsSink};
ghost use Rattle.mold_devices.specs.Writing.{Moves};

use crate::found::Found;
use crate::pair::Pair;
use crate::pair_tally::PairTally;
use crate::session_text::print_pair;
use indexmap::IndexMap;
use mold_devices::{CommandFault, Sink};
use mold_wire::{DecodeError, Packet, decode};
use std::alloc::{AllocError, Global};
use std::marker::Model;

/// The pairs of the datagrams so far, in the order of their first appearance, each with its tally. A datagram of the
/// pair of the last one costs a comparison, any other one a search of a hash table.
#[derive(Drop)]
pub(crate) struct PairLines {
    map: IndexMap<Pair, PairTally>,
    // The index of the pair of the last datagram.
    last: usize,
}

impl Model for PairLines {
    ghost use Rattle.std.specs.Prelude.{List};
    ghost use Rattle.mold_capture_commands.specs.declared.pair.Pair.{Pair};
    ghost use Rattle.mold_capture_commands.specs.declared.pair_tally.PairTally.{PairTally};

    ghost Value = { List (Pair × PairTally) };

    ghost view = { λ l. l.map.entries };
}

impl PairLines {
    /// Returns no pairs. This allocates nothing.
    pub(crate) fn new(alloc: Global) -> PairLines
        ensures { result ≡ [] }
    {
        PairLines {
            map: IndexMap::new(alloc),
            last: 0,
        }
    }

    // Returns the index of the pair, if it is there.
    fn find(&self, pair: &Pair) -> Option<usize>
        ensures { result ≡ position (same_pair pair.now) (keys_of self.now) }
    {
        // For the prover: `as_slice` states that no pair is in the map twice.
        if let Some((known, _)) = self.map.as_slice().get_index(self.last) {
            if pair == known {
                return Some(self.last);
            }
        }
        self.map.get_index_of(pair)
    }

    // Counts a datagram of the pair at this index, if there is one.
    fn add_at(&mut self, index: usize, read: &Result<Packet<'_>, DecodeError>)
        ensures { IfSome (slice_get (values_of self.old) index) (λ tally.
            self.new ≡ set_value_at self.old index (tally_more tally read.now)) }
    {
        if let Some(tally) = self.map.get_index_mut(index) {
            tally.add(read);
        }
    }

    // Adds a pair that is not there, with its first datagram.
    fn add_new(
        &mut self,
        pair: Pair,
        read: &Result<Packet<'_>, DecodeError>,
    ) -> Result<(), AllocError>
        requires { position (same_pair pair) (keys_of self.old) ≡ None }
        ensures { OnOk result (self.new ≡ lines_more self.old pair read.now) }
    {
        let mut tally = PairTally::new();
        tally.add(read);
        self.map.insert(pair, tally)?;
        Ok(())
    }

    // Counts a datagram of the pair.
    fn add(&mut self, pair: Pair, read: &Result<Packet<'_>, DecodeError>) -> Result<(), AllocError>
        ensures { OnOk result (self.new ≡ lines_more self.old pair read.now) }
    {
        match self.find(&pair) {
            Some(index) => {
                self.last = index;
                self.add_at(index, read);
                Ok(())
            }
            None => {
                self.last = self.map.len();
                self.add_new(pair, read)
            }
        }
    }

    /// Counts a frame. It returns an error if an allocation fails.
    pub(crate) fn take(&mut self, found: Found<'_>) -> Result<(), AllocError>
        requires { HasTarget (lent_found found) }
        ensures { OnOk result (self.new ≡ lines_with self.old (lent_found found.entry)) }
    {
        let Found::Passed(datagram) = found else {
            return Ok(());
        };
        let read = decode(datagram.payload);
        self.add(Pair::new(&datagram, &read), &read)
    }

    /// Appends the lines of the pairs, and writes the text in pieces of 65,536 bytes or more. The rest of the text
    /// remains. After a fault, a prefix of the text and the lines was written.
    pub(crate) fn print<K: Sink>(
        &self,
        sink: &mut K,
        text: &mut Vec<u8>,
    ) -> Result<(), CommandFault>
        ensures moved { OnOk result (Moves (K.held sink.old) (K.held sink.new)
            (text.old.items ++ lines_text self.now) text.new.items) }
        ensures front { AppendsPrefix (K.held sink.old) (K.held sink.new) (text.old.items ++ lines_text self.now) }
        ensures failures { CountsSink (K.failed sink.old) (K.failed sink.new) result }
    {
        for (pair, tally) in self.map.iter() {
            print_pair(sink, text, pair, tally)?;
        }
        Ok(())
    }
}
