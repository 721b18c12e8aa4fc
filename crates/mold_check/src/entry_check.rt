//! Checks the datagrams among the entries of a folder.

ghost use Rattle.std.specs.Prelude.{◌≡◌, ◌++◌, length, IfOk, OnOk};
ghost use Rattle.std.specs.Io.KnownBytes.{Appends};
ghost use Rattle.mold_check.specs.EntryCheck.{ChecksEntries, all_indexed, entry_check_text, entry_counts, lent_bytes};
ghost use Rattle.mold_devices.specs.Devices.{AppendsPrefix};
ghost use Rattle.mold_devices.specs.Faults.{CountsSink};

use crate::datagrams::sorted_datagrams;
use crate::entry::Entry;
use crate::entry_names::EntryNames;
use crate::judge::Judge;
use crate::report::push_counts;
use mold_devices::{CommandFault, Sink, send};
use std::alloc::{AllocError, Global};
use std::marker::Model;

/// A check of the datagrams among entries, which it borrows. They are judged in ascending order of the bytes of their
/// names, and the report names them by these.
#[derive(Drop)]
pub struct EntryCheck<'a, J> {
    order: Vec<&'a Entry>,
    skipped: usize,
    judge: J,
}

impl<'a, J> Model for EntryCheck<'a, J> {
    ghost use Rattle.mold_check.specs.EntryCheck.{EntryChecking};

    ghost Value = { EntryChecking J };

    ghost view = { λ c. record { order = c.order.items; skipped = c.skipped; judge = c.judge } };
}

impl<'a, J: Judge> EntryCheck<'a, J> {
    /// Adds the datagrams among the entries to this judge. It returns an error if an allocation fails.
    pub fn over(
        alloc: Global,
        entries: &'a [Entry],
        judge: J,
    ) -> Result<EntryCheck<'a, J>, AllocError>
        ensures { IfOk result (ChecksEntries J.judging judge entries.now) }
    {
        let order = sorted_datagrams(alloc, entries)?;
        let judge = judge_all(order.as_slice(), judge)?;
        let skipped = entries.len() - order.len();
        Ok(EntryCheck {
            order,
            skipped,
            judge,
        })
    }

    /// Returns the judge of the datagrams.
    pub fn judge(&self) -> &J
        ensures { result.now ≡ self.now.judge }
    {
        &self.judge
    }

    /// Writes the number of datagrams and of other entries. After a fault, a prefix of this was written. `Write` is
    /// returned only if the sink failed, `Memory` only if an allocation failed, and `Read` never.
    pub fn print_counts<K: Sink>(&self, alloc: Global, sink: &mut K) -> Result<(), CommandFault>
        ensures whole { OnOk result (Appends (K.held sink.old) (K.held sink.new) (entry_counts self.now)) }
        ensures front { AppendsPrefix (K.held sink.old) (K.held sink.new) (entry_counts self.now) }
        ensures failures { CountsSink (K.failed sink.old) (K.failed sink.new) result }
    {
        let mut text = Vec::new(alloc);
        push_counts(&mut text, self.order.len(), self.skipped)?;
        send(sink, &mut text)
    }

    /// Writes these numbers and the outcome of the datagrams, and returns the exit status. After a fault, a prefix of the
    /// text was written. `Write` is returned only if the sink failed, `Memory` only if an allocation failed, and `Read`
    /// never.
    pub fn print<K: Sink>(&self, alloc: Global, sink: &mut K) -> Result<u8, CommandFault>
        ensures whole { IfOk result (λ status. Appends (K.held sink.old) (K.held sink.new)
            (entry_check_text J.judging self.now) × (status ≡ J.judging.status self.now.judge)) }
        ensures front { AppendsPrefix (K.held sink.old) (K.held sink.new) (entry_check_text J.judging self.now) }
        ensures failures { CountsSink (K.failed sink.old) (K.failed sink.new) result }
    {
        let mut text = Vec::new(alloc);
        push_counts(&mut text, self.order.len(), self.skipped)?;
        let names = EntryNames {
            order: self.order.as_slice(),
        };
        self.judge.print(sink, &mut text, &names)
    }
}

// Adds datagrams in this order to the judge. The number of each is its index.
fn judge_all<J: Judge>(order: &[&Entry], judge: J) -> Result<J, AllocError>
    ensures { IfOk result (λ all. all ≡ all_indexed J.judging judge (lent_bytes order.now)) }
{
    let mut judge = judge;
    let mut number: u64 = 0;
    for entry in order {
        judge.add(number, entry.bytes.as_slice())?;
        number = number.saturating_add(1);
    }
    Ok(judge)
}
