//! The trait of what judges the datagrams of an input.

ghost use Rattle.std.specs.Prelude.{◌≡◌, ◌++◌, IfOk, OnOk};
ghost use Rattle.std.specs.Io.KnownBytes.{Appends};
ghost use Rattle.mold_check.specs.Judge.{Judging, JudgesByFault};
ghost use Rattle.mold_devices.specs.Devices.{AppendsPrefix};
ghost use Rattle.mold_devices.specs.Faults.{CountsSink};
ghost use Rattle.mold_devices.specs.Writing.{Moves};

use crate::naming::Naming;
use mold_devices::{CommandFault, Sink};
use std::alloc::AllocError;

/// Judges the datagrams of an input one by one, and prints the outcome after the last one.
pub trait Judge: Drop {
    // What it finds and prints.
    ghost judging: { Judging Self };

    /// Adds the next datagram, which has this number in the report. It returns an error if an allocation fails.
    fn add(&mut self, number: u64, bytes: &[u8]) -> Result<(), AllocError>
        ensures { OnOk result (self.new ≡ judging.added self.old number bytes.now) };

    /// Returns whether later datagrams do not change what is printed. Then they need not be added.
    fn is_decided(&self) -> bool
        ensures { result ≡ judging.decided self.now };

    /// Writes the text and the outcome of the datagrams so far, and returns the exit status: 0 whole, 1 incomplete, 2 a
    /// datagram is refused. After a fault, a prefix of this was written. `Write` is returned only if the sink failed,
    /// `Memory` only if an allocation failed, and `Read` never.
    fn print<K: Sink, N: Naming>(
        &self,
        sink: &mut K,
        text: &mut Vec<u8>,
        naming: &N,
    ) -> Result<u8, CommandFault>
        ensures whole { IfOk result (λ status. Appends (K.held sink.old) (K.held sink.new)
            (text.old.items ++ judging.text (N.named naming.now) self.now) × (status ≡ judging.status self.now)) }
        ensures front { AppendsPrefix (K.held sink.old) (K.held sink.new)
            (text.old.items ++ judging.text (N.named naming.now) self.now) }
        ensures failures { CountsSink (K.failed sink.old) (K.failed sink.new) result };

    /// Returns whether `whole` is printed of a session. It returns an error if an allocation fails. It costs what the
    /// outcome costs without its text.
    fn is_whole(&self) -> Result<bool, AllocError>
        ensures { IfOk result (λ whole. whole ≡ judging.whole self.now) };

    /// Appends what is printed of the datagrams so far if the input after them is refused. It may write a part of the
    /// text, the rest of which remains. After a fault, a prefix of this was written.
    fn print_early<K: Sink, N: Naming>(
        &self,
        sink: &mut K,
        text: &mut Vec<u8>,
        naming: &N,
    ) -> Result<(), CommandFault>
        ensures moved { OnOk result (Moves (K.held sink.old) (K.held sink.new)
            (text.old.items ++ judging.early (N.named naming.now) self.now) text.new.items) }
        ensures front { AppendsPrefix (K.held sink.old) (K.held sink.new)
            (text.old.items ++ judging.early (N.named naming.now) self.now) }
        ensures failures { CountsSink (K.failed sink.old) (K.failed sink.new) result };

    /// States that a datagram that does not encode a packet is judged by its fault alone. It does nothing.
    fn fault_law()
        ensures { JudgesByFault judging };
}
