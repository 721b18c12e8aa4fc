//! `mold pack --journal`: saves the messages of an input as a journal. The order states the format of the input.

ghost use Rattle.std.specs.Prelude.{Result};
ghost use Rattle.mold_devices.specs.declared.fault.CommandFault.{CommandFault};
ghost use Rattle.mold_input.specs.Entries.{known_input};
ghost use Rattle.mold_input.specs.Formats.{entries_of, kind_of};
ghost use Rattle.mold_session.specs.Publisher.{fresh_publisher};
ghost use Rattle.mold_show.specs.PackJournal.{EndsSaving, PrintsSaved};
ghost use Rattle.mold_show.specs.declared.save_outcome.SaveOutcome.{SaveOutcome};

use mold_devices::{CommandFault, Sink, Source};
use mold_input::{BlocksToEmpty, HexLines, MessageBlocks, MessageFormat};
use mold_show::{PackOptions, pack_into_journal};
use mold_wire::Session;
use mold_words::PackOrder;
use std::alloc::Global;

/// Saves the messages of the source in `file`, as a closed journal of the order's session in version 2. Then it prints
/// the number of messages and returns the status 0. The file is the one that `publish` saves for the same session, limit
/// and input.
///
/// If a line or block is refused, nothing is written to `file`. The line of the refusal is printed, and the status is 2.
///
/// A fault of the source, of `file` or of memory is returned, and nothing is printed. A fault while the line is printed
/// leaves `file` as it is.
pub fn run_pack_journal<S: Source, J: Sink, K: Sink>(
    alloc: Global,
    order: &PackOrder,
    source: &mut S,
    file: &mut J,
    sink: &mut K,
) -> Result<u8, CommandFault>
    ensures packed { (outcome : Result SaveOutcome CommandFault)
        × EndsSaving (fresh_publisher (record { 0 = order.now.session }) order.now.limit).journal
        (known_input (kind_of order.now.input) (entries_of order.now.input) (S.left source.old))
        (S.failed source.old) (S.failed source.new) J.held J.failed file.old file.new outcome
        × PrintsSaved K.held K.failed sink.old sink.new outcome result }
{
    let options = PackOptions {
        session: Session(order.session),
        limit: order.limit,
    };
    match order.input {
        MessageFormat::Lines => {
            pack_into_journal::<HexLines, S, J, K>(alloc, options, source, file, sink)
        }
        MessageFormat::Blocks => {
            pack_into_journal::<MessageBlocks, S, J, K>(alloc, options, source, file, sink)
        }
        MessageFormat::BlocksToEmpty => {
            pack_into_journal::<BlocksToEmpty, S, J, K>(alloc, options, source, file, sink)
        }
    }
}
