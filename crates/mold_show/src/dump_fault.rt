//! Why a journal's file is not dumped as it was asked for, and the line that reports it.

ghost use Rattle.std.specs.Prelude.{◌≡◌, ◌++◌, length, take, OnErr, OnOk};
ghost use Rattle.mold_show.specs.Dump.{dump_fault_words};
ghost use Rattle.mold_text.specs.Text.{refused_line};

use mold_refusals::push_file_refusal;
use mold_session::FileError;
use mold_text::{Word, push_refused};
use std::alloc::AllocError;

/// Why a dump does not print all messages that it was asked for.
#[derive(Clone, Copy)]
pub enum DumpFault {
    /// The message is empty, and an empty block would mark the end. `number` is its sequence number.
    Empty { number: u64 },
    /// The file is not a journal, or it can't be read.
    File(FileError),
}

impl From<FileError> for DumpFault {
    ghost use Rattle.std.specs.Prelude.{◌≡◌};
    ghost use Rattle.mold_show.specs.declared.dump_fault.DumpFault.TheVariants.{File};

    ghost from_gives = { λ cause fault. fault ≡ File cause };

    fn from(cause: FileError) -> DumpFault {
        DumpFault::File(cause)
    }
}

/// Appends a line with the fault. If an allocation fails, a part of the line may follow the earlier text.
pub(crate) fn push_dump_fault(out: &mut Vec<u8>, fault: DumpFault) -> Result<(), AllocError>
    ensures text { OnOk result (out.new.items ≡ out.old.items ++ refused_line (dump_fault_words fault)) }
    ensures kept { OnErr result (take (length out.old.items) out.new.items ≡ out.old.items) }
{
    match fault {
        DumpFault::Empty { number } => {
            push_refused(out, &[Word::Text(b"Empty"), Word::Number(number)])
        }
        DumpFault::File(error) => push_file_refusal(out, error),
    }
}
