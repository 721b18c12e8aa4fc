//! The text of the refusal of a journal file.

ghost use Rattle.std.specs.Prelude.{◌≡◌, ◌++◌, length, take, OnErr, OnOk};
ghost use Rattle.mold_refusals.specs.Words.{file_fault_words};
ghost use Rattle.mold_text.specs.Text.{refused_line};

use mold_session::FileError;
use mold_text::{Word, push_refused};
use std::alloc::AllocError;

/// Appends a line with the reason why a journal file cannot be loaded, saved or upgraded. If an allocation
/// fails, a part of the line may follow the earlier text.
pub fn push_file_refusal(out: &mut Vec<u8>, error: FileError) -> Result<(), AllocError>
    ensures text { OnOk result (out.new.items ≡ out.old.items ++ refused_line (file_fault_words error)) }
    ensures kept { OnErr result (take (length out.old.items) out.new.items ≡ out.old.items) }
{
    match error {
        FileError::Short { len } => {
            push_refused(out, &[Word::Text(b"Short"), Word::Number(len as u64)])
        }
        FileError::BadMagic => push_refused(out, &[Word::Text(b"BadMagic")]),
        FileError::BadFlag { byte } => {
            push_refused(
                out,
                &[Word::Text(b"BadFlag"), Word::Number(u64::from(byte))],
            )
        }
        FileError::Full => push_refused(out, &[Word::Text(b"Full")]),
        FileError::TooLong { len } => {
            push_refused(out, &[Word::Text(b"TooLong"), Word::Number(len as u64)])
        }
        FileError::BlockCut { number } => {
            push_refused(out, &[Word::Text(b"BlockCut"), Word::Number(number)])
        }
        FileError::CountDiffers { count, found } => push_refused(
            out,
            &[
                Word::Text(b"CountDiffers"),
                Word::Number(count),
                Word::Number(found),
            ],
        ),
        FileError::Damaged { number } => {
            push_refused(out, &[Word::Text(b"Damaged"), Word::Number(number)])
        }
        FileError::Read => push_refused(out, &[Word::Text(b"Read")]),
        FileError::Write => push_refused(out, &[Word::Text(b"Write")]),
        FileError::Memory => push_refused(out, &[Word::Text(b"Memory")]),
    }
}
