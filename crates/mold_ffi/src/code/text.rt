//! The calls that return the text of a code.

ghost use Rattle.std.specs.Prelude.{◌≡◌};
ghost use Rattle.std.specs.Ffi.{IsNulTerminated};
ghost use Rattle.mold_ffi.specs.Code.Text.{terminated_text_of, text_of};

use crate::code::{
    ABSENT, AHEAD, BAD_FLAG, BAD_MAGIC, BATCH, BLOCK_CUT, BROKEN, BURST, CLOSED, CONFLICT,
    COUNT_DIFFERS, DAMAGED, DONE, EMPTY_REQUEST, END_BELOW, END_CONFLICT, FILE_CUT, FILE_SHORT,
    FULL, LIMIT, LINE, MEMORY, NEXT_ZERO, NOT_MISSING, NUMBERS, OPTIONS, PAST_END, PAST_LAST,
    REQUEST_LENGTH, ROOM, SEQUENCE_ZERO, SHORT, TIME, TOO_LONG, TRAILING, UNSENT, WINDOW,
    WRONG_SESSION, texts,
};

// The text of a code, with a zero byte at its end.
fn terminated(code: u32) -> &'static [u8]
    ensures { result.now ≡ terminated_text_of code }
{
    match code {
        DONE => texts::DONE,
        SHORT => texts::SHORT,
        BLOCK_CUT => texts::BLOCK_CUT,
        TRAILING => texts::TRAILING,
        LIMIT => texts::LIMIT,
        FULL => texts::FULL,
        BROKEN => texts::BROKEN,
        MEMORY => texts::MEMORY,
        WRONG_SESSION => texts::WRONG_SESSION,
        SEQUENCE_ZERO => texts::SEQUENCE_ZERO,
        PAST_LAST => texts::PAST_LAST,
        END_CONFLICT => texts::END_CONFLICT,
        END_BELOW => texts::END_BELOW,
        PAST_END => texts::PAST_END,
        CONFLICT => texts::CONFLICT,
        LINE => texts::LINE,
        NEXT_ZERO => texts::NEXT_ZERO,
        WINDOW => texts::WINDOW,
        ABSENT => texts::ABSENT,
        CLOSED => texts::CLOSED,
        TOO_LONG => texts::TOO_LONG,
        NUMBERS => texts::NUMBERS,
        UNSENT => texts::UNSENT,
        ROOM => texts::ROOM,
        REQUEST_LENGTH => texts::REQUEST_LENGTH,
        EMPTY_REQUEST => texts::EMPTY_REQUEST,
        AHEAD => texts::AHEAD,
        BURST => texts::BURST,
        FILE_SHORT => texts::FILE_SHORT,
        BAD_MAGIC => texts::BAD_MAGIC,
        BAD_FLAG => texts::BAD_FLAG,
        FILE_CUT => texts::FILE_CUT,
        COUNT_DIFFERS => texts::COUNT_DIFFERS,
        DAMAGED => texts::DAMAGED,
        NOT_MISSING => texts::NOT_MISSING,
        BATCH => texts::BATCH,
        OPTIONS => texts::OPTIONS,
        TIME => texts::TIME,
        _ => texts::UNKNOWN,
    }
}

/// Writes the text of a code, without a zero byte at its end. For a number that is not a code, the text is `unknown
/// code`. The slice is valid forever.
#[unsafe(no_mangle)]
pub extern "C" fn mold_text(code: u32, text: &mut &'static [u8])
    ensures { text.new.now ≡ text_of code }
{
    let bytes = terminated(code);
    *text = &bytes[..bytes.len() - 1];
}

/// Writes the text of a code with a zero byte at its end, so that its address is a string of C. It has no other zero
/// byte. Otherwise it is as that of `mold_text`.
#[unsafe(no_mangle)]
pub extern "C" fn mold_terminated_text(code: u32, text: &mut &'static [u8])
    ensures text { text.new.now ≡ terminated_text_of code }
    ensures ends { IsNulTerminated text.new.now }
{
    *text = terminated(code);
}
