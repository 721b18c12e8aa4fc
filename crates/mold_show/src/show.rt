//! What `mold show` does alike for packets and for requests.

ghost use Rattle.std.specs.Prelude.{◌≡◌, ◌∷◌, ◌++◌, [], codes, if◌then◌else◌, length, take, OnErr, OnOk};
ghost use Rattle.mold_devices.specs.declared.turn.Turn.TheVariants.{Done};
ghost use Rattle.mold_text.specs.Text.{refused_line};

use mold_devices::Turn;
use mold_text::{Word, push_refused};
use std::alloc::AllocError;

// Appends the text of a line that is not an even number of hexadecimal digits.
pub(crate) fn refuse_digits(out: &mut Vec<u8>) -> Result<(), AllocError>
    ensures text { OnOk result (out.new.items ≡ out.old.items ++ refused_line (codes "NotHex" ∷ [])) }
    ensures kept { OnErr result (take (length out.old.items) out.new.items ≡ out.old.items) }
{
    push_refused(out, &[Word::Text(b"NotHex")])
}

// Returns the last turn of the command. `refused` states whether a line was refused.
pub(crate) fn end_show(refused: bool) -> Turn
    ensures { result ≡ Done (if refused then 2 else 0) }
{
    let status = if refused { 2 } else { 0 };
    Turn::Done { status }
}
