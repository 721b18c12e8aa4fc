//! The text of a request.

ghost use Rattle.std.specs.Prelude.{◌≡◌, ◌++◌, length, take, OnErr, OnOk};
ghost use Rattle.mold_text.specs.Text.{request_text};

use crate::line::push_line;
use crate::word::Word;
use mold_wire::Request;
use std::alloc::AllocError;

/// Appends the request's line. If an allocation fails, a part of the line may follow the earlier text.
pub fn push_request(out: &mut Vec<u8>, request: &Request) -> Result<(), AllocError>
    ensures text { OnOk result (out.new.items ≡ out.old.items ++ request_text request.now) }
    ensures kept { OnErr result (take (length out.old.items) out.new.items ≡ out.old.items) }
{
    push_line(
        out,
        &[
            Word::Text(b"request"),
            Word::Digits(&request.session.0),
            Word::Number(request.sequence),
            Word::Number(u64::from(request.count)),
        ],
    )
}
