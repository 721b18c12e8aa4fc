//! The lines on standard error that state why a send on a line failed.

ghost use Rattle.std.specs.Prelude.{◌≡◌, IfOk};
ghost use Rattle.mold_feed_command.specs.Ports.{failed_line};

use mold_devices::{IntoWrite, send};
use mold_text::{Word, push_line};
use os::error_text;
use std::alloc::{AllocError, Global};
use std::io::Stderr;
use std::net::SocketAddrV4;

/// The greatest length of the C library's text for an error.
const TEXT: usize = 128;

/// Prints why a send on a line failed, only for the first failed send of each line.
#[derive(Drop)]
pub(crate) struct FailedSends {
    alloc: Global,
    errors: IntoWrite<Stderr>,
    // Whether a send on line A, or on line B, has failed.
    on_a: bool,
    on_b: bool,
}

impl FailedSends {
    /// Returns the state before the first send. The lines are printed on `errors`.
    pub(crate) fn new(alloc: Global, errors: Stderr) -> FailedSends {
        FailedSends {
            alloc,
            errors: IntoWrite::new(errors),
            on_a: false,
            on_b: false,
        }
    }

    /// Notes that a send to the address of line A, if `is_a` is true, or of line B failed with the error `code` of the
    /// system. If its line can't be printed, nothing is.
    pub(crate) fn note(&mut self, is_a: bool, to: SocketAddrV4, code: i32) {
        let noted = if is_a { self.on_a } else { self.on_b };
        if noted {
            return;
        }
        if is_a {
            self.on_a = true;
        } else {
            self.on_b = true;
        }
        let mut text = [0u8; TEXT];
        let count = error_text(code, &mut text);
        if let Ok(mut line) = failed_line(self.alloc, to, &text[..count]) {
            let _ = send(&mut self.errors, &mut line);
        }
    }
}

// Returns the line for a failed send to this address.
fn failed_line(alloc: Global, to: SocketAddrV4, reason: &[u8]) -> Result<Vec<u8>, AllocError>
    ensures { IfOk result (λ line. line.items ≡ failed_line to reason.now) }
{
    let address = to.to_string(alloc)?;
    let mut line = Vec::new(alloc);
    let words = [
        Word::Text(b"failed"),
        Word::Text(address.as_bytes()),
        Word::Text(reason),
    ];
    push_line(&mut line, &words)?;
    Ok(line)
}
