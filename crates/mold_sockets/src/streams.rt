//! Standard output of the commands over sockets.

use mold_devices::{CommandFault, IntoWrite};
use mold_session::FileError;
use mold_wiring::{flushed, print_file_refusal};
use std::io::{Stdout, Write};

/// Returns standard output as a sink. If `live` is set, text is written as soon as it is available.
pub(crate) fn standard_output(rt: &HostRuntime, live: bool) -> IntoWrite<Stdout> {
    if live {
        IntoWrite::live(rt.stdout())
    } else {
        IntoWrite::new(rt.stdout())
    }
}

/// Prints on standard output why a file is not a journal.
pub(crate) fn tell_refused(rt: &HostRuntime, error: FileError) -> Result<u8, CommandFault> {
    let mut sink = IntoWrite::new(rt.stdout());
    let outcome = print_file_refusal(rt.alloc(), error, &mut sink);
    flushed(outcome, sink.into_inner().flush())
}
