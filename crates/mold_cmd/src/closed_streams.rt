//! The standard streams that are closed when the program starts.

use libc::{EBADF, SEEK_CUR, STDERR_FILENO, STDIN_FILENO, STDOUT_FILENO, lseek};
use mold_devices::{CommandFault, IntoWrite};
use mold_wiring::print_explanation;
use mold_words::{InputOrder, Judging, Order};
use os::errno;
use std::fs::OpenOptions;
use std::os::fd::{AsRawFd, IntoRawFd, RawFd};

/// The file that a closed standard stream is opened on.
const NO_FILE: &str = "/dev/null";

const NOT_OPENED: &str = "it can't be opened";

/// Which standard streams were closed when the program started.
#[derive(Clone, Copy)]
pub(crate) struct ClosedStreams {
    input: bool,
    output: bool,
    errors: bool,
}

// The standard streams without which a command ends before it opens a file.
#[derive(Clone, Copy)]
struct Needs {
    input: bool,
    output: bool,
    errors: bool,
}

impl ClosedStreams {
    /// Opens each standard stream that is closed: standard input for writing only, the others for reading only. So each
    /// read or write there fails as on a closed descriptor, and no file or socket that is opened later gets the number
    /// of a standard stream. A file that can't be opened is a fault of that stream, and is explained.
    pub(crate) fn open(rt: &HostRuntime) -> Result<ClosedStreams, CommandFault> {
        let Ok(input) = reserve(rt, STDIN_FILENO, true) else {
            explain(rt);
            return Err(CommandFault::Read);
        };
        let (Ok(output), Ok(errors)) = (
            reserve(rt, STDOUT_FILENO, false),
            reserve(rt, STDERR_FILENO, false),
        ) else {
            explain(rt);
            return Err(CommandFault::Write);
        };
        Ok(ClosedStreams {
            input,
            output,
            errors,
        })
    }

    /// Returns the fault of an order that writes a file and needs a stream that was closed. Such an order is not run,
    /// so no file is created or changed.
    pub(crate) fn fault_of(self, order: &Order) -> Option<CommandFault> {
        let needs = needs_of(order);
        if needs.input && self.input {
            return Some(CommandFault::Read);
        }
        if needs.output && self.output || needs.errors && self.errors {
            return Some(CommandFault::Write);
        }
        None
    }
}

// Opens the descriptor of a standard stream if it is closed, for writing only or for reading only, and returns whether
// it was. It stays open as long as the process. The system gives a file that is opened the lowest number that is free.
fn reserve(rt: &HostRuntime, descriptor: RawFd, writes: bool) -> Result<bool, CommandFault> {
    if lseek(descriptor, 0, SEEK_CUR) != -1 || errno() != EBADF {
        return Ok(false);
    }
    let mut options = OpenOptions::new();
    let Ok(file) = options.read(!writes).write(writes).open(rt, NO_FILE) else {
        return Err(CommandFault::Write);
    };
    if file.as_raw_fd() == descriptor {
        let _ = file.into_raw_fd();
    }
    Ok(true)
}

// Explains that no file could be opened.
fn explain(rt: &HostRuntime) {
    let mut errors = IntoWrite::new(rt.stderr());
    let _ = print_explanation(rt.alloc(), NO_FILE, "", NOT_OPENED, &mut errors);
}

// Returns whether standard input is read for this input.
fn reads_standard_input(input: &InputOrder) -> bool {
    match input {
        InputOrder::Lines => true,
        InputOrder::Folder(_) => false,
        InputOrder::Captures(order) => {
            let mut is_read = false;
            for name in &order.captures {
                is_read = is_read || name.as_str() == "-";
            }
            is_read
        }
    }
}

// Returns the streams that an order needs which writes a file. Other orders need none: their reads and writes fail.
fn needs_of(order: &Order) -> Needs {
    let (input, output, errors) = match order {
        Order::PackJournal(_) | Order::Publish(_) | Order::Feed(_) => (true, true, false),
        Order::Extract(order) => (reads_standard_input(&order.input), true, false),
        Order::Check(order) => match &order.judging {
            Judging::Save { journal: _ } => (reads_standard_input(&order.input), true, false),
            _ => (false, false, false),
        },
        Order::Upgrade(_) | Order::Close(_) => (false, true, false),
        // All its text is printed on standard error.
        Order::Record(_) => (false, false, true),
        _ => (false, false, false),
    };
    Needs {
        input,
        output,
        errors,
    }
}
