//! The waits of the command, on descriptors.

ghost use Rattle.std.specs.Prelude.{◌≡◌, ◌≤◌, ◌<◌, ◌+◌, ◌*◌};

use libc::net::poll;
use libc::types::{pollfd, timespec};
use libc::{EINTR, nanosleep};
use mold_devices::DeviceFault;
use os::errno;
use std::os::fd::RawFd;

const NANOS_PER_MILLI: u64 = 1_000_000;

/// The longest wait in milliseconds.
const WAIT: u64 = 1000;

/// The value that `poll` takes for no descriptor.
pub(crate) const NO_DESCRIPTOR: RawFd = -1;

/// Returns the entry for `poll` that reports whether the descriptor is ready for these events. `NO_DESCRIPTOR` never is.
pub(crate) fn watched(descriptor: RawFd, events: i16) -> pollfd {
    pollfd {
        fd: descriptor,
        events,
        revents: 0,
    }
}

// Returns the whole milliseconds of a time, at most `WAIT`.
fn millis(nanos: u64) -> u64
    ensures within { result ≤ WAIT }
    ensures least { result * NANOS_PER_MILLI ≤ nanos }
{
    (nanos / NANOS_PER_MILLI).min(WAIT)
}

// Sleeps for a time below a second. A signal may end it before.
fn sleep(nanos: u64) {
    let asked = timespec {
        tv_sec: 0,
        tv_nsec: nanos.cast_signed(),
    };
    let mut left = timespec {
        tv_sec: 0,
        tv_nsec: 0,
    };
    nanosleep(&asked, &mut left);
}

/// Waits until a descriptor is ready, at most for this time in nanoseconds, and at most for a second. It may end up to a
/// millisecond early, but not without waiting: a part of a millisecond is slept, whether a descriptor becomes ready
/// meanwhile or not. A signal may end it before. A fault means that the system refuses the wait, and takes a millisecond.
pub(crate) fn wait_for(watched: &mut [pollfd], nanos: u64) -> Result<(), DeviceFault> {
    let ready = poll(watched, millis(nanos) as i32);
    if ready == 0 && 0 < nanos && nanos < NANOS_PER_MILLI {
        sleep(nanos);
    }
    if ready < 0 && errno() != EINTR {
        sleep(NANOS_PER_MILLI);
        return Err(DeviceFault);
    }
    Ok(())
}
