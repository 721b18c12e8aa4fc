//! Waits for descriptors. A signal does not end a wait.

use libc::net::poll;
use libc::types::{pollfd, timespec};
use libc::{CLOCK_MONOTONIC, EINTR, clock_gettime};
use mold_devices::DeviceFault;
use os::errno;
use std::os::fd::RawFd;

const MILLIS_PER_SECOND: u64 = 1000;

const NANOS_PER_MILLI: u64 = 1_000_000;

/// The value that `poll` takes for no descriptor.
pub(crate) const NO_DESCRIPTOR: RawFd = -1;

/// Returns the entry for `poll` that reports whether the descriptor is ready for these events. `NO_DESCRIPTOR` never
/// is.
pub(crate) fn watched(descriptor: RawFd, events: i16) -> pollfd {
    pollfd {
        fd: descriptor,
        events,
        revents: 0,
    }
}

// Returns the milliseconds on the system's monotonic clock, or 0 if the system does not report them.
fn monotonic() -> u64 {
    let mut time = timespec {
        tv_sec: 0,
        tv_nsec: 0,
    };
    if clock_gettime(CLOCK_MONOTONIC, &mut time) != 0 {
        return 0;
    }
    let seconds = time.tv_sec.unsigned_abs();
    seconds
        .saturating_mul(MILLIS_PER_SECOND)
        .saturating_add(time.tv_nsec.unsigned_abs() / NANOS_PER_MILLI)
}

/// Returns the time of the system's clock in `time` milliseconds.
pub(crate) fn time_after(time: u16) -> u64 {
    monotonic().saturating_add(u64::from(time))
}

// Returns the milliseconds before a time of the system's clock, at most `most`.
fn rest(until: u64, most: u16) -> u16 {
    until.saturating_sub(monotonic()).min(u64::from(most)) as u16
}

/// Waits until one of the descriptors is ready or a time of the system's clock has come, at most `most` milliseconds
/// without a signal. If a signal interrupts the wait, it goes on.
pub(crate) fn wait_until(asked: &mut [pollfd], until: u64, most: u16) -> Result<(), DeviceFault> {
    for _ in 0..u64::MAX {
        let rest = rest(until, most);
        if poll(asked, i32::from(rest)) >= 0 {
            return Ok(());
        }
        if errno() != EINTR {
            return Err(DeviceFault);
        }
        if rest == 0 {
            return Ok(());
        }
    }
    Err(DeviceFault)
}

/// Waits until one of the descriptors is ready, at most `time` milliseconds. If a signal interrupts the wait, it goes
/// on for the rest of the time.
pub(crate) fn wait_for(asked: &mut [pollfd], time: u16) -> Result<(), DeviceFault> {
    wait_until(asked, time_after(time), time)
}
