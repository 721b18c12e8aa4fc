//! The system's monotonic clock, and the greatest time of a set's clock.

use libc::types::timespec;
use libc::{CLOCK_MONOTONIC, clock_gettime};

/// The greatest time of a set, in nanoseconds. Its clock stops there.
pub(crate) const LAST_TIME: u64 = (1 << 62) - 1;

const NANOS_PER_SECOND: u64 = 1_000_000_000;

/// Returns the nanoseconds on the system's monotonic clock, or 0 if the system does not report them. They stop at
/// `u64::MAX`.
pub(crate) fn monotonic() -> u64 {
    let mut time = timespec {
        tv_sec: 0,
        tv_nsec: 0,
    };
    if clock_gettime(CLOCK_MONOTONIC, &mut time) != 0 {
        return 0;
    }
    let seconds = time.tv_sec.unsigned_abs();
    seconds
        .saturating_mul(NANOS_PER_SECOND)
        .saturating_add(time.tv_nsec.unsigned_abs())
}
