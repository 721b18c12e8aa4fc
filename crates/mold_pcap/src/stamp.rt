//! The time of a frame as the capture has it.

ghost use Rattle.std.specs.Prelude.{◌≡◌, ◌<◌, IfSome};
ghost use Rattle.mold_pcap.specs.Times.{classic_time, time_of};

use crate::clock::Clock;
use crate::resolution::Resolution;
use crate::time::FrameTime;

/// The time of a frame as the capture has it.
#[derive(Clone, Copy)]
pub enum Stamp {
    /// A simple packet has no time.
    Absent,
    /// The seconds and the fraction of a record.
    Classic {
        seconds: u32,
        fraction: u32,
        resolution: Resolution,
    },
    /// The units of an enhanced packet.
    Units {
        units: u64,
        clock: Clock,
    },
}

// Returns the time of seconds and a fraction. A fraction beyond a second is carried over.
fn classic_time(seconds: u32, fraction: u32, resolution: Resolution) -> FrameTime
    ensures time { result ≡ classic_time seconds fraction resolution }
    ensures below { result.nanoseconds < 1000000000 }
{
    let seconds = u64::from(seconds);
    match resolution {
        Resolution::Microseconds => FrameTime {
            seconds: seconds + u64::from(fraction / 1_000_000),
            nanoseconds: fraction % 1_000_000 * 1_000,
        },
        Resolution::Nanoseconds => FrameTime {
            seconds: seconds + u64::from(fraction / 1_000_000_000),
            nanoseconds: fraction % 1_000_000_000,
        },
    }
}

impl Stamp {
    /// Returns the time, or `None` if there is none, its unit is unknown, or it is before 1970 or too late.
    pub fn time(self) -> Option<FrameTime>
        ensures time { result ≡ time_of self }
        ensures below { IfSome result (λ time. time.nanoseconds < 1000000000) }
    {
        match self {
            Stamp::Absent => None,
            Stamp::Classic {
                seconds,
                fraction,
                resolution,
            } => Some(classic_time(seconds, fraction, resolution)),
            Stamp::Units { units, clock } => clock.time(units),
        }
    }
}
