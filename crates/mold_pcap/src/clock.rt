//! How an interface of pcapng counts time.

ghost use Rattle.std.specs.Prelude.{◌≡◌, ◌^◌, ◌<◌, IfSome};
ghost use Rattle.mold_pcap.specs.Times.{nanoseconds_of, shifted, ticks_of, units_time};

use crate::time::FrameTime;

/// How an interface counts time: in units since the start of 1970, moved by an offset.
#[derive(Clone, Copy)]
pub struct Clock {
    /// The unit, as in the option `if_tsresol`: 10 to the power of the negative value below 128, or 2 to the power of
    /// the negative value less 128 from there on.
    pub tsresol: u8,
    /// The seconds to add, as in the option `if_tsoffset`: a signed number in two's complement.
    pub tsoffset: u64,
}

impl Clock {
    /// Returns the clock of an interface without options: it counts microseconds.
    pub fn new() -> Clock
        ensures { result ≡ record { tsresol = 6; tsoffset = 0 } }
    {
        Clock {
            tsresol: 6,
            tsoffset: 0,
        }
    }

    // Returns the number of units in a second, or `None` if it is not below 2^64.
    #[tactic(auto, unfolding(crate::specs::Times::ticks_of))]
    fn ticks(self) -> Option<u64>
        ensures ticks { result ≡ ticks_of self.tsresol }
        ensures some { IfSome result (λ ticks. 0 < ticks) }
    {
        if self.tsresol < 128 {
            if self.tsresol > 19 {
                return None;
            }
            return Some(10u64.pow(u32::from(self.tsresol)));
        }
        if self.tsresol > 191 {
            return None;
        }
        Some(2u64.pow(u32::from(self.tsresol - 128)))
    }

    // Returns the seconds moved by the offset, or `None` if they are below 0 or not below 2^64.
    #[tactic(auto, unfolding(crate::specs::Times::shifted))]
    fn shift(self, seconds: u64) -> Option<u64>
        ensures { result ≡ shifted self.tsoffset seconds }
    {
        let (sum, wrapped) = seconds.overflowing_add(self.tsoffset);
        let is_negative = self.tsoffset >= 1 << 63;
        if wrapped == is_negative {
            Some(sum)
        } else {
            None
        }
    }

    /// Returns the time of a count of units, or `None` if the unit is unknown or the time is before 1970 or too late.
    #[tactic(auto, unfolding(crate::specs::Times::units_time))]
    pub fn time(self, units: u64) -> Option<FrameTime>
        ensures time { result ≡ units_time self units }
        ensures below { IfSome result (λ time. time.nanoseconds < 1000000000) }
    {
        let ticks = self.ticks()?;
        let seconds = self.shift(units / ticks)?;
        Some(FrameTime {
            seconds,
            nanoseconds: nanoseconds(units % ticks, ticks),
        })
    }
}

// Returns the nanoseconds of a part of a second, which has `ticks` units.
fn nanoseconds(part: u64, ticks: u64) -> u32
    requires { part < ticks }
    ensures value { result ≡ nanoseconds_of part ticks }
    ensures below { result < 1000000000 }
{
    (u128::from(part) * 1_000_000_000 / u128::from(ticks)) as u32
}
