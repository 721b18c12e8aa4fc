//! The options of an interface description.

ghost use Rattle.std.specs.Prelude.{◌≡◌, ◌+◌, ◌≤◌, length, IfSome};
ghost use Rattle.mold_pcap.specs.Options.{clock_of, first_option, with_option};

use crate::clock::Clock;
use crate::order::Order;

/// The option that states the unit of time.
const TSRESOL: u16 = 9;

/// The option that states the seconds to add to each time.
const TSOFFSET: u16 = 14;

// Returns the clock after an option.
#[tactic(auto, unfolding(crate::specs::Options::with_option))]
fn with_option(order: Order, clock: Clock, code: u16, value: &[u8]) -> Clock
    ensures { result ≡ with_option order clock code value.now }
{
    if code == TSRESOL && value.len() == 1 {
        return Clock {
            tsresol: value[0],
            tsoffset: clock.tsoffset,
        };
    }
    if code == TSOFFSET && value.len() == 8 {
        return Clock {
            tsresol: clock.tsresol,
            tsoffset: order.u64_at(value, 0),
        };
    }
    clock
}

// Returns the code of the first option and the length of its value, or `None` if the list has ended.
#[tactic(auto, unfolding(crate::specs::Options::first_option))]
fn first_option(order: Order, options: &[u8]) -> Option<(u16, u16)>
    ensures found { result ≡ first_option order options.now }
    ensures within { IfSome result (λ found. 4 + found.1 ≤ length options.now) }
{
    if options.len() < 4 {
        return None;
    }
    let code = order.u16_at(options, 0);
    if code == 0 {
        return None;
    }
    let len = order.u16_at(options, 2);
    if options.len() < 4 + usize::from(len) {
        return None;
    }
    Some((code, len))
}

/// Returns the clock that a list of options states, or the default one. If an option occurs several times, the last
/// one counts. Options after a malformed one are ignored, and so is an option whose value has another length than it should.
/// The cost is linear in the options.
pub fn read_clock(order: Order, options: &[u8]) -> Clock
    ensures { result ≡ clock_of order (record { tsresol = 6; tsoffset = 0 }) options.now }
{
    let mut clock = Clock::new();
    let mut left = options;
    while let Some((code, len)) = first_option(order, left) {
        let len = usize::from(len);
        clock = with_option(order, clock, code, &left[4..4 + len]);
        let used = (4 + (len + 3) / 4 * 4).min(left.len());
        left = left.split_at(used).1;
    }
    clock
}
