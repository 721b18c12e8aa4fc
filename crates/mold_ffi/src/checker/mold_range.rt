//! A range of sequence numbers as the fields of a struct.

ghost use Rattle.std.specs.Prelude.{◌≡◌};
ghost use Rattle.mold_capture.specs.Verdict.{ranges_of};
ghost use Rattle.mold_ffi.specs.Checker.MoldRange.{AreFilled, range_of};
ghost use Rattle.mold_rule.specs.Ranges.{range as numbers};

use mold_capture::Range;

/// The sequence numbers from `first` to `last`, inclusive.
#[repr(C)]
#[derive(Clone, Copy)]
pub struct MoldRange {
    /// The first number.
    pub first: u64,
    /// The last number, at least `first`.
    pub last: u64,
}

impl MoldRange {
    /// The fields of a range.
    pub(crate) fn of(range: Range) -> MoldRange
        ensures { range_of result ≡ numbers range.first range.last }
    {
        MoldRange {
            first: range.first,
            last: range.last,
        }
    }
}

/// Writes the first ranges to the array, as many as it has room for.
pub(crate) fn fill_places(missing: &[Range], places: &mut [MoldRange])
    ensures { AreFilled (ranges_of missing.now) places.old places.new }
{
    let mut filled = 0;
    for range in missing {
        if filled == places.len() {
            return;
        }
        places[filled] = MoldRange::of(*range);
        filled += 1;
    }
}
