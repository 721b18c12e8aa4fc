//! A range of missing numbers.

ghost use Rattle.std.specs.Prelude.{◌≡◌, ◌&&◌, nat_le, nat_lt};
ghost use Rattle.mold_pacing.specs.Asks.{are_gaps};

/// The missing numbers from `first` to `end - 1`.
#[derive(Clone, Copy, PartialEq, Eq)]
pub struct Gap {
    /// The first missing number.
    pub first: u64,
    /// One more than the last missing number of this range.
    pub end: u64,
}

// Returns whether the gap begins at or above `low`, and is not empty.
fn is_next(gap: Gap, low: u64) -> bool
    ensures { result ≡ (nat_le low gap.first && nat_lt gap.first gap.end) }
{
    low <= gap.first && gap.first < gap.end
}

/// Returns whether the gaps are in ascending order, apart, and none of them is empty. `Pacer::poll` requires this.
pub fn are_in_order(gaps: &[Gap]) -> bool
    ensures { result ≡ are_gaps 0 gaps.now }
{
    let mut low = 0;
    for gap in gaps {
        if !is_next(*gap, low) {
            return false;
        }
        low = gap.end;
    }
    true
}
