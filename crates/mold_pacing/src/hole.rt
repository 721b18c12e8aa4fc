//! The numbers between two requests in flight.

/// The numbers from `first` to `end - 1`, none of which is in flight.
#[derive(Clone, Copy)]
pub struct Hole {
    /// The index of the next request. Those before it that are in flight end at or below `first`.
    pub index: usize,
    /// The first number that is not in flight.
    pub first: u64,
    /// The first number of the next request, or `u64::MAX` if there is none.
    pub end: u64,
    /// The time until which the numbers from the cursor's one to below `first` are in flight.
    pub until: u64,
}
