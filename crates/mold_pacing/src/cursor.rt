//! How far a walk over the requests has come.

/// How far a walk over the requests has come. It begins with index 0 and any number, or with
/// what `Pacer::cursor` returns.
#[derive(Clone, Copy)]
pub struct Cursor {
    /// The index of the next request to look at. Those before it that are in flight end at or below `number`.
    pub index: usize,
    /// The least number that can be free.
    pub number: u64,
}
