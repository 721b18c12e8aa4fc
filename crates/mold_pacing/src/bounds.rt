//! Bounds on the times and the numbers of the requests.

/// What is known of all requests of a table, so that most calls need no walk over it.
#[derive(Clone, Copy)]
pub(crate) struct Bounds {
    /// No request is over before this time.
    pub(crate) over: u64,
    /// Each request ends at or below this number.
    pub(crate) end: u64,
    /// Each request in flight begins at or above this number.
    pub(crate) low: u64,
}
