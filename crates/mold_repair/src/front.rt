//! How far the requests in flight reach.

/// What a search for free numbers learned: the missing numbers below `number` are in flight until the time `until`. So
/// the next search begins there.
#[derive(Clone, Copy)]
pub(crate) struct Front {
    pub(crate) number: u64,
    pub(crate) until: u64,
}
