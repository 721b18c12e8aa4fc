//! A checker: its calls, and the structs that it writes.
pub(crate) mod calls;
pub(crate) mod mold_range;
pub(crate) mod mold_verdict;
