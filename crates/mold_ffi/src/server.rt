//! A server: its calls, and the journal or publisher from which it responds.
pub(crate) mod answering;
pub(crate) mod calls;
pub(crate) mod journal_below;
pub(crate) mod mold_plan;
pub(crate) mod serving;
