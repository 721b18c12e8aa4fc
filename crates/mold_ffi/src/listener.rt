//! A listener: its calls, and the structs that it writes.
pub(crate) mod batch;
pub(crate) mod batched_arbiter;
pub(crate) mod calls;
pub(crate) mod gaps;
pub(crate) mod hearing;
pub(crate) mod mold_delivery;
pub(crate) mod mold_report;
pub(crate) mod mold_taken;
mod origin;
pub(crate) mod room;
pub(crate) mod status;
pub(crate) mod taking;
