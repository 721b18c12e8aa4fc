//! A repairer: its calls, and the structs that it reads and writes.
pub(crate) mod batched_repairer;
pub(crate) mod calls;
pub(crate) mod mold_repair_options;
pub(crate) mod mold_repair_stats;
mod origin;
