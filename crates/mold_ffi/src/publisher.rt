//! A publisher: its calls, and its server.
pub(crate) mod calls;
pub(crate) mod exchange;
pub(crate) mod journal_calls;
pub(crate) mod records;
pub(crate) mod resuming;
