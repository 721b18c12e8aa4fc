//! The order of `mold close`.

/// The journal file that `close` closes.
#[derive(Drop)]
pub struct CloseOrder {
    /// The name of the file.
    pub journal: String,
}
