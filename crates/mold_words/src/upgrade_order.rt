//! The order of `mold upgrade`.

/// The journal files that `upgrade` reads and writes.
#[derive(Drop)]
pub struct UpgradeOrder {
    /// The name of the file that is read.
    pub journal: String,
    /// The name of the file that is created or replaced. It differs from `journal`.
    pub to: String,
    /// Whether the new journal is closed even if the old one is open.
    pub close: bool,
}
