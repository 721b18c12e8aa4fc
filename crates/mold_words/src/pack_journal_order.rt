//! The order of `mold pack --journal`.

use crate::pack_order::PackOrder;

/// The session whose messages `pack` saves as a journal, and the file.
#[derive(Drop)]
pub struct PackJournalOrder {
    /// The session, the limit, and the format of the input.
    pub pack: PackOrder,
    /// The name of the file that the journal is saved in.
    pub journal: String,
}
