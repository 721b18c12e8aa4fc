//! The order of `mold check`.

use crate::input_order::InputOrder;
use crate::judging::Judging;

/// The datagrams that `check` judges, and how.
#[derive(Drop)]
pub struct CheckOrder {
    /// Where the datagrams are read.
    pub input: InputOrder,
    /// How they are judged.
    pub judging: Judging,
}
