//! The order of `mold extract`.

ghost use Rattle.std.specs.Prelude.{◌≤◌};
ghost use Rattle.mold_wire.specs.declared.limits.TheConstants.{MAX_NUMBER};

use crate::extract_form::ExtractForm;
use crate::input_order::InputOrder;

/// The datagrams whose messages `extract` writes, which of them it writes, and the file.
#[derive(Drop)]
pub struct ExtractOrder {
    /// Where the datagrams are read.
    pub input: InputOrder,
    /// The name of the file that the messages are written to.
    pub to: String,
    /// The form in which the messages are written.
    pub form: ExtractForm,
    /// The sequence number of the first message that is written, 1 to `MAX_NUMBER`.
    pub from: u64,
    /// The maximum number of messages that are written. With `MAX_NUMBER` all messages from `from` on are written,
    /// since no session has more.
    pub count: u64,
    ghost first: { (1 ≤ from) × (from ≤ MAX_NUMBER) },
}
