//! What the steps of the input's lines are applied to.

use std::alloc::AllocError;

/// A repairer or a device, to which the steps of the input's lines are applied.
pub(crate) trait Calls {
    /// Makes the call that the line names, and appends what it returns. Any other line is `refused Syntax`.
    fn apply(&mut self, line: &[u8], out: &mut Vec<u8>) -> Result<(), AllocError>;
}
