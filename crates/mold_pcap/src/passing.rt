//! Blocks that are passed over.

ghost use Rattle.std.specs.Prelude.{◌≡◌, ◌<◌, ◌≤◌, IfOk};
ghost use Rattle.std.specs.Io.KnownBytes.{prepend_known};
ghost use Rattle.mold_devices.specs.Devices.{Counts};
ghost use Rattle.mold_devices.specs.Lines.{work_left};
ghost use Rattle.mold_pcap.specs.Passing.{PassesBlock};
ghost use Rattle.mold_pcap.specs.declared.passing.Passing.TheVariants.{Whole};

use crate::order::Order;
use crate::window::Window;
use mold_devices::{DeviceFault, Source};

/// How a block was passed over.
#[derive(Clone, Copy)]
pub enum Passing {
    /// The block is whole, and was passed.
    Whole,
    /// The source ends within the block.
    Cut,
    /// The length at the block's end differs from the one at its beginning.
    Differs,
}

/// Passes a block of this total length, and compares the length at its end. The block may be longer than the window.
pub fn pass_block<S: Source>(
    window: &mut Window,
    source: &mut S,
    order: Order,
    total: usize,
) -> Result<Passing, DeviceFault>
    requires { 12 ≤ total }
    ensures passed { IfOk result (λ passing. PassesBlock order total passing
        (prepend_known window.old (S.left source.old)) (prepend_known window.new (S.left source.new))) }
    ensures work { IfOk result (λ passing. passing ≡ Whole →
        work_left (S.bound source.new) window.new < work_left (S.bound source.old) window.old) }
    ensures failures { Counts (S.failed source.old) (S.failed source.new) result }
{
    if !window.pass(total - 4, source)? {
        return Ok(Passing::Cut);
    }
    if !window.fill(4, source)? {
        return Ok(Passing::Cut);
    }
    if order.u32_at(window.rest(), 0) as usize != total {
        return Ok(Passing::Differs);
    }
    window.skip(4);
    Ok(Passing::Whole)
}
