//! Laws of the definitions of this crate.

ghost use Rattle.std.specs.Prelude.{◌≡◌, ℕ, List};
ghost use Rattle.mold_feeder.specs.ToEmpty.{marked};
ghost use Rattle.mold_input.specs.Blocks.{block_entries};
ghost use Rattle.mold_input.specs.BlocksToEmpty.{to_empty_entries};

/// States that an input that comes in pieces and ends before its first empty block has the entries of an input of
/// blocks that ends there: its messages before that block, or a block that is cut if there is none.
pub fn marked_law()
    ensures { (bytes : List ℕ) → block_entries (marked bytes) ≡ to_empty_entries bytes }
{}
