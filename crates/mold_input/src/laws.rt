//! Theorems about what an input holds. Each law is a function with an empty body whose contract is the theorem.

ghost use Rattle.std.specs.Prelude.{◌≡◌, ℕ, ◌+◌, ◌<◌, List, [], ◌∷◌, ◌++◌, length, map, Ok, Err};
ghost use Rattle.std.specs.List.{AllByRecursion};
ghost use Rattle.byteorder.specs.Endian.{big_number};
ghost use Rattle.mold_wire.specs.Block.{IsBytes, IsMessage, block, blocks};
ghost use Rattle.mold_input.specs.Blocks.{IsCut, block_entries};
ghost use Rattle.mold_input.specs.BlocksToEmpty.{IsNotEmpty, to_empty_entries};
ghost use Rattle.mold_input.specs.declared.input_fault.InputFault.TheVariants.{Cut};
ghost use Rattle.mold_input.specs.declared.limits.TheConstants.{MAX_LINE};

/// Computes the constant of this crate.
pub fn constants_law()
    ensures line { MAX_LINE ≡ 131094 }
{}

/// What an input of blocks holds. The blocks of some messages hold these messages. If the input ends within a further
/// block, an entry for the cut block follows. Conversely, an input that holds messages alone consists of their blocks.
pub fn blocks_law()
    ensures read { (messages : List (List ℕ)) → AllByRecursion IsMessage messages →
        block_entries (blocks messages) ≡ map Ok messages }
    ensures cut { (messages : List (List ℕ)) (rest : List ℕ) → AllByRecursion IsMessage messages →
        0 < length rest → IsCut rest → block_entries (blocks messages ++ rest) ≡ map Ok messages ++ Err Cut ∷ [] }
    ensures spelled { (messages : List (List ℕ)) (bytes : List ℕ) → IsBytes bytes →
        block_entries bytes ≡ map Ok messages → bytes ≡ blocks messages }
    ensures each { (messages : List (List ℕ)) (bytes : List ℕ) → IsBytes bytes →
        block_entries bytes ≡ map Ok messages → AllByRecursion IsMessage messages }
{}

/// What an input of blocks up to the first empty one holds. Blocks of messages that are not empty hold these messages
/// if an empty block follows them, whatever follows that block. If the input ends before an empty block, an entry for
/// the cut block follows the messages. Conversely, an input that holds messages alone starts with their blocks and an
/// empty block, and none of the messages is empty.
pub fn blocks_to_empty_law()
    ensures read { (messages : List (List ℕ)) (rest : List ℕ) → AllByRecursion IsMessage messages →
        AllByRecursion IsNotEmpty messages →
        to_empty_entries (blocks messages ++ block [] ++ rest) ≡ map Ok messages }
    ensures cut { (messages : List (List ℕ)) (rest : List ℕ) → AllByRecursion IsMessage messages →
        AllByRecursion IsNotEmpty messages → IsCut rest →
        to_empty_entries (blocks messages ++ rest) ≡ map Ok messages ++ Err Cut ∷ [] }
    ensures spelled { (messages : List (List ℕ)) (bytes : List ℕ) → IsBytes bytes →
        to_empty_entries bytes ≡ map Ok messages →
        (rest : List ℕ) × (bytes ≡ blocks messages ++ block [] ++ rest) }
    ensures each { (messages : List (List ℕ)) (bytes : List ℕ) → IsBytes bytes →
        to_empty_entries bytes ≡ map Ok messages →
        AllByRecursion IsMessage messages × AllByRecursion IsNotEmpty messages }
{}
