//! Laws: theorems about the definitions alone. Each law is a function that does nothing, and its contract is the
//! theorem.

ghost use Rattle.std.specs.Prelude.{ℕ, Result};
ghost use Rattle.mold_devices.specs.Faults.{CountsCommand, CountsSink};
ghost use Rattle.mold_devices.specs.declared.fault.CommandFault.{CommandFault};

/// A journal in memory never fails: its count of failures stays 0. So `serve_loop` never ends with `Read` for it, and
/// the clause `failures` states how the failures of the sink are counted.
#[tactic(auto, using(crate::proofs::FileErrorLemmas::never_failed))]
pub fn in_memory_law()
    ensures { (result : Result ℕ CommandFault) (old new : ℕ) →
        CountsCommand 0 0 old new result → CountsSink old new result }
{}
