//! The assertions of all modules: each costs its proof once.

ghost use Rattle.std.specs.Prelude.{IsTrue};

use std::process::Abort;

/// Fails if a fact does not hold.
pub fn holds(rt: &impl Abort, fact: bool)
    ensures { IsTrue fact }
{
    assert!(rt; fact);
}

/// Fails if the case or the step of this index is not as it states.
pub fn holds_at(rt: &impl Abort, fact: bool, name: &str, at: usize) {
    assert!(rt; fact, "{name} {at}");
}

/// Fails unless both are the same bytes, or neither has any.
pub fn same_message(rt: &impl Abort, found: Option<&[u8]>, wanted: Option<&[u8]>) {
    holds(rt, found == wanted);
}
