//! The assertions of all modules: each costs its proof once. `at` is the index or the number of a case in its test.

ghost use Rattle.std.specs.Prelude.{IsTrue};

use std::process::Abort;

/// Fails if a fact does not hold.
pub fn holds(rt: &impl Abort, fact: bool)
    ensures { IsTrue fact }
{
    assert!(rt; fact);
}

/// Fails if a fact of a case does not hold.
pub fn holds_at(rt: &impl Abort, fact: bool, what: &str, at: usize) {
    assert!(rt; fact, "{what} {at}");
}

/// Fails if the text of a case is not this.
pub fn same_text(rt: &impl Abort, found: &[u8], wanted: &[u8], at: usize) {
    assert_eq!(rt; found, wanted, "at {at}");
}
