//! The trait of what takes the lengths of the messages that a reader passes.

ghost use Rattle.std.specs.Prelude.{[], ◌∷◌, ◌++◌, ℕ, List};
ghost use Rattle.std.specs.Bool.{OnFalse, OnTrue};

/// Takes the lengths of messages, in order, while a reader passes the messages.
pub trait LengthTaker {
    // The second value is the first one after it took these lengths.
    ghost takes: { Self → Self → List ℕ → Type 0 };

    /// Takes the length of the next message, in bytes. Returns false if it does not take it.
    fn take(&mut self, len: u16) -> bool
        ensures taken { (earlier : Self) (lengths : List ℕ) → takes earlier self.old lengths →
            OnTrue result (takes earlier self.new (lengths ++ len ∷ [])) }
        ensures same { (earlier : Self) (lengths : List ℕ) → takes earlier self.old lengths →
            OnFalse result (takes earlier self.new lengths) };
}
