//! How the datagrams of a check are named in its report.

ghost use Rattle.std.specs.Prelude.{◌≡◌, ◌++◌, ◌∷◌, ℕ, List, length, take, OnErr, OnOk};
ghost use Rattle.mold_text.specs.Text.{refusal_words, refused_line};

use mold_rule::Refusal;
use mold_text::{Word, push_refusal};
use std::alloc::AllocError;

/// Names the datagrams of a check by their numbers.
pub trait Naming {
    // The name of the datagram with this number.
    ghost named: { Self → ℕ → List ℕ };

    /// Appends the line of the datagram with this number, which is refused for this reason.
    fn push_refused(&self, text: &mut Vec<u8>, number: u64, why: Refusal) -> Result<(), AllocError>
        ensures line { OnOk result (text.new.items ≡
            text.old.items ++ refused_line (named self.now number ∷ refusal_words why)) }
        ensures kept { OnErr result (take (length text.old.items) text.new.items ≡ text.old.items) };
}

/// The names by a word and the number.
#[derive(Clone, Copy)]
pub struct Counted<'a> {
    /// The word, which states what is counted.
    pub word: &'a [u8],
}

impl<'a> Naming for Counted<'a> {
    ghost use Rattle.mold_check.specs.Naming.{counted};

    ghost named = { λ names. counted names.word.now };

    fn push_refused(
        &self,
        text: &mut Vec<u8>,
        number: u64,
        why: Refusal,
    ) -> Result<(), AllocError> {
        push_refusal(
            text,
            &[
                Word::Text(b"refused"),
                Word::Text(self.word),
                Word::Number(number),
            ],
            why,
        )
    }
}
