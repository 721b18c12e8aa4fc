//! The names of the entries that are checked.

ghost use Rattle.std.specs.Prelude.{◌≡◌};
ghost use Rattle.mold_check.specs.Naming.{lent_names, listed};

use crate::entry::Entry;
use crate::naming::Naming;
use mold_rule::Refusal;
use mold_text::{Word, push_refusal};
use std::alloc::AllocError;

/// The names of entries. The number of a datagram is the index of its entry.
#[derive(Clone, Copy)]
pub(crate) struct EntryNames<'a> {
    pub(crate) order: &'a [&'a Entry],
}

impl<'a> EntryNames<'a> {
    // Returns the name of the entry at this index.
    fn name(&self, index: u64) -> &[u8]
        ensures { result.now ≡ listed (lent_names self.now.order.now) index }
    {
        match self.order.get(index as usize) {
            Some(entry) => entry.name.as_str().as_bytes(),
            None => b"",
        }
    }
}

impl<'a> Naming for EntryNames<'a> {
    ghost use Rattle.mold_check.specs.Naming.{lent_names, listed};

    ghost named = { λ names. listed (lent_names names.order.now) };

    fn push_refused(
        &self,
        text: &mut Vec<u8>,
        number: u64,
        why: Refusal,
    ) -> Result<(), AllocError> {
        push_refusal(
            text,
            &[Word::Text(b"refused"), Word::Text(self.name(number))],
            why,
        )
    }
}
