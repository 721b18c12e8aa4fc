//! The messages of a journal from which a server responds.

ghost use Rattle.std.specs.Prelude.{◌≡◌};
ghost use Rattle.mold_ffi.specs.Publisher.Exchange.{sent_journal};

use mold_session::{Journal, Publisher};
use std::marker::Model;

/// The messages of a journal with numbers below `below`.
#[derive(Drop)]
pub(crate) struct JournalBelow<'a> {
    /// The journal.
    pub(crate) journal: &'a Journal,
    /// One more than the number of the last message, at least 1.
    pub(crate) below: u64,
}

impl<'a> Model for JournalBelow<'a> {
    ghost use Rattle.std.specs.Prelude.{◌+◌, ◌≤◌, length};
    ghost use Rattle.mold_session.specs.Journal.{JournalState, journal_below};

    ghost Value = { JournalState };

    ghost view = { λ j. journal_below j.journal.now j.below };

    ghost invariant = { λ j. (1 ≤ j.below) × (j.below ≤ length j.journal.now.messages + 1) };
}

impl<'a> JournalBelow<'a> {
    /// All messages of the journal.
    #[tactic(auto, using(crate::proofs::BelowLemmas::all_below))]
    pub(crate) fn whole(journal: &'a Journal) -> JournalBelow<'a>
        ensures { result ≡ journal.now }
    {
        JournalBelow {
            journal,
            below: journal.next(),
        }
    }

    /// The sent messages of the publisher.
    pub(crate) fn sent_by(publisher: &'a Publisher) -> JournalBelow<'a>
        ensures { result ≡ sent_journal publisher.now }
    {
        let journal = publisher.journal();
        JournalBelow {
            journal,
            below: journal.next() - publisher.unsent(),
        }
    }
}
