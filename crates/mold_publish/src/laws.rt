//! Theorems about what an input is published as. Each law is a function with an empty body whose contract is the
//! theorem.

ghost use Rattle.std.specs.Prelude.{◌≡◌, ℕ, List, map};
ghost use Rattle.mold_devices.specs.Lines.{lines_of};
ghost use Rattle.mold_input.specs.Entries.{line_entries, line_entry};
ghost use Rattle.mold_input.specs.declared.input_kind.InputKind.TheVariants.{Lines};
ghost use Rattle.mold_publish.specs.Publishing.{input_published, lines_published};
ghost use Rattle.mold_session.specs.Journal.{JournalState};

/// An input of lines is published line by line: each line as the message that its digits encode.
pub fn lines_published_law()
    ensures lines { (journal : JournalState) (lines : List (List ℕ)) →
        input_published journal (record { kind = Lines; entries = map line_entry lines })
        ≡ lines_published journal lines }
    ensures input { (journal : JournalState) (input : List ℕ) →
        input_published journal (record { kind = Lines; entries = line_entries input })
        ≡ lines_published journal (lines_of input) }
{}
