//! The trait of readers of messages.

ghost use Rattle.std.specs.Prelude.{◌≡◌, ◌<◌, ℕ, List, Result, IfOk};
ghost use Rattle.std.specs.Io.KnownBytes.{prepend_known};
ghost use Rattle.mold_devices.specs.Faults.{CountsRead};
ghost use Rattle.mold_devices.specs.Lines.{work_left};
ghost use Rattle.mold_input.specs.Entries.{GivesNext, known_entries};
ghost use Rattle.mold_input.specs.declared.input_fault.InputFault.{InputFault};
ghost use Rattle.mold_input.specs.declared.input_kind.InputKind.{InputKind};
ghost use Rattle.mold_input.specs.declared.next.Next.TheVariants.{Message};

use crate::input_kind::InputKind;
use crate::next::Next;
use mold_devices::{InputReader, ReadFault, Source};

/// A reader of the messages of a source. The type determines how bytes encode messages.
pub trait MessageReader: InputReader {
    // The entries that the bytes of an input encode, in order.
    ghost entries: { List ℕ → List (Result (List ℕ) InputFault) };

    // The kind of input that it reads.
    ghost input_kind: { InputKind };

    // The message that was found last.
    ghost found: { Self → List ℕ };

    /// Returns the kind of input that it reads.
    fn kind() -> InputKind
        ensures { result ≡ input_kind };

    /// Moves to the next entry. It reads only if the bytes read before do not contain the whole entry.
    fn advance<S: Source>(&mut self, source: &mut S) -> Result<Next, ReadFault>
        ensures next { IfOk result (λ next. GivesNext
            (known_entries entries (prepend_known (Self.unread self.old) (S.left source.old)))
            (known_entries entries (prepend_known (Self.unread self.new) (S.left source.new))) next (found self.new)) }
        ensures work { IfOk result (λ next. next ≡ Message →
            work_left (S.bound source.new) (Self.unread self.new)
            < work_left (S.bound source.old) (Self.unread self.old)) }
        ensures failures { CountsRead (S.failed source.old) (S.failed source.new) result };

    /// Returns the message that `advance` found last. After anything but `Next::Message`, the bytes are unspecified.
    fn message(&self) -> &[u8]
        ensures { result.now ≡ found self.now };
}
