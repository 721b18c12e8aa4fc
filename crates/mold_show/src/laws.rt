//! The laws of this crate: theorems about the definitions alone. Each is a function that does nothing, and its
//! contract is the theorem.

ghost use Rattle.std.specs.Prelude.{◌≡◌, ◌-◌, ◌≤◌, ◌++◌, ℕ, List, [], None, false, length, true};
ghost use Rattle.std.specs.List.{AllByRecursion, list_any};
ghost use Rattle.mold_wire.specs.Block.{IsBytes, block, blocks};
ghost use Rattle.mold_wire.specs.declared.limits.TheConstants.{MESSAGE_OVERHEAD};
ghost use Rattle.mold_devices.specs.Lines.{lines_of};
ghost use Rattle.mold_input.specs.declared.message_format.MessageFormat.TheVariants.{Lines, Blocks, BlocksToEmpty};
ghost use Rattle.mold_publish.specs.Publishing.{lines_published, packed_status};
ghost use Rattle.mold_session.specs.Contents.{FileContents};
ghost use Rattle.mold_session.specs.Journal.{IsWithin, fresh_journal};
ghost use Rattle.mold_session.specs.Loading.{SpellsFile};
ghost use Rattle.mold_session.specs.declared.loading.FileHead.{FileHead};
ghost use Rattle.mold_session.specs.Publisher.{fresh_publisher};
ghost use Rattle.mold_show.specs.Dump.{PrintsAll, dump_text, is_empty};
ghost use Rattle.mold_show.specs.Pack.{pack_status, pack_text, packed_text};
ghost use Rattle.mold_wire.specs.declared.session.Session.{Session};

use mold_publish::laws::lines_published_law;
use mold_session::laws::{contents_law, one_file_law};

/// Computes the text that `pack` prints for an input of lines, and its exit status, from these lines. They are published
/// in order, up to the first one that is refused. The text is what `packed_text` defines for the published messages and
/// the refusal, if there is one.
pub fn pack_lines_law()
    ensures text { (session : Session) (limit : ℕ) (input : List ℕ) →
        let publisher = fresh_publisher session limit in
        let published = lines_published publisher.journal (lines_of input) in
        pack_text Lines session limit input
        ≡ packed_text publisher.limit publisher.sent published.journal published.refused }
    ensures status { (session : Session) (limit : ℕ) (input : List ℕ) →
        pack_status Lines session limit input
        ≡ packed_status (lines_published (fresh_publisher session limit).journal (lines_of input)).refused }
{
    lines_published_law();
}

/// If the lines that `dump` prints for a journal's file are published, the new journal has the same messages. The
/// session must have the same name, and its limit must be at least `MESSAGE_OVERHEAD` bytes more than each
/// message. No line is refused.
pub fn dump_law()
    ensures { (head : FileHead) (messages : List (List ℕ)) (bytes : List ℕ) (contents : FileContents bytes)
        (limit count : ℕ) → IsBytes bytes → SpellsFile head messages head.version bytes →
        AllByRecursion (IsWithin (limit - MESSAGE_OVERHEAD)) messages → length messages ≤ count →
        lines_published (fresh_journal head.session (limit - MESSAGE_OVERHEAD))
        (lines_of (dump_text (record { from = 1; count = count; format = Lines }) contents))
        ≡ record {
          journal = record (fresh_journal head.session (limit - MESSAGE_OVERHEAD)) { messages = messages };
          refused = None;
        } }
{
    contents_law();
}

/// For a journal's file, `dump` without a range prints as blocks exactly the blocks of the journal's messages, and
/// nothing on standard error. With the mark of the end, an empty block follows exactly if the session is closed. The
/// status is 0. The mark requires that no message is empty.
pub fn dump_blocks_law()
    ensures blocks { (head : FileHead) (messages : List (List ℕ)) (bytes : List ℕ) (contents : FileContents bytes)
        (count : ℕ) → SpellsFile head messages head.version bytes → length messages ≤ count →
        PrintsAll (record { from = 1; count = count; format = Blocks }) contents (blocks messages) }
    ensures closed { (head : FileHead) (messages : List (List ℕ)) (bytes : List ℕ) (contents : FileContents bytes)
        (count : ℕ) → SpellsFile head messages head.version bytes → length messages ≤ count →
        list_any is_empty messages ≡ false → head.closed ≡ true →
        PrintsAll (record { from = 1; count = count; format = BlocksToEmpty }) contents (blocks messages ++ block []) }
    ensures open { (head : FileHead) (messages : List (List ℕ)) (bytes : List ℕ) (contents : FileContents bytes)
        (count : ℕ) → SpellsFile head messages head.version bytes → length messages ≤ count →
        list_any is_empty messages ≡ false → head.closed ≡ false →
        PrintsAll (record { from = 1; count = count; format = BlocksToEmpty }) contents (blocks messages) }
{
    contents_law();
    one_file_law();
}
