//! Theorems about all indexes. Each law is a function with an empty body whose contract is the theorem.

ghost use Rattle.std.specs.Prelude.{◌≡◌, ◌+◌, ◌-◌, ◌/◌, ◌<◌, ◌≤◌, ◌++◌, [], ℕ, Bool, List, Some, drop, length, take};
ghost use Rattle.std.specs.List.{AllByRecursion};
ghost use Rattle.mold_wire.specs.Block.{IsMessage};
ghost use Rattle.mold_session.specs.Answer.{from_number};
ghost use Rattle.mold_session.specs.Journal.{message_numbered};
ghost use Rattle.mold_session.specs.Loading.{SpellsFile, head_spelling, message_spelling, messages_spelling};
ghost use Rattle.mold_session.specs.declared.file_version.FileVersion.{FileVersion};
ghost use Rattle.mold_session.specs.declared.loading.FileHead.{FileHead};
ghost use Rattle.mold_index.specs.Index.{IndexState, Indexes, fresh_index, offset_of};
ghost use Rattle.mold_index.specs.Layouts.{BeginsWith, layout_of, lengths_of};
ghost use Rattle.mold_index.specs.Piece.{IsPiece};
ghost use Rattle.mold_index.specs.Scan.{EndAfter, FindsMessage, HasMessage};
ghost use Rattle.mold_index.specs.declared.piece.Piece.{Piece};
ghost use Rattle.mold_index.specs.declared.layout.Layout.{Layout};

use crate::entries::{STRIDE_BYTES, STRIDE_MESSAGES};
use crate::index::MAX_END;

/// The values of the limits.
pub fn constants_law()
    ensures messages { STRIDE_MESSAGES ≡ 64 }
    ensures bytes { STRIDE_BYTES ≡ 32768 }
    ensures end { MAX_END ≡ 9223372036854775807 }
{}

/// A new index is that of a file without messages.
pub fn empty_law()
    ensures { (layout : Layout) → Indexes (fresh_index layout) [] }
{}

/// The layout and the lengths of the messages determine the whole index.
pub fn determined_law()
    ensures count { (one other : IndexState) (lengths : List ℕ) → Indexes one lengths → Indexes other lengths →
        one.count ≡ other.count }
    ensures end { (one other : IndexState) (lengths : List ℕ) → Indexes one lengths → Indexes other lengths →
        one.layout ≡ other.layout → one.end ≡ other.end }
    ensures entries { (one other : IndexState) (lengths : List ℕ) → Indexes one lengths → Indexes other lengths →
        one.layout ≡ other.layout → one.entries ≡ other.entries }
{}

/// An index has one entry for the first message, at most one for each 64 messages, and at most one for each 32,768 bytes.
/// So its entries take at most a quarter of a byte for each message, and 16 bytes for each 32,768 bytes of the file.
pub fn size_law()
    ensures { (index : IndexState) (lengths : List ℕ) → Indexes index lengths →
        length index.entries ≤ 1 + index.count / STRIDE_MESSAGES
        + (index.end - index.layout.start) / STRIDE_BYTES }
{}

/// A message of a journal's file begins where the lengths of the messages before it say: from there, the bytes are its
/// block or record, and those of the messages after it. From the offset after the last message, they are what follows the
/// messages.
pub fn offset_law()
    ensures messages { (session : List ℕ) (closed : Bool) (version : FileVersion) (messages : List (List ℕ))
        (rest : List ℕ) (number : ℕ) → length session ≡ 10 →
        drop (offset_of (layout_of version) (lengths_of messages) number)
        (head_spelling session closed version ++ (messages_spelling version messages ++ rest))
        ≡ messages_spelling version (from_number messages number) ++ rest }
    ensures message { (session : List ℕ) (closed : Bool) (version : FileVersion) (messages : List (List ℕ))
        (rest : List ℕ) (number : ℕ) (message : List ℕ) → length session ≡ 10 →
        message_numbered messages number ≡ Some message →
        drop (offset_of (layout_of version) (lengths_of messages) number)
        (head_spelling session closed version ++ (messages_spelling version messages ++ rest))
        ≡ message_spelling version message ++ (messages_spelling version (from_number messages (number + 1)) ++ rest) }
    ensures file { (head : FileHead) (messages : List (List ℕ)) (bytes : List ℕ) (number : ℕ) (message : List ℕ) →
        SpellsFile head messages head.version bytes → message_numbered messages number ≡ Some message →
        BeginsWith (message_spelling head.version message)
        (drop (offset_of (layout_of head.version) (lengths_of messages) number) bytes) }
{}

/// At most one message is found after the first `skip` messages of some bytes. If there is one, `find_message` does not
/// refuse the bytes.
pub fn find_law()
    ensures one { (version : FileVersion) (skip : ℕ) (bytes one other rest more : List ℕ) →
        FindsMessage (message_spelling version) skip bytes one rest →
        FindsMessage (message_spelling version) skip bytes other more → (one ≡ other) × (rest ≡ more) }
    ensures whole { (version : FileVersion) (skip count : ℕ) (bytes message rest : List ℕ) →
        FindsMessage (message_spelling version) skip bytes message rest →
        EndAfter (message_spelling version) count bytes → skip < count }
{}

/// A message is found in the piece of a file that `Index::piece` returns for it. The file is a head, messages and any
/// other bytes. `number` is the message's number, and the piece is for messages from `from` up to, but not including,
/// `to`. The message ends at most `most` bytes after the offset at which message `from` begins.
pub fn piece_law()
    ensures { (session : List ℕ) (closed : Bool) (version : FileVersion) (messages : List (List ℕ)) (rest : List ℕ)
        (from to most number : ℕ) (piece : Piece) (message : List ℕ) → length session ≡ 10 →
        AllByRecursion IsMessage messages →
        IsPiece (layout_of version) (lengths_of messages) from to most piece →
        from ≤ number → number < to → message_numbered messages number ≡ Some message →
        offset_of (layout_of version) (lengths_of messages) (number + 1)
        ≤ offset_of (layout_of version) (lengths_of messages) from + most →
        HasMessage (message_spelling version) (number - piece.entry.number)
        (take piece.len (drop piece.entry.offset
        (head_spelling session closed version ++ (messages_spelling version messages ++ rest)))) message }
{}
