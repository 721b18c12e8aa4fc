//! Theorems about all captures. Each law is a function with an empty body whose contract is the theorem.

ghost use Rattle.std.specs.Prelude.{◌≡◌, ℕ, List, take};
ghost use Rattle.mold_pcap.specs.Captures.{capture_of};
ghost use Rattle.mold_pcap.specs.Laws.{IsFront, ReadsBlocks, ReadsRecords};
ghost use Rattle.mold_pcap.specs.Written.{ClassicHead, ClassicRecord};
ghost use Rattle.mold_pcap.specs.WrittenBlocks.{Block};
ghost use Rattle.mold_pcap.specs.declared.order.Order.{Order};

use crate::limits::{MAX_BLOCK, MAX_CAPTURED, MAX_INTERFACES};

/// The values of the limits.
pub fn constants_law()
    ensures captured { MAX_CAPTURED ≡ 262144 }
    ensures block { MAX_BLOCK ≡ 327680 }
    ensures interfaces { MAX_INTERFACES ≡ 1024 }
{}

/// A classic capture is read back as it was written, in both orders of bytes, with microseconds and nanoseconds: its
/// frames are those of its records, and it has no fault.
pub fn classic_law()
    ensures { (head : ClassicHead) (records : List ClassicRecord) → ReadsRecords head records }
{}

/// A pcapng capture is read back as it was written, in both orders of bytes: its frames are those of its packets, and
/// it has no fault. It may have several sections, each with its own order and interfaces, and blocks of other kinds.
pub fn blocks_law()
    ensures { (order : Order) (bytes : List ℕ) (blocks : List Block) → ReadsBlocks order bytes blocks }
{}

/// The frames of a capture that was cut anywhere are the first ones of the whole capture.
pub fn cut_law()
    ensures { (bytes : List ℕ) (n : ℕ) → IsFront (capture_of (take n bytes)).frames (capture_of bytes).frames }
{}
