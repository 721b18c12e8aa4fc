//! The laws of this crate: theorems about the definitions alone. Each is a function that does nothing, and its
//! contract is the theorem.

ghost use Rattle.std.specs.Prelude.{◌≡◌, ◌++◌, ℕ, List, false};
ghost use Rattle.std.specs.List.{All};
ghost use Rattle.mold_wire.specs.Block.{IsBytes};
ghost use Rattle.mold_capture.specs.Outcome.{IsOutcome};
ghost use Rattle.mold_check.specs.EachCheck.{each_judging};
ghost use Rattle.mold_check.specs.Judgement.{datagram_judging};
ghost use Rattle.mold_capture_commands.specs.Captures.{captures_outcome, captures_refuse_other, captures_status};
ghost use Rattle.mold_capture_commands.specs.Captures.{captures_text, each_captures_status, each_captures_text};
ghost use Rattle.mold_capture_commands.specs.Captures.{payloads_of};
ghost use Rattle.mold_capture_commands.specs.CaptureShow.{all_files_shown, nothing_shown, show_captures_status};
ghost use Rattle.mold_capture_commands.specs.CaptureShow.{show_captures_text, show_status, shown_text};
ghost use Rattle.mold_capture_commands.specs.Checking.{CaptureFile, all_files_taken, check_status, check_text};
ghost use Rattle.mold_capture_commands.specs.Checking.{no_captures};
ghost use Rattle.mold_capture_commands.specs.declared.filter.CaptureFilter.{CaptureFilter};

use mold_check::laws::{datagram_check_law, each_check_law, lines_outcome_law};

/// What a `CaptureCheck` prints that has read these files is a function of the lists of their frames. The counts are
/// the numbers of frames of each kind, and the outcome is that of the payloads that pass. `sees_other_target` compares
/// the destinations of the first payload and of the refused one. The outcome is the one that `mold_capture` defines;
/// only the clause `outcome` requires that each element of a payload is a byte.
pub fn capture_check_law()
    ensures text { (filter : CaptureFilter) (files : List CaptureFile) →
        check_text datagram_judging (all_files_taken datagram_judging filter (no_captures datagram_judging) files)
        ≡ captures_text filter files }
    ensures status { (filter : CaptureFilter) (files : List CaptureFile) →
        check_status datagram_judging (all_files_taken datagram_judging filter (no_captures datagram_judging) files)
        ≡ captures_status filter files }
    ensures other { (filter : CaptureFilter) (files : List CaptureFile) →
        (all_files_taken datagram_judging filter (no_captures datagram_judging) files).targets.other
        ≡ captures_refuse_other filter files }
    ensures outcome { (filter : CaptureFilter) (files : List CaptureFile) → All IsBytes (payloads_of filter files) →
        IsOutcome (payloads_of filter files) (captures_outcome filter files) }
{
    datagram_check_law();
    lines_outcome_law();
}

/// What a `CaptureCheck<EachCheck<DatagramCheck>>` prints that has read these files is a function of the lists of their
/// frames: each session of the payloads that pass, with its outcome. No datagram counts as one with another destination.
pub fn each_capture_law()
    ensures text { (filter : CaptureFilter) (files : List CaptureFile) →
        check_text (each_judging datagram_judging)
        (all_files_taken (each_judging datagram_judging) filter (no_captures (each_judging datagram_judging)) files)
        ≡ each_captures_text filter files }
    ensures status { (filter : CaptureFilter) (files : List CaptureFile) →
        check_status (each_judging datagram_judging)
        (all_files_taken (each_judging datagram_judging) filter (no_captures (each_judging datagram_judging)) files)
        ≡ each_captures_status filter files }
    ensures other { (filter : CaptureFilter) (files : List CaptureFile) →
        (all_files_taken (each_judging datagram_judging) filter (no_captures (each_judging datagram_judging))
        files).targets.other ≡ false }
{
    each_check_law();
}

/// What a `CaptureShow` prints for these files, the text of their datagrams and then the lines of the files at fault,
/// is a function of the files. So is the exit status.
pub fn capture_show_law()
    ensures text { (filter : CaptureFilter) (files : List CaptureFile) →
        shown_text filter files ++ (all_files_shown filter nothing_shown files).faults
        ≡ show_captures_text filter files }
    ensures status { (filter : CaptureFilter) (files : List CaptureFile) →
        show_status (all_files_shown filter nothing_shown files) ≡ show_captures_status filter files }
{}
