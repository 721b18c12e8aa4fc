//! The law of the sessions of captures: a theorem about the definitions alone.

ghost use Rattle.std.specs.Prelude.{◌≡◌, List};
ghost use Rattle.mold_capture_commands.specs.Checking.{CaptureFile};
ghost use Rattle.mold_capture_commands.specs.SessionState.{all_sessions_taken, no_sessions, state_status, state_text};
ghost use Rattle.mold_capture_commands.specs.Sessions.{sessions_status, sessions_text};
ghost use Rattle.mold_capture_commands.specs.declared.filter.CaptureFilter.{CaptureFilter};

/// What a `Sessions` prints that has read these files is a function of the list of their frames. There is a line for
/// each pair of destination and session, and the line is a function of the datagrams of that pair.
pub fn sessions_law()
    ensures text { (filter : CaptureFilter) (files : List CaptureFile) →
        state_text (all_sessions_taken filter no_sessions files) ≡ sessions_text filter files }
    ensures status { (filter : CaptureFilter) (files : List CaptureFile) →
        state_status (all_sessions_taken filter no_sessions files) ≡ sessions_status files }
{}
