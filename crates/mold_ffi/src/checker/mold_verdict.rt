//! A verdict as the fields of a struct.

ghost use Rattle.std.specs.Prelude.{◌≡◌};
ghost use Rattle.mold_capture.specs.Seen.{Seen};
ghost use Rattle.mold_capture.specs.Verdict.{IsVerdict};
ghost use Rattle.mold_ffi.specs.Checker.MoldVerdict.{IsVerdictOf};

use mold_capture::Verdict;

/// Whether the datagrams that a checker took are a whole session.
#[repr(C)]
#[derive(Clone, Copy)]
pub struct MoldVerdict {
    /// The number of messages of the session if the datagrams are whole; otherwise 0.
    pub messages: u64,
    /// The sequence number of the end packet if the datagrams are not whole and one was taken; otherwise 0. It is one
    /// more than the number of messages.
    pub end: u64,
    /// The number of missing ranges.
    pub ranges: u64,
    /// 1 if the datagrams are whole, otherwise 0.
    pub whole: u32,
    /// Padding, which is never written.
    pub unused: u32,
}

impl MoldVerdict {
    /// Writes the fields of a verdict.
    pub(crate) fn write(&mut self, verdict: &Verdict)
        ensures tells { (seen : Seen) → IsVerdict verdict.now seen → IsVerdictOf seen self.new }
        ensures unused { self.new.unused ≡ self.old.unused }
    {
        match verdict {
            Verdict::Whole { messages } => {
                self.messages = *messages;
                self.end = 0;
                self.ranges = 0;
                self.whole = 1;
            }
            Verdict::Incomplete { missing, end } => {
                self.messages = 0;
                self.end = end.unwrap_or(0);
                self.ranges = missing.len() as u64;
                self.whole = 0;
            }
        }
    }
}
