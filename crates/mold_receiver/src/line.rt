//! The two lines that carry a session's packets, and the report of each.

ghost use Rattle.std.specs.Prelude.{◌≡◌};
ghost use Rattle.mold_receiver.specs.Arbiter.{report_on, report_refused, report_taken, reports_refused, reports_taken};
ghost use Rattle.mold_rule.specs.declared.refusal.Refusal.TheVariants.{Memory};

use mold_rule::Refusal;

/// One of the two lines. Both carry the same packets, so each can supply what the other lost.
#[derive(Clone, Copy, Debug, PartialEq, Eq, Hash)]
pub enum Line {
    /// The first line.
    A,
    /// The second line.
    B,
}

/// What was received on one line. A count that reaches 18446744073709551615 stays there.
#[derive(Clone, Copy, Debug, PartialEq, Eq)]
pub struct LineReport {
    /// The number of datagrams that were accepted.
    pub datagrams: u64,
    /// The number of datagrams that were refused, without those for which an allocation failed.
    pub refused: u64,
    /// The greatest top of a packet that was accepted on this line. It starts at what the receiver knew when the
    /// arbiter was created.
    pub front: u64,
}

/// The reports of both lines.
#[derive(Clone, Copy)]
pub(crate) struct LineReports {
    a: LineReport,
    b: LineReport,
}

// Returns a line's report after a packet with this top was accepted on it.
fn with_taken(report: LineReport, top: u64) -> LineReport
    ensures { result ≡ report_taken report top }
{
    LineReport {
        datagrams: report.datagrams.saturating_add(1),
        front: report.front.max(top),
        ..report
    }
}

// Returns a line's report after a datagram was refused on it.
fn with_refused(report: LineReport) -> LineReport
    ensures { result ≡ report_refused report }
{
    LineReport {
        refused: report.refused.saturating_add(1),
        ..report
    }
}

impl LineReports {
    /// Returns the reports of two lines on which nothing was received. `known` is what the receiver knows.
    pub(crate) fn new(known: u64) -> LineReports
        ensures a { result.a ≡ record { datagrams = 0; refused = 0; front = known } }
        ensures b { result.b ≡ record { datagrams = 0; refused = 0; front = known } }
    {
        let report = LineReport {
            datagrams: 0,
            refused: 0,
            front: known,
        };
        LineReports {
            a: report,
            b: report,
        }
    }

    /// Returns the report of a line.
    pub(crate) fn of(&self, line: Line) -> LineReport
        ensures { result ≡ report_on line self.now }
    {
        match line {
            Line::A => self.a,
            Line::B => self.b,
        }
    }

    /// Records that a packet with this top was accepted on the line.
    pub(crate) fn note_taken(&mut self, line: Line, top: u64)
        ensures { self.new ≡ reports_taken line self.old top }
    {
        match line {
            Line::A => self.a = with_taken(self.a, top),
            Line::B => self.b = with_taken(self.b, top),
        }
    }

    // Counts a datagram that was refused on the line for another reason than a failed allocation.
    fn count_refused(&mut self, line: Line)
        ensures { self.new ≡ reports_refused line self.old }
    {
        match line {
            Line::A => self.a = with_refused(self.a),
            Line::B => self.b = with_refused(self.b),
        }
    }

    /// Records that a datagram was refused on the line. A failed allocation isn't counted.
    pub(crate) fn note_refused(&mut self, line: Line, refused: Refusal)
        ensures memory { refused ≡ Memory → self.new ≡ self.old }
        ensures other { (refused ≡ Memory → ⊥) → self.new ≡ reports_refused line self.old }
    {
        match refused {
            Refusal::Memory => {}
            _ => self.count_refused(line),
        }
    }
}
