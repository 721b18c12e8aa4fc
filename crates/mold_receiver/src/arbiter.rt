//! The arbiter of line A and line B: one receiver and a report for each line.

ghost use Rattle.std.specs.Prelude.{◌≡◌, ◌-◌, ◌<◌, ◌≤◌, [], length, max, None, Some, IfOk, IfErr};
ghost use Rattle.std.specs.Prelude.{IfNone, IfSome, OnOk, OnErr};
ghost use Rattle.mold_receiver.specs.Arbiter.{HasArbitrated, HasRefused, report_on};
ghost use Rattle.mold_receiver.specs.Batch.{Follows, followed_by};
ghost use Rattle.mold_receiver.specs.Origin.{line_of};
ghost use Rattle.mold_receiver.specs.Own.{HasArbitratedOwn, HasRefusedOwn};
ghost use Rattle.mold_receiver.specs.Receive.{IsRefusedFor, top_read};
ghost use Rattle.mold_receiver.specs.Skip.{AreMissing, skipped, skipped_run};
ghost use Rattle.mold_receiver.specs.Wanted.{HasNoGap, IsFirstAbsent, IsNextGap};
ghost use Rattle.mold_wire.specs.Reading.{reading};

use crate::batch::Batch;
use crate::gap::Gap;
use crate::heard::Heard;
use crate::line::{Line, LineReport, LineReports};
use crate::origin::Origin;
use crate::receiver::Receiver;
use crate::taken::{Accepted, Taken};
use mold_rule::Refusal;
use std::alloc::AllocError;
use std::fmt;
use std::fmt::{Debug, Formatter};
use std::marker::Model;

/// A receiver of packets that arrive on two lines, with a report for each line. It doesn't matter on which line a
/// packet arrives first: the receiver handles it as it would without lines.
#[derive(Drop)]
pub struct Arbiter {
    receiver: Receiver,
    reports: LineReports,
}

impl Debug for Arbiter {
    fn fmt<W: fmt::Write>(&self, f: &mut Formatter<W>) -> fmt::Result {
        f.debug_struct("Arbiter").finish_non_exhaustive()
    }
}

impl Model for Arbiter {
    ghost use Rattle.mold_receiver.specs.Arbiter.{Arbitration, IsArbitration, arbitration_code};

    ghost Value = { Arbitration };

    ghost coded = { arbitration_code };

    ghost view = { λ a. record { view = a.receiver; reports = a.reports } };

    ghost invariant = { λ a. IsArbitration (record { view = a.receiver; reports = a.reports }) };
}

impl Arbiter {
    /// Returns an arbiter over `receiver`. Nothing was received on either line yet.
    pub fn new(receiver: Receiver) -> Arbiter
        ensures view { result.view ≡ receiver }
        ensures line_a { result.reports.a ≡ record { datagrams = 0; refused = 0; front = receiver.known } }
        ensures line_b { result.reports.b ≡ record { datagrams = 0; refused = 0; front = receiver.known } }
    {
        let reports = LineReports::new(receiver.known());
        Arbiter { receiver, reports }
    }

    /// Takes a datagram as `take_from` does, and also returns the top of an accepted packet.
    #[inline(always)]
    pub fn take_top(
        &mut self,
        origin: Origin,
        bytes: &[u8],
        batch: &mut Batch,
    ) -> Result<Accepted, Refusal>
        requires { Follows batch.old self.old.view.next }
        ensures taken { IfOk result (λ accepted.
            HasArbitrated (line_of origin) self.old bytes.now batch.old self.new batch.new accepted.taken) }
        ensures top { IfOk result (λ accepted. accepted.top ≡ top_read (reading bytes.now)) }
        ensures refused { IfErr result
            (λ refused. HasRefused (line_of origin) self.old bytes.now self.new refused) }
        ensures batch { OnErr result (batch.new ≡ batch.old) }
    {
        match self.receiver.accept(bytes, batch) {
            // For the optimizer: `Taken` is rebuilt field by field. A copy of the whole struct would wait until its
            // fields, which were written just before, reach memory.
            Ok(
                Accepted {
                    taken: Taken {
                        handed,
                        kept,
                        beyond,
                    },
                    top,
                },
            ) => {
                if let Origin::Line(line) = origin {
                    self.reports.note_taken(line, top);
                }
                Ok(Accepted {
                    taken: Taken {
                        handed,
                        kept,
                        beyond,
                    },
                    top,
                })
            }
            Err(refused) => {
                if let Origin::Line(line) = origin {
                    self.reports.note_refused(line, refused);
                }
                Err(refused)
            }
        }
    }

    /// Takes a datagram as the receiver does. If it came on a line, that line's report counts it as accepted or
    /// refused. A failed allocation changes no report. The batch must be empty or end just before the receiver's
    /// `next`.
    #[inline(always)]
    pub fn take_from(
        &mut self,
        origin: Origin,
        bytes: &[u8],
        batch: &mut Batch,
    ) -> Result<Taken, Refusal>
        requires { Follows batch.old self.old.view.next }
        ensures taken { IfOk result
            (λ taken. HasArbitrated (line_of origin) self.old bytes.now batch.old self.new batch.new taken) }
        ensures refused { IfErr result
            (λ refused. HasRefused (line_of origin) self.old bytes.now self.new refused) }
        ensures batch { OnErr result (batch.new ≡ batch.old) }
    {
        match self.take_top(origin, bytes, batch) {
            Ok(
                Accepted {
                    taken: Taken {
                        handed,
                        kept,
                        beyond,
                    },
                    ..
                },
            ) => Ok(Taken {
                handed,
                kept,
                beyond,
            }),
            Err(refused) => Err(refused),
        }
    }

    /// Takes the usual datagrams of a line as `take_from` does, but faster. No message must be stored, and the session's
    /// end not known. The datagram must be a heartbeat, begin at `next` or have nothing new. For other datagrams, and if
    /// an allocation fails, the result is `None`, and nothing changes: the caller then calls `take_from`.
    #[inline(always)]
    pub fn take_quickly(&mut self, line: Line, bytes: &[u8], batch: &mut Batch) -> Option<Taken>
        requires { Follows batch.old self.old.view.next }
        ensures taken { IfSome result
            (λ taken. HasArbitrated (Some line) self.old bytes.now batch.old self.new batch.new taken) }
        ensures same { IfNone result (self.new ≡ self.old) }
        ensures batch { IfNone result (batch.new ≡ batch.old) }
    {
        match self.receiver.accept_quickly(bytes, batch) {
            // For the optimizer: as in `take_top`.
            Some(
                Accepted {
                    taken: Taken {
                        handed,
                        kept,
                        beyond,
                    },
                    top,
                },
            ) => {
                self.reports.note_taken(line, top);
                Some(Taken {
                    handed,
                    kept,
                    beyond,
                })
            }
            None => None,
        }
    }

    /// Takes a datagram that came on `line`, as `take_from` does.
    #[inline(always)]
    pub fn take(&mut self, line: Line, bytes: &[u8], batch: &mut Batch) -> Result<Taken, Refusal>
        requires { Follows batch.old self.old.view.next }
        ensures taken { IfOk result
            (λ taken. HasArbitrated (Some line) self.old bytes.now batch.old self.new batch.new taken) }
        ensures refused { IfErr result
            (λ refused. HasRefused (Some line) self.old bytes.now self.new refused) }
        ensures batch { OnErr result (batch.new ≡ batch.old) }
    {
        self.take_from(Origin::Line(line), bytes, batch)
    }

    /// Takes a re-request server's response, as `take_from` does. The response is on no line, so no report changes.
    #[inline(always)]
    pub fn take_answer(&mut self, bytes: &[u8], batch: &mut Batch) -> Result<Taken, Refusal>
        requires { Follows batch.old self.old.view.next }
        ensures taken { IfOk result
            (λ taken. HasArbitrated None self.old bytes.now batch.old self.new batch.new taken) }
        ensures refused { IfErr result
            (λ refused. IsRefusedFor self.old.view bytes.now refused) }
        ensures same { OnErr result (self.new ≡ self.old) }
        ensures batch { OnErr result (batch.new ≡ batch.old) }
    {
        self.take_from(Origin::Response, bytes, batch)
    }

    /// Takes a datagram as `Receiver::hear` does: the messages that the datagram delivers itself are not copied, and the
    /// batch is emptied first. The reports change as in `take_from`.
    #[inline(always)]
    pub fn hear<'a>(
        &mut self,
        origin: Origin,
        bytes: &'a [u8],
        batch: &mut Batch,
    ) -> Result<Heard<'a>, Refusal>
        ensures heard { IfOk result
            (λ heard. HasArbitratedOwn (line_of origin) self.old bytes.now self.new heard.own batch.new heard.taken) }
        ensures refused { IfErr result
            (λ refused. HasRefusedOwn (line_of origin) self.old bytes.now self.new refused) }
        ensures batch { OnErr result (batch.new ≡ record { first = 0; messages = [] }) }
    {
        match self.receiver.hear_top(bytes, batch) {
            Ok(heard) => {
                if let Origin::Line(line) = origin {
                    self.reports.note_taken(line, heard.top);
                }
                Ok(Heard {
                    taken: heard.taken,
                    own: heard.own,
                })
            }
            Err(refused) => {
                if let Origin::Line(line) = origin {
                    self.reports.note_refused(line, refused);
                }
                Err(refused)
            }
        }
    }

    /// Takes the usual datagrams of a line as `hear` does, but faster. The batch must be empty, no message stored and
    /// the session's end not known. The datagram must be a heartbeat, begin at `next` or have nothing new. For other
    /// datagrams the result is `None`, and nothing changes: the caller then calls `hear`.
    #[inline(always)]
    pub fn hear_quickly<'a>(
        &mut self,
        line: Line,
        bytes: &'a [u8],
        batch: &mut Batch,
    ) -> Option<Heard<'a>>
        ensures heard { IfSome result
            (λ heard. HasArbitratedOwn (Some line) self.old bytes.now self.new heard.own batch.new heard.taken) }
        ensures same { IfNone result (self.new ≡ self.old) }
        ensures batch { IfNone result (batch.new ≡ batch.old) }
    {
        match self.receiver.hear_quickly(bytes, batch) {
            Some(heard) => {
                self.reports.note_taken(line, heard.top);
                Some(Heard {
                    taken: heard.taken,
                    own: heard.own,
                })
            }
            None => None,
        }
    }

    /// Returns the report of a line: the counts of datagrams accepted and refused on it, and `front`, the greatest top
    /// of a packet accepted on it.
    pub fn report(&self, line: Line) -> LineReport
        ensures { result ≡ report_on line self.now.reports }
    {
        self.reports.of(line)
    }

    /// Returns how far a line lags, in messages: the receiver's `known` minus the line's `front`.
    pub fn lag(&self, line: Line) -> u64
        ensures lag { result ≡ self.now.view.known - (report_on line self.now.reports).front }
        ensures front { (report_on line self.now.reports).front ≤ self.now.view.known }
    {
        self.receiver.known() - self.reports.of(line).front
    }

    /// Returns the receiver.
    pub fn receiver(&self) -> &Receiver
        ensures { result.now ≡ self.now.view }
    {
        &self.receiver
    }

    /// Gives up the messages from the receiver's `next` to just below `to`, as `Receiver::skip` does. No line's
    /// report changes. The batch must be empty or end just before `to`.
    pub fn skip(&mut self, to: u64, batch: &mut Batch) -> Result<u32, AllocError>
        requires ahead { self.old.view.next < to }
        requires missing { AreMissing self.old.view to }
        requires follows { Follows batch.old to }
        ensures skipped { OnOk result
            (self.new ≡ record { view = skipped self.old.view to; reports = self.old.reports }) }
        ensures handed { OnOk result (batch.new ≡ followed_by batch.old to (skipped_run self.old.view to)) }
        ensures count { IfOk result (λ count. count ≡ length (skipped_run self.old.view to)) }
        ensures needed { OnErr result (0 < length (skipped_run self.old.view to)) }
        ensures same { OnErr result (self.new ≡ self.old) }
        ensures batch { OnErr result (batch.new ≡ batch.old) }
    {
        self.receiver.skip(to, batch)
    }

    /// Returns the first gap at or above the number `from`, as `Receiver::next_missing` does.
    pub fn next_missing(&self, from: u64) -> Option<Gap>
        ensures some { IfSome result (λ gap. IsNextGap self.now.view (max from self.now.view.next) gap) }
        ensures none { IfNone result (HasNoGap self.now.view (max from self.now.view.next)) }
    {
        self.receiver.next_missing(from)
    }

    /// Returns the first number at or above `from` that is not stored, as `Receiver::first_absent` does.
    #[inline(always)]
    pub fn first_absent(&self, from: u64) -> u64
        requires { self.now.view.next ≤ from }
        ensures { IsFirstAbsent self.now.view from result }
    {
        self.receiver.first_absent(from)
    }
}
