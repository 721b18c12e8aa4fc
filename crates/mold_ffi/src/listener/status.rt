//! The calls that return how far a listener is, what it lacks, and what was received on a line.

ghost use Rattle.std.specs.Prelude.{◌≡◌, ◌↔◌, None, Some, IsTrue, IsFalse};
ghost use Rattle.mold_ffi.specs.Handle.Borrow.{listening};
ghost use Rattle.mold_ffi.specs.Listener.BatchedArbiter.{BatchedArbitration};
ghost use Rattle.mold_ffi.specs.Listener.MoldReport.{reported};
ghost use Rattle.mold_ffi.specs.Listener.Origin.{line_at};
ghost use Rattle.mold_ffi.specs.declared.code.TheConstants as codes;
ghost use Rattle.mold_receiver.specs.Arbiter.{report_on};
ghost use Rattle.mold_receiver.specs.Wanted.{wanted};
ghost use Rattle.mold_receiver.specs.declared.line.Line.{Line as ALine};
ghost use Rattle.mold_wire.specs.Request.{SpellsRequest};
ghost use Rattle.mold_wire.specs.declared.request.Request.{Request};

use crate::code::{BROKEN, DONE, LINE};
use crate::handle::borrow::lend_arbiter;
use crate::handle::mold_handle::MoldHandle;
use crate::listener::mold_report::MoldReport;
use crate::listener::origin::line_of;

/// The sequence number of the message that is delivered next; 0 if the handle holds no listener.
#[unsafe(no_mangle)]
pub extern "C" fn mold_listener_next(listener: &mut MoldHandle) -> u64
    ensures next { (batched : BatchedArbitration) → listening listener.old.handle.value ≡ Some batched →
        result ≡ batched.arbitration.view.next }
    ensures broken { listening listener.old.handle.value ≡ None → result ≡ 0 }
    ensures same { listener.new.handle.value ≡ listener.old.handle.value }
{
    let Some(arbiter) = lend_arbiter(listener) else {
        return 0;
    };
    arbiter.receiver().next()
}

/// One more than the greatest sequence number that the listener knows of; 0 if the handle holds no listener.
#[unsafe(no_mangle)]
pub extern "C" fn mold_listener_known(listener: &mut MoldHandle) -> u64
    ensures known { (batched : BatchedArbitration) → listening listener.old.handle.value ≡ Some batched →
        result ≡ batched.arbitration.view.known }
    ensures broken { listening listener.old.handle.value ≡ None → result ≡ 0 }
    ensures same { listener.new.handle.value ≡ listener.old.handle.value }
{
    let Some(arbiter) = lend_arbiter(listener) else {
        return 0;
    };
    arbiter.receiver().known()
}

/// Whether every message up to the session's end was delivered; false if the handle holds no listener.
#[unsafe(no_mangle)]
pub extern "C" fn mold_listener_finished(listener: &mut MoldHandle) -> bool
    ensures finished { (batched : BatchedArbitration) → listening listener.old.handle.value ≡ Some batched →
        (IsTrue result ↔ (batched.arbitration.view.ended ≡ Some batched.arbitration.view.next)) }
    ensures broken { listening listener.old.handle.value ≡ None → IsFalse result }
    ensures same { listener.new.handle.value ≡ listener.old.handle.value }
{
    let Some(arbiter) = lend_arbiter(listener) else {
        return false;
    };
    arbiter.receiver().finished()
}

/// Writes the 20 bytes of the request for the first gap, which asks for at most 65,534 messages. If no message is
/// missing, or the handle holds no listener, it returns false and writes nothing.
#[unsafe(no_mangle)]
pub extern "C" fn mold_listener_wanted(listener: &mut MoldHandle, out: &mut [u8; 20]) -> bool
    ensures asked { (batched : BatchedArbitration) (request : Request) →
        listening listener.old.handle.value ≡ Some batched → wanted batched.arbitration.view ≡ Some request →
        IsTrue result × SpellsRequest request out.new }
    ensures nothing { (batched : BatchedArbitration) →
        listening listener.old.handle.value ≡ Some batched → wanted batched.arbitration.view ≡ None →
        IsFalse result × (out.new ≡ out.old) }
    ensures broken { listening listener.old.handle.value ≡ None → IsFalse result × (out.new ≡ out.old) }
    ensures same { listener.new.handle.value ≡ listener.old.handle.value }
{
    let Some(arbiter) = lend_arbiter(listener) else {
        return false;
    };
    match arbiter.receiver().wanted() {
        Some(request) => {
            *out = request.encode();
            true
        }
        None => false,
    }
}

/// Writes the report of a line. `line` is 0 for line A and 1 for line B.
#[unsafe(no_mangle)]
pub extern "C" fn mold_listener_report(
    listener: &mut MoldHandle,
    line: u32,
    report: &mut MoldReport,
) -> u32
    ensures reported { (batched : BatchedArbitration) (at : ALine) →
        listening listener.old.handle.value ≡ Some batched → line_at line ≡ Some at →
        (result ≡ codes.DONE) × (report.new ≡ reported (report_on at batched.arbitration.reports)) }
    ensures line { (batched : BatchedArbitration) →
        listening listener.old.handle.value ≡ Some batched → line_at line ≡ None →
        (result ≡ codes.LINE) × (report.new ≡ report.old) }
    ensures broken { listening listener.old.handle.value ≡ None →
        (result ≡ codes.BROKEN) × (report.new ≡ report.old) }
    ensures same { listener.new.handle.value ≡ listener.old.handle.value }
{
    let Some(arbiter) = lend_arbiter(listener) else {
        return BROKEN;
    };
    let Some(line) = line_of(line) else {
        return LINE;
    };
    *report = MoldReport::of(arbiter.report(line));
    DONE
}
