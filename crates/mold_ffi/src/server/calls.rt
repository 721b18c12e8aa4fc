//! The calls on a server: that of a saved journal, or that of a publisher.

ghost use Rattle.std.specs.Prelude.{◌≡◌, Option, None, Some, is_some, true};
ghost use Rattle.mold_ffi.specs.Handle.Borrow.{IsNoServer};
ghost use Rattle.mold_ffi.specs.Publisher.Exchange.{IsBurst, holding, sent_journal, with_server};
ghost use Rattle.mold_ffi.specs.Server.Answering.{Answers, Plans, Serves};
ghost use Rattle.mold_ffi.specs.Server.Calls.{Loads};
ghost use Rattle.mold_ffi.specs.Server.Serving.{with_serving};
ghost use Rattle.mold_ffi.specs.declared.code.TheConstants as codes;
ghost use Rattle.mold_ffi.specs.declared.handle.held.Held.TheVariants.{Server as AServer};
ghost use Rattle.mold_ffi.specs.declared.handle.held.Held.{Held as AHeld};
ghost use Rattle.mold_ffi.specs.declared.publisher.exchange.Exchange.{Exchange as AnExchange};
ghost use Rattle.mold_ffi.specs.declared.server.serving.Serving.{Serving as AServing};
ghost use Rattle.mold_session.specs.Server.{ServerState};
ghost use Rattle.mold_wire.specs.Packer.{IsLimit};

use crate::code::{BROKEN, BURST, DONE, LIMIT};
use crate::handle::held::Held;
use crate::handle::mold_handle::MoldHandle;
use crate::server::mold_plan::MoldPlan;
use crate::server::serving::{Serving, code_of_refusal};
use mold_wire::{MAX_BURST, MAX_LIMIT, MESSAGE_OVERHEAD, MIN_LIMIT};
use std::alloc::Global;

/// Makes a server of the bytes of a journal file, of version 1, 2 or 3. Its datagrams have at most `limit` bytes, 64 to
/// 65,507, and each message of the journal must have at most `limit` - 22. A request gets at most `burst` responses, 1
/// to 64. The handle must be empty.
///
/// If the handle is not empty, `number` is unchanged. If a fault of the bytes is returned, `number` is what `mold.h`
/// states for that fault, or 0 if it states nothing. After any other result `number` is 0. If no server is made, the
/// bytes are read once more, so a fault of the bytes is reported even if an allocation failed.
#[unsafe(no_mangle)]
pub extern "C" fn mold_server_new(
    alloc: Global,
    server: &mut MoldHandle,
    limit: usize,
    burst: u16,
    bytes: &[u8],
    number: &mut u64,
) -> u32
    ensures full { is_some server.old.handle.value ≡ true → (result ≡ codes.BROKEN) × (number.new ≡ number.old)
        × (server.new.handle.value ≡ server.old.handle.value) }
    ensures limit { server.old.handle.value ≡ None → (IsLimit limit → ⊥) →
        (result ≡ codes.LIMIT) × (number.new ≡ 0) × (server.new.handle.value ≡ None) }
    ensures burst { server.old.handle.value ≡ None → IsLimit limit → (IsBurst burst → ⊥) →
        (result ≡ codes.BURST) × (number.new ≡ 0) × (server.new.handle.value ≡ None) }
    ensures loads { server.old.handle.value ≡ None → IsLimit limit → IsBurst burst →
        Loads limit burst bytes.now result number.new server.new.handle.value }
{
    if server.live {
        return BROKEN;
    }
    *number = 0;
    if limit < MIN_LIMIT || MAX_LIMIT < limit {
        return LIMIT;
    }
    if burst == 0 || MAX_BURST < burst {
        return BURST;
    }
    let most = (limit - MESSAGE_OVERHEAD) as u16;
    let Some(serving) = Serving::new(alloc, limit, burst, bytes) else {
        return code_of_refusal(most, bytes, number);
    };
    if server.hold(alloc, Held::Server(serving)) == DONE {
        return DONE;
    }
    code_of_refusal(most, bytes, number)
}

/// Writes the first response to a request. The buffer must have at least as many bytes as the limit. `number` is the
/// response's length, or the limit if the buffer is shorter. If the request is refused, `number` describes the refusal:
/// it is the request's length, the sequence number of the journal's next message, or 0. A publisher responds only with
/// sent messages, and the sequence number is one more than that of the last sent message.
#[unsafe(no_mangle)]
pub extern "C" fn mold_server_answer(
    server: &mut MoldHandle,
    request: &[u8],
    buffer: &mut [u8],
    number: &mut u64,
) -> u32
    ensures saved { (serving : AServing) → server.old.handle.value ≡ Some (AServer serving) →
        Answers (Option AHeld) serving.server serving.journal request.now buffer.old buffer.new number.old
        result number.new (with_serving serving) server.new.handle.value }
    ensures published { (exchange : AnExchange) (beside : ServerState) →
        server.old.handle.value ≡ holding exchange → exchange.server ≡ Some beside →
        Answers (Option AHeld) beside (sent_journal exchange.publisher) request.now buffer.old buffer.new number.old
        result number.new (with_server exchange) server.new.handle.value }
    ensures broken { IsNoServer server.old.handle.value → (result ≡ codes.BROKEN) × (number.new ≡ number.old)
        × (buffer.new ≡ buffer.old) × (server.new.handle.value ≡ server.old.handle.value) }
{
    if !server.live {
        return BROKEN;
    }
    match server.handle.lend() {
        Held::Server(serving) => serving.answer(request, buffer, number),
        Held::Publisher(exchange) => exchange.answer(request, buffer, number),
        _ => BROKEN,
    }
}

/// Plans the responses to a request; `mold_server_datagram` then writes them. `number` is 0 if they are planned. If the
/// request is refused, `number` is as for `mold_server_answer`, and the plan is unchanged.
#[unsafe(no_mangle)]
pub extern "C" fn mold_server_plan(
    server: &mut MoldHandle,
    request: &[u8],
    plan: &mut MoldPlan,
    number: &mut u64,
) -> u32
    ensures saved { (serving : AServing) → server.old.handle.value ≡ Some (AServer serving) →
        Plans (Option AHeld) serving.server serving.journal request.now plan.old plan.new number.old
        result number.new (with_serving serving) server.new.handle.value }
    ensures published { (exchange : AnExchange) (beside : ServerState) →
        server.old.handle.value ≡ holding exchange → exchange.server ≡ Some beside →
        Plans (Option AHeld) beside (sent_journal exchange.publisher) request.now plan.old plan.new number.old
        result number.new (with_server exchange) server.new.handle.value }
    ensures broken { IsNoServer server.old.handle.value → (result ≡ codes.BROKEN) × (number.new ≡ number.old)
        × (plan.new ≡ plan.old) × (server.new.handle.value ≡ server.old.handle.value) }
{
    if !server.live {
        return BROKEN;
    }
    match server.handle.lend() {
        Held::Server(serving) => serving.plan(request, plan, number),
        Held::Publisher(exchange) => exchange.plan(request, plan, number),
        _ => BROKEN,
    }
}

/// Writes the next datagram of a plan, and moves the plan past its messages. A plan that is spent has no datagram. For
/// a plan of another session, of messages that the journal does not have or that are unsent, or of more datagrams than
/// the burst, the code is 6. `buffer` and `size` are as for a publisher's datagram.
#[unsafe(no_mangle)]
pub extern "C" fn mold_server_datagram(
    server: &mut MoldHandle,
    plan: &mut MoldPlan,
    buffer: &mut [u8],
    size: &mut usize,
) -> u32
    ensures saved { (serving : AServing) → server.old.handle.value ≡ Some (AServer serving) →
        Serves serving.server serving.journal plan.old plan.new buffer.old buffer.new size.old result size.new }
    ensures published { (exchange : AnExchange) (beside : ServerState) →
        server.old.handle.value ≡ holding exchange → exchange.server ≡ Some beside →
        Serves beside (sent_journal exchange.publisher) plan.old plan.new buffer.old buffer.new size.old result size.new }
    ensures same { server.new.handle.value ≡ server.old.handle.value }
    ensures broken { IsNoServer server.old.handle.value → (result ≡ codes.BROKEN) × (size.new ≡ size.old)
        × (buffer.new ≡ buffer.old) × (plan.new ≡ plan.old) }
{
    if !server.live {
        return BROKEN;
    }
    match server.handle.lend() {
        Held::Server(serving) => serving.datagram(plan, buffer, size),
        Held::Publisher(exchange) => exchange.planned(plan, buffer, size),
        _ => BROKEN,
    }
}
