//! The calls on a publisher.

ghost use Rattle.std.specs.Prelude.{◌≡◌, ◌⊎◌, ◌↔◌, None, Some, is_some, true, false, IsTrue};
ghost use Rattle.mold_ffi.specs.Handle.Borrow.{IsNoPublisher};
ghost use Rattle.mold_ffi.specs.Publisher.Exchange.{opened, holding, Publishes, Sends, Closes, Saves, GivesServer};
ghost use Rattle.mold_ffi.specs.declared.code.TheConstants as codes;
ghost use Rattle.mold_ffi.specs.declared.publisher.exchange.Exchange.{Exchange as AnExchange};
ghost use Rattle.mold_session.specs.Publisher.{unsent_of, next_datagram, next_heartbeat, next_end, after_datagram};
ghost use Rattle.mold_wire.specs.Packer.{IsLimit};
ghost use Rattle.mold_wire.specs.Packing.{Fits};

use crate::code::{BROKEN, DONE, LIMIT, MEMORY};
use crate::handle::held::Held;
use crate::handle::mold_handle::MoldHandle;
use crate::publisher::exchange::Exchange;
use mold_session::PublisherError;
use mold_wire::Session;
use std::alloc::Global;

/// Makes a publisher of an open session without messages. Its datagrams have at most `limit` bytes, which is 64 to
/// 65,507, and its messages have at most `limit` - 22 bytes. The handle must be empty.
#[unsafe(no_mangle)]
pub extern "C" fn mold_publisher_new(
    alloc: Global,
    publisher: &mut MoldHandle,
    session: &[u8; 10],
    limit: usize,
) -> u32
    ensures full { is_some publisher.old.handle.value ≡ true →
        (result ≡ codes.BROKEN) × (publisher.new.handle.value ≡ publisher.old.handle.value) }
    ensures limit { publisher.old.handle.value ≡ None → (IsLimit limit → ⊥) →
        (result ≡ codes.LIMIT) × (publisher.new.handle.value ≡ None) }
    ensures made { publisher.old.handle.value ≡ None → IsLimit limit →
        ((result ≡ codes.DONE)
        × (publisher.new.handle.value ≡ holding (opened (record { 0 = session.now }) limit)))
        ⊎ ((result ≡ codes.MEMORY) × (publisher.new.handle.value ≡ None)) }
{
    if publisher.live {
        return BROKEN;
    }
    match Exchange::new(alloc, Session(*session), limit) {
        Ok(made) => publisher.hold(alloc, Held::Publisher(made)),
        Err(PublisherError::Limit) => LIMIT,
        Err(PublisherError::Memory) => MEMORY,
    }
}

/// Publishes a message and writes its sequence number. If the message is too long, `number` is its length; after any
/// other refusal it is 0. A refusal changes nothing else.
#[unsafe(no_mangle)]
pub extern "C" fn mold_publisher_publish(
    publisher: &mut MoldHandle,
    message: &[u8],
    number: &mut u64,
) -> u32
    ensures publishes { (exchange : AnExchange) → publisher.old.handle.value ≡ holding exchange →
        Publishes exchange message.now result number.new publisher.new.handle.value }
    ensures broken { IsNoPublisher publisher.old.handle.value → (result ≡ codes.BROKEN)
        × (number.new ≡ number.old) × (publisher.new.handle.value ≡ publisher.old.handle.value) }
{
    if !publisher.live {
        return BROKEN;
    }
    let Held::Publisher(exchange) = publisher.handle.lend() else {
        return BROKEN;
    };
    exchange.publish(message, number)
}

/// Whether the unsent messages do not all fit in one datagram; false if the handle holds no publisher.
#[unsafe(no_mangle)]
pub extern "C" fn mold_publisher_is_full(publisher: &mut MoldHandle) -> bool
    ensures full { (exchange : AnExchange) → publisher.old.handle.value ≡ holding exchange →
        (IsTrue result ↔ (Fits exchange.publisher.limit (unsent_of exchange.publisher) → ⊥)) }
    ensures broken { IsNoPublisher publisher.old.handle.value → result ≡ false }
    ensures same { publisher.new.handle.value ≡ publisher.old.handle.value }
{
    if !publisher.live {
        return false;
    }
    let Held::Publisher(exchange) = publisher.handle.lend() else {
        return false;
    };
    exchange.is_full()
}

/// Writes a datagram of the unsent messages, in order and as many as fit, and counts them as sent. The buffer must have
/// at least as many bytes as the limit. `size` is the datagram's length, 0 if no message is unsent, or the limit if the
/// buffer is shorter.
#[unsafe(no_mangle)]
pub extern "C" fn mold_publisher_datagram(
    publisher: &mut MoldHandle,
    buffer: &mut [u8],
    size: &mut usize,
) -> u32
    ensures sends { (exchange : AnExchange) → publisher.old.handle.value ≡ holding exchange →
        Sends exchange (next_datagram exchange.publisher) (after_datagram exchange.publisher)
        buffer.old buffer.new result size.new publisher.new.handle.value }
    ensures broken { IsNoPublisher publisher.old.handle.value → (result ≡ codes.BROKEN) × (size.new ≡ size.old)
        × (buffer.new ≡ buffer.old) × (publisher.new.handle.value ≡ publisher.old.handle.value) }
{
    if !publisher.live {
        return BROKEN;
    }
    let Held::Publisher(exchange) = publisher.handle.lend() else {
        return BROKEN;
    };
    exchange.datagram(buffer, size)
}

/// Writes a heartbeat with the sequence number of the first unsent message. A closed session has no heartbeat. `buffer`
/// and `size` are as for a datagram.
#[unsafe(no_mangle)]
pub extern "C" fn mold_publisher_heartbeat(
    publisher: &mut MoldHandle,
    buffer: &mut [u8],
    size: &mut usize,
) -> u32
    ensures sends { (exchange : AnExchange) → publisher.old.handle.value ≡ holding exchange →
        Sends exchange (next_heartbeat exchange.publisher) exchange.publisher
        buffer.old buffer.new result size.new publisher.new.handle.value }
    ensures broken { IsNoPublisher publisher.old.handle.value → (result ≡ codes.BROKEN) × (size.new ≡ size.old)
        × (buffer.new ≡ buffer.old) × (publisher.new.handle.value ≡ publisher.old.handle.value) }
{
    if !publisher.live {
        return BROKEN;
    }
    let Held::Publisher(exchange) = publisher.handle.lend() else {
        return BROKEN;
    };
    exchange.heartbeat(buffer, size)
}

/// Writes an end packet, whose sequence number is one more than the number of messages. An open session has no end
/// packet. `buffer` and `size` are as for a datagram.
#[unsafe(no_mangle)]
pub extern "C" fn mold_publisher_end(
    publisher: &mut MoldHandle,
    buffer: &mut [u8],
    size: &mut usize,
) -> u32
    ensures sends { (exchange : AnExchange) → publisher.old.handle.value ≡ holding exchange →
        Sends exchange (next_end exchange.publisher) exchange.publisher
        buffer.old buffer.new result size.new publisher.new.handle.value }
    ensures broken { IsNoPublisher publisher.old.handle.value → (result ≡ codes.BROKEN) × (size.new ≡ size.old)
        × (buffer.new ≡ buffer.old) × (publisher.new.handle.value ≡ publisher.old.handle.value) }
{
    if !publisher.live {
        return BROKEN;
    }
    let Held::Publisher(exchange) = publisher.handle.lend() else {
        return BROKEN;
    };
    exchange.end(buffer, size)
}

/// Closes the session if every message was sent; `number` is then 0. Otherwise `number` is the number of unsent
/// messages, and nothing else changes. Closing a closed session changes nothing.
#[unsafe(no_mangle)]
pub extern "C" fn mold_publisher_close(publisher: &mut MoldHandle, number: &mut u64) -> u32
    ensures closes { (exchange : AnExchange) → publisher.old.handle.value ≡ holding exchange →
        Closes exchange result number.new publisher.new.handle.value }
    ensures broken { IsNoPublisher publisher.old.handle.value → (result ≡ codes.BROKEN)
        × (number.new ≡ number.old) × (publisher.new.handle.value ≡ publisher.old.handle.value) }
{
    if !publisher.live {
        return BROKEN;
    }
    let Held::Publisher(exchange) = publisher.handle.lend() else {
        return BROKEN;
    };
    exchange.close(number)
}

/// Writes the file of the publisher's journal, in version 2. `size` is its length. If the buffer is shorter, only
/// `size` is written.
#[unsafe(no_mangle)]
pub extern "C" fn mold_publisher_save(
    publisher: &mut MoldHandle,
    buffer: &mut [u8],
    size: &mut usize,
) -> u32
    ensures saves { (exchange : AnExchange) → publisher.old.handle.value ≡ holding exchange →
        Saves exchange.publisher.journal buffer.old buffer.new result size.new }
    ensures same { publisher.new.handle.value ≡ publisher.old.handle.value }
    ensures broken { IsNoPublisher publisher.old.handle.value → (result ≡ codes.BROKEN) × (size.new ≡ size.old)
        × (buffer.new ≡ buffer.old) }
{
    if !publisher.live {
        return BROKEN;
    }
    let Held::Publisher(exchange) = publisher.handle.lend() else {
        return BROKEN;
    };
    exchange.save(buffer, size)
}

/// Lets the publisher respond to requests too; its handle is then also that of a server. It responds only with sent
/// messages. A request gets at most `burst` responses, 1 to 64, each of at most as many bytes as the publisher's limit.
/// If the publisher has a server already, the code is 6 and nothing changes.
#[unsafe(no_mangle)]
pub extern "C" fn mold_server_from_publisher(
    alloc: Global,
    publisher: &mut MoldHandle,
    burst: u16,
) -> u32
    ensures gives { (exchange : AnExchange) → publisher.old.handle.value ≡ holding exchange →
        GivesServer exchange burst result publisher.new.handle.value }
    ensures broken { IsNoPublisher publisher.old.handle.value →
        (result ≡ codes.BROKEN) × (publisher.new.handle.value ≡ publisher.old.handle.value) }
{
    if !publisher.live {
        return BROKEN;
    }
    let Held::Publisher(exchange) = publisher.handle.lend() else {
        return BROKEN;
    };
    exchange.give_server(alloc, burst)
}
