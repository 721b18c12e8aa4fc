//! The calls on the journal file of a publisher, to which a program appends.

ghost use Rattle.std.specs.Prelude.{◌≡◌, None, is_some, true};
ghost use Rattle.mold_ffi.specs.Handle.Borrow.{IsNoPublisher};
ghost use Rattle.mold_ffi.specs.Publisher.Exchange.{holding};
ghost use Rattle.mold_ffi.specs.Publisher.Records.{WritesHead, WritesRecords};
ghost use Rattle.mold_ffi.specs.Publisher.Resuming.{Resumes};
ghost use Rattle.mold_ffi.specs.declared.code.TheConstants as codes;
ghost use Rattle.mold_ffi.specs.declared.publisher.exchange.Exchange.{Exchange as AnExchange};
ghost use Rattle.mold_wire.specs.Packer.{IsLimit};

use crate::code::{BAD_MAGIC, BROKEN, DONE, FILE_SHORT, LIMIT};
use crate::handle::held::Held;
use crate::handle::mold_handle::MoldHandle;
use crate::publisher::records::{HEAD_LENGTH, write_head, write_records};
use crate::publisher::resuming::{end_of, is_third, resumed};
use crate::server::serving::code_of_refusal;
use mold_wire::{MAX_LIMIT, MESSAGE_OVERHEAD, MIN_LIMIT};
use std::alloc::Global;

/// Writes the file of the publisher's session without messages, in version 3: the head and a shut gate. `size` is its
/// length, 19. If the buffer is shorter, only `size` is written.
#[unsafe(no_mangle)]
pub extern "C" fn mold_journal_head(
    publisher: &mut MoldHandle,
    buffer: &mut [u8],
    size: &mut usize,
) -> u32
    ensures writes { (exchange : AnExchange) → publisher.old.handle.value ≡ holding exchange →
        WritesHead exchange.publisher.journal.session buffer.old buffer.new result size.new }
    ensures same { publisher.new.handle.value ≡ publisher.old.handle.value }
    ensures broken { IsNoPublisher publisher.old.handle.value → (result ≡ codes.BROKEN) × (size.new ≡ size.old)
        × (buffer.new ≡ buffer.old) }
{
    if !publisher.live {
        return BROKEN;
    }
    let Held::Publisher(exchange) = publisher.handle.lend() else {
        return BROKEN;
    };
    write_head(exchange.publisher.journal().session(), buffer, size)
}

/// Writes the records of the messages from number `from` on, and what follows them in a file of version 3: a shut gate,
/// or the closing record if the session is closed. `from` is 1 to the number of the next message. `size` is the number
/// of bytes. If the buffer is shorter, only `size` is written. If there is no such number, `size` is 0.
#[unsafe(no_mangle)]
pub extern "C" fn mold_journal_records(
    publisher: &mut MoldHandle,
    from: u64,
    buffer: &mut [u8],
    size: &mut usize,
) -> u32
    ensures writes { (exchange : AnExchange) → publisher.old.handle.value ≡ holding exchange →
        WritesRecords exchange.publisher.journal from buffer.old buffer.new result size.new }
    ensures same { publisher.new.handle.value ≡ publisher.old.handle.value }
    ensures broken { IsNoPublisher publisher.old.handle.value → (result ≡ codes.BROKEN) × (size.new ≡ size.old)
        × (buffer.new ≡ buffer.old) }
{
    if !publisher.live {
        return BROKEN;
    }
    let Held::Publisher(exchange) = publisher.handle.lend() else {
        return BROKEN;
    };
    write_records(exchange.publisher.journal(), from, buffer, size)
}

/// Makes a publisher of the bytes of a journal file of version 3. All messages of the journal count as sent. Datagrams
/// have at most `limit` bytes, 64 to 65,507, and each message of the journal must have at most `limit` - 22. The handle
/// must be empty. `number` is then the offset at which the records end, where the next ones are written.
///
/// Bytes of another version are refused with the code 29. If the handle is not empty, `number` is unchanged. If a fault
/// of the bytes is returned, `number` is as for `mold_server_new`. After any other refusal it is 0. If no publisher is
/// made, the bytes are read once more, so a fault of the bytes is reported even if an allocation failed.
#[unsafe(no_mangle)]
pub extern "C" fn mold_publisher_resume(
    alloc: Global,
    publisher: &mut MoldHandle,
    limit: usize,
    bytes: &[u8],
    number: &mut u64,
) -> u32
    ensures full { is_some publisher.old.handle.value ≡ true → (result ≡ codes.BROKEN) × (number.new ≡ number.old)
        × (publisher.new.handle.value ≡ publisher.old.handle.value) }
    ensures limit { publisher.old.handle.value ≡ None → (IsLimit limit → ⊥) →
        (result ≡ codes.LIMIT) × (number.new ≡ 0) × (publisher.new.handle.value ≡ None) }
    ensures resumes { publisher.old.handle.value ≡ None → IsLimit limit →
        Resumes limit bytes.now result number.new publisher.new.handle.value }
{
    if publisher.live {
        return BROKEN;
    }
    *number = 0;
    if limit < MIN_LIMIT || MAX_LIMIT < limit {
        return LIMIT;
    }
    if bytes.len() < HEAD_LENGTH {
        *number = bytes.len() as u64;
        return FILE_SHORT;
    }
    if !is_third(bytes) {
        return BAD_MAGIC;
    }
    let most = (limit - MESSAGE_OVERHEAD) as u16;
    let Some(exchange) = resumed(alloc, limit, bytes) else {
        return code_of_refusal(most, bytes, number);
    };
    let end = end_of(exchange.publisher.journal());
    if publisher.hold(alloc, Held::Publisher(exchange)) == DONE {
        *number = end;
        return DONE;
    }
    code_of_refusal(most, bytes, number)
}
