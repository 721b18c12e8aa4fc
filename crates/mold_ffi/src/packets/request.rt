//! The calls that decode and encode request packets.

ghost use Rattle.std.specs.Prelude.{◌≡◌};
ghost use Rattle.mold_ffi.specs.Packets.Request.{code_asked, request_asked, request_of};
ghost use Rattle.mold_wire.specs.Request.{request_reading, SpellsRequest};

use crate::code::{DONE, REQUEST_LENGTH};
use mold_wire::{Request, Session};

/// A request as the fields of a struct.
#[repr(C)]
#[derive(Clone, Copy)]
pub struct MoldRequest {
    /// The sequence number of the first message. The calls accept any number.
    pub sequence: u64,
    /// The number of messages, 0 to 65,535.
    pub count: u16,
    /// The session that the messages belong to.
    pub session: [u8; 10],
}

/// Decodes a request. Any 20 bytes are a request. For any other length the code is 24, and `request` is
/// unchanged.
#[unsafe(no_mangle)]
pub extern "C" fn mold_request_decode(bytes: &[u8], request: &mut MoldRequest) -> u32
    ensures code { result ≡ code_asked (request_reading bytes.now) }
    ensures request { request.new ≡ request_asked (request_reading bytes.now) request.old }
{
    let Ok(
        Request {
            session,
            sequence,
            count,
        },
    ) = Request::decode(bytes)
    else {
        return REQUEST_LENGTH;
    };
    let session = session.0;
    *request = MoldRequest {
        sequence,
        count,
        session,
    };
    DONE
}

/// Writes the 20 bytes of the request.
#[unsafe(no_mangle)]
pub extern "C" fn mold_request_encode(request: &MoldRequest, bytes: &mut [u8; 20])
    ensures { SpellsRequest (request_of request.now) bytes.new }
{
    let MoldRequest {
        sequence,
        count,
        session,
    } = *request;
    let asked = Request {
        session: Session(session),
        sequence,
        count,
    };
    *bytes = asked.encode();
}
