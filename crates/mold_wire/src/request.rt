//! The request packet: its type, decoding and encoding.

ghost use Rattle.std.specs.Prelude.{◌≡◌, IfOk, IfErr};
ghost use Rattle.mold_wire.specs.Request.{SpellsRequest, RequestFaultAt, request_reading};
ghost use Rattle.mold_wire.specs.declared.error.RequestError.{RequestError};
ghost use Rattle.mold_wire.specs.declared.request.Request.{Request};

use crate::error::RequestError;
use crate::header::{HEADER_LENGTH, Header};
use crate::session::Session;

/// A request for messages of a session. A receiver sends it to a re-request server.
#[derive(Clone, Copy, Debug, PartialEq, Eq, Hash)]
pub struct Request {
    /// The session that the messages belong to.
    pub session: Session,
    /// The sequence number of the first requested message. The codec accepts 0 like any other number.
    pub sequence: u64,
    /// The number of requested messages, 0 to 65,535. No value has a special meaning.
    pub count: u16,
}

fn read_request(bytes: &[u8]) -> Result<Request, RequestError>
    ensures spelled { IfOk result (λ request. SpellsRequest request bytes.now) }
    ensures fault { IfErr result (λ error. RequestFaultAt error bytes.now) }
{
    let Some((header, [])) = Header::split(bytes) else {
        return Err(RequestError::RequestLength { len: bytes.len() });
    };
    Ok(Request {
        session: header.session,
        sequence: header.sequence,
        count: header.count,
    })
}

impl Request {
    /// Decodes the request that a datagram encodes. Every datagram of `HEADER_LENGTH` bytes encodes a
    /// request.
    pub fn decode(bytes: &[u8]) -> Result<Request, RequestError>
        // The bytes encode the request that is returned, or they have the fault that is returned.
        ensures spelled { IfOk result (λ request. SpellsRequest request bytes.now) }
        ensures fault { IfErr result (λ error. RequestFaultAt error bytes.now) }

        // If the bytes encode a request, that request is returned. If they have a fault, that fault is
        // returned.
        ensures only { (request : Request) → SpellsRequest request bytes.now → result ≡ Ok request }
        ensures refused { (error : RequestError) → RequestFaultAt error bytes.now → result ≡ Err error }
        ensures exact { result ≡ request_reading bytes.now }
    {
        read_request(bytes)
    }

    /// Returns the encoding of the request.
    pub fn encode(&self) -> [u8; 20]
        ensures { SpellsRequest self.now result }
    {
        let Request {
            session,
            sequence,
            count,
        } = *self;
        let header = Header {
            session,
            sequence,
            count,
        };
        let mut bytes = [0; HEADER_LENGTH];
        header.put(&mut bytes);
        bytes
    }
}
