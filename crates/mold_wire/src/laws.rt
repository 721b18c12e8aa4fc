//! Theorems about the definitions alone, for all values and all bytes. Each law is a function with an empty
//! body whose contract is the theorem.

ghost use Rattle.std.specs.Prelude.{◌≡◌, ◌↔◌, ◌≤◌, ◌+◌, ◌-◌, ◌<◌, ◌++◌, ◌∷◌, [], List, ℕ, suc};
ghost use Rattle.std.specs.Prelude.{length, take, drop, Ok, Err, Bool, true, false, Some};
ghost use Rattle.mold_wire.specs.Block.{IsBytes};
ghost use Rattle.mold_wire.specs.Fault.{FaultAt};
ghost use Rattle.mold_wire.specs.Packet.{IsPacket, Spells, messages_of, spelling_of, top_of};
ghost use Rattle.mold_wire.specs.Packer.{HasRoom, Open};
ghost use Rattle.mold_wire.specs.Packing.{packet_length, Fits, IsFront, front};
ghost use Rattle.mold_wire.specs.Reading.{reading};
ghost use Rattle.mold_wire.specs.Request.{IsRequest, SpellsRequest, RequestFaultAt, request_reading, request_spelling};
ghost use Rattle.mold_wire.specs.Truth.{Carries, IsTruePacket, published_at};
ghost use Rattle.mold_wire.specs.declared.error.DecodeError.{DecodeError};
ghost use Rattle.mold_wire.specs.declared.error.RequestError.{RequestError};
ghost use Rattle.mold_wire.specs.declared.block.TheConstants.{MAX_MESSAGE};
ghost use Rattle.mold_wire.specs.declared.header.TheConstants.{END_OF_SESSION, HEADER_LENGTH};
ghost use Rattle.mold_wire.specs.declared.limits.TheConstants.{MAX_COUNT, MAX_LIMIT, MAX_NUMBER, MESSAGE_OVERHEAD};
ghost use Rattle.mold_wire.specs.declared.limits.TheConstants.{MAX_BURST, MAX_WIDE_WINDOW, MAX_WINDOW, MIN_LIMIT};
ghost use Rattle.mold_wire.specs.declared.packet.Body.TheVariants.{Data};
ghost use Rattle.mold_wire.specs.declared.packet.Packet.{Packet};
ghost use Rattle.mold_wire.specs.declared.request.Request.{Request};
ghost use Rattle.mold_wire.specs.declared.session.Session.{Session};

/// The values of the constants: those of the standard, and the limits that this project sets.
pub fn constants_law()
    ensures header { HEADER_LENGTH ≡ 20 }
    ensures alone { MESSAGE_OVERHEAD ≡ 22 }
    ensures message { MAX_MESSAGE ≡ 65535 }
    ensures end { END_OF_SESSION ≡ 65535 }
    ensures count { MAX_COUNT ≡ 65534 }
    ensures number { MAX_NUMBER ≡ 18446744073709551615 }
    ensures limits { (MIN_LIMIT ≡ 64) × (MAX_LIMIT ≡ 65507) }
    ensures window { (MAX_WINDOW ≡ 65536) × (MAX_WIDE_WINDOW ≡ 1048576) }
    ensures burst { MAX_BURST ≡ 64 }
{}

/// Each packet and each request has exactly one encoding. Two different packets, or two different requests,
/// have different encodings.
#[tactic(auto, using(crate::proofs::SpellingLemmas::one_spelling))]
pub fn one_spelling_law()
    ensures packet_spelled { (packet : Packet) → IsPacket packet → Spells packet (spelling_of packet) }
    ensures one_packet_spelling { (packet : Packet) (one other : List ℕ) →
        Spells packet one → Spells packet other → one ≡ other }
    ensures one_packet { (one other : Packet) (bytes : List ℕ) →
        Spells one bytes → Spells other bytes → one ≡ other }

    ensures request_spelled { (request : Request) →
        IsRequest request → SpellsRequest request (request_spelling request) }
    ensures one_request_spelling { (request : Request) (one other : List ℕ) →
        SpellsRequest request one → SpellsRequest request other → one ≡ other }
    ensures one_request { (one other : Request) (bytes : List ℕ) →
        SpellsRequest one bytes → SpellsRequest other bytes → one ≡ other }
{}

/// `reading`, which `decode` returns, is a packet exactly when the bytes encode that packet, and a fault exactly when
/// they have that fault. The same holds of `request_reading`, which `Request::decode` returns. The clauses without
/// `IsBytes` hold for lists of any numbers.
pub fn reading_law()
    ensures read { (packet : Packet) (bytes : List ℕ) →
        Spells packet bytes → reading bytes ≡ Ok packet }
    ensures spelled { (packet : Packet) (bytes : List ℕ) → IsBytes bytes →
        reading bytes ≡ Ok packet → Spells packet bytes }
    ensures fault { (error : DecodeError) (bytes : List ℕ) → IsBytes bytes →
        (reading bytes ≡ Err error) ↔ FaultAt error bytes }

    ensures request_read { (request : Request) (bytes : List ℕ) →
        SpellsRequest request bytes → request_reading bytes ≡ Ok request }
    ensures request_spelled { (request : Request) (bytes : List ℕ) → IsBytes bytes →
        request_reading bytes ≡ Ok request → SpellsRequest request bytes }
    ensures request_fault { (error : RequestError) (bytes : List ℕ) →
        (request_reading bytes ≡ Err error) ↔ RequestFaultAt error bytes }
{}

/// The length of an encoding: a packet takes a header, and two bytes plus the data for each message. If the
/// messages fit a limit, so does the packet. The greatest datagram holds at most 32,743 messages.
#[tactic(auto, using(crate::proofs::PackingLemmas::spelling_lengths, crate::proofs::RequestLemmas::request_length))]
pub fn spelling_length_law()
    ensures packet { (packet : Packet) (bytes : List ℕ) →
        Spells packet bytes → length bytes ≡ packet_length (messages_of packet.body) }
    ensures request { (request : Request) (bytes : List ℕ) →
        SpellsRequest request bytes → length bytes ≡ HEADER_LENGTH }
    ensures fits { (packet : Packet) (bytes : List ℕ) (limit : ℕ) →
        Spells packet bytes → Fits limit (messages_of packet.body) → length bytes ≤ limit }
    ensures most { (limit : ℕ) (messages : List (List ℕ)) →
        limit ≤ MAX_LIMIT → Fits limit messages → length messages ≤ 32743 }
{}

/// The offset of a message in a packet: the header, the earlier blocks and the two length bytes of the message come
/// before its data. A message that is borrowed from a datagram is the slice at that offset.
#[tactic(auto, using(crate::proofs::PackingLemmas::message_place))]
pub fn message_place_law()
    ensures { (packet : Packet) (bytes : List ℕ) (before behind : List (List ℕ)) (message : List ℕ) →
        Spells packet bytes → messages_of packet.body ≡ before ++ message ∷ behind →
        take (length message) (drop (packet_length before + 2) bytes) ≡ message }
{}

/// The length of a packet, message by message: each message adds two bytes and its data. `Packer::fits` returns whether
/// the packet still fits the limit with one more message. A message fits alone exactly when it is at least
/// `MESSAGE_OVERHEAD` bytes shorter than the limit.
#[tactic(auto, using(crate::proofs::PackingLemmas::packet_lengths))]
pub fn packet_length_law()
    ensures none { packet_length [] ≡ HEADER_LENGTH }
    ensures one_more { (messages : List (List ℕ)) (message : List ℕ) →
        packet_length (messages ++ message ∷ []) ≡ packet_length messages + (2 + length message) }
    ensures room { (limit : ℕ) (session : Session) (sequence : ℕ) (messages : List (List ℕ))
        (message : List ℕ) → HasRoom limit (Open session sequence messages) (length message)
        ↔ Fits limit (messages ++ message ∷ []) }
    ensures alone { (limit : ℕ) (message : List ℕ) →
        (length message + MESSAGE_OVERHEAD ≤ limit) ↔ Fits limit (message ∷ []) }
{}

/// If the limit has room for a header, `front` is the longest prefix that has at most `most` messages and fits. There
/// is no other such prefix. A prefix that has at most `most` messages and fits is the longest one if it is the whole
/// list, if it has `most` messages, or if it no longer fits with the next message. The longest prefix is not empty if
/// `most` is at least 1 and the first message fits alone. The clause `more` computes it message by message.
#[tactic(auto, using(crate::proofs::FrontLemmas::front_is))]
pub fn front_law()
    ensures front { (limit : ℕ) (messages : List (List ℕ)) (most : ℕ) →
        HEADER_LENGTH ≤ limit → IsFront limit messages most (front limit messages most) }
    ensures only { (limit : ℕ) (messages : List (List ℕ)) (most : ℕ) (found : List (List ℕ)) →
        IsFront limit messages most found → found ≡ front limit messages most }
    ensures stops { (limit : ℕ) (messages : List (List ℕ)) (most : ℕ) (found behind : List (List ℕ)) →
        messages ≡ found ++ behind → length found ≤ most → Fits limit found →
        ((next : List ℕ) (more : List (List ℕ)) →
        behind ≡ next ∷ more → length found < most → ¬ Fits limit (found ++ next ∷ [])) →
        IsFront limit messages most found }
    ensures some { (limit : ℕ) (message : List ℕ) (messages found : List (List ℕ)) (most : ℕ) →
        IsFront limit (message ∷ messages) most found → 0 < most → Fits limit (message ∷ []) →
        0 < length found }
    ensures whole { (limit : ℕ) (messages : List (List ℕ)) (most : ℕ) →
        length messages ≤ most → Fits limit messages → IsFront limit messages most messages }
    ensures more { (limit : ℕ) (message : List ℕ) (messages : List (List ℕ)) (most : ℕ) →
        Fits limit (message ∷ []) → front limit (message ∷ messages) (suc most)
        ≡ message ∷ front (limit - (2 + length message)) messages most }
{}

/// A packet that is true of an open session stays true when the session publishes one more message, with a number below
/// `MAX_NUMBER`, or closes. A message keeps its sequence number when more messages are published.
pub fn true_stays_law()
    ensures published { (packet : Packet) (published : List (List ℕ)) (message : List ℕ) →
        length published < MAX_NUMBER - 1 → IsTruePacket packet published false →
        IsTruePacket packet (published ++ message ∷ []) false }
    ensures closed { (packet : Packet) (published : List (List ℕ)) →
        IsTruePacket packet published false → IsTruePacket packet published true }
    ensures message { (published behind : List (List ℕ)) (number : ℕ) (message : List ℕ) →
        published_at published number ≡ Some message →
        published_at (published ++ behind) number ≡ Some message }
{}

/// The top of a true packet is at most one more than the number of published messages. Its messages are those published
/// from its sequence number on, and every data packet of such messages is true.
pub fn true_packet_law()
    ensures top { (packet : Packet) (published : List (List ℕ)) (closed : Bool) →
        IsPacket packet → IsTruePacket packet published closed → top_of packet ≤ length published + 1 }
    ensures messages { (packet : Packet) (published : List (List ℕ)) (closed : Bool) →
        IsPacket packet → IsTruePacket packet published closed → messages_of packet.body
        ≡ take (length (messages_of packet.body)) (drop (packet.sequence - 1) published) }
    ensures carried { (packet : Packet) (published : List (List ℕ)) (closed : Bool)
        (number : ℕ) (message : List ℕ) → IsTruePacket packet published closed →
        Carries packet number message → published_at published number ≡ Some message }
    ensures piece { (packet : Packet) (published behind : List (List ℕ)) (closed : Bool) →
        length published < MAX_NUMBER → 1 ≤ packet.sequence →
        packet.body ≡ Data (messages_of packet.body) →
        drop (packet.sequence - 1) published ≡ messages_of packet.body ++ behind →
        IsTruePacket packet published closed }
{}
