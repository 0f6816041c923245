//! Reading and checking heads (RFC 9113, sections 4.1, 4.2 and 6).

ghost use Rattle.std.specs.Prelude.{◌≡◌, ◌<◌, ◌≤◌, ◌^◌, None};
ghost use Rattle.h2_frame.specs.Heads.{head_of, head_fault as fault_of, form_fault};
ghost use Rattle.h2_frame.specs.Heads.{fits_stream as stream_fits, fits_length as length_fits};
ghost use Rattle.h2_frame.specs.Heads.{octets_of_flags as flag_octets};

use crate::head_faults::HeadFault;
use crate::heads::{HEAD_LEN, Head};
use crate::kind::Kind;
use byteorder::{BigEndian, ByteOrder};

/// The bit of ACK, in SETTINGS and PING.
pub(crate) const ACK: u8 = 0x01;

/// The bit of END_STREAM, in DATA and HEADERS.
pub(crate) const END_STREAM: u8 = 0x01;

/// The bit of END_HEADERS, in HEADERS and CONTINUATION.
pub(crate) const END_HEADERS: u8 = 0x04;

/// The bit of PADDED, in DATA and HEADERS.
pub(crate) const PADDED: u8 = 0x08;

/// The bit of PRIORITY, in HEADERS.
pub(crate) const PRIORITY: u8 = 0x20;

// contract: 4.1 A head is 24 bits of length, 8 of type, 8 of flags, 1 + 31 of stream
// rule: 4.1 A head is 24 bits of length, 8 of type, 8 of flags, 1 + 31 of stream
// contract: 4.1 The reserved bit of a head is ignored when it is received
// rule: 4.1 The reserved bit of a head is ignored when it is received
/// Reads the nine octets of a frame header; the reserved bit is ignored (RFC 9113, section
/// 4.1).
#[tactic(auto, unfolding(crate::specs::Heads::head_of))]
pub fn head(octets: &[u8; HEAD_LEN]) -> Head
    ensures value { result ≡ head_of octets.now }

    // The length has 24 bits, and the stream 31.
    ensures bounds { (result.length < 2 ^ 24) × (result.stream < 2 ^ 31) }
{
    Head {
        length: BigEndian::read_u24(octets),
        kind: Kind::from_number(octets[3]),
        flags: octets[4],
        stream: BigEndian::read_u32(&octets[5..]) & 0x7fff_ffff,
    }
}

// rule: 4.2 A length above the limit is FRAME_SIZE_ERROR (of the connection: own)
// contract: 4.2 A payload as long as the limit is received
// rule: 4.2 A payload as long as the limit is received
// rule: 4.2 Of the faults of a head a length above the limit is the first
// contract: 6.3 PRIORITY has five octets (a connection error: own)
// contract: 6.3 PRIORITY on stream 0 is PROTOCOL_ERROR
// contract: 6.4 RST_STREAM has four octets
// contract: 6.4 RST_STREAM on stream 0 is PROTOCOL_ERROR
// rule: 6.6 PUSH_PROMISE is PROTOCOL_ERROR, since no end here allows push
// contract: 6.7 PING has eight octets
// contract: 6.7 PING on a stream other than 0 is PROTOCOL_ERROR
/// Returns the fault of a head where payloads may have at most `limit` octets, if it has one.
/// It is the first of these:
///
/// 1. A length above the limit: FRAME_SIZE_ERROR.
/// 2. PUSH_PROMISE, which this library refuses: PROTOCOL_ERROR.
/// 3. A stream that a frame of this type may not be on: PROTOCOL_ERROR.
/// 4. A length that the type and the flags do not allow: FRAME_SIZE_ERROR.
#[tactic(auto, unfolding(crate::specs::Heads::head_fault, crate::specs::Heads::form_fault))]
pub fn head_fault(head: &Head, limit: u32) -> Option<HeadFault>
    ensures value { result ≡ fault_of head.now limit }

    // Without a fault, the length is within the limit, and the head has none of the other
    // faults.
    ensures within { result ≡ None → head.now.length ≤ limit }
    ensures form { result ≡ None → form_fault head.now ≡ None }
{
    if head.length > limit {
        return Some(HeadFault::TooLong);
    }
    if head.kind == Kind::PushPromise {
        return Some(HeadFault::IsPushPromise);
    }
    if !fits_stream(head.kind, head.stream) {
        return Some(HeadFault::WrongStream);
    }
    if !fits_length(head.kind, head.flags, head.length) {
        return Some(HeadFault::WrongLength);
    }
    None
}

// rule: 6.1 DATA on stream 0 is PROTOCOL_ERROR
// rule: 6.2 HEADERS on stream 0 is PROTOCOL_ERROR
// rule: 6.3 PRIORITY on stream 0 is PROTOCOL_ERROR
// rule: 6.4 RST_STREAM on stream 0 is PROTOCOL_ERROR
// rule: 6.5 SETTINGS on a stream other than 0 is PROTOCOL_ERROR
// rule: 6.7 PING on a stream other than 0 is PROTOCOL_ERROR
// rule: 6.8 GOAWAY on a stream other than 0 is PROTOCOL_ERROR
// rule: 6.10 CONTINUATION on stream 0 is PROTOCOL_ERROR
/// Whether a frame of this type may be on the stream.
#[tactic(auto, unfolding(crate::specs::Heads::fits_stream))]
pub(crate) fn fits_stream(kind: Kind, stream: u32) -> bool
    ensures { result ≡ stream_fits kind stream }
{
    match kind {
        Kind::Data
        | Kind::Headers
        | Kind::Priority
        | Kind::RstStream
        | Kind::PushPromise
        | Kind::Continuation => stream != 0,
        Kind::Settings | Kind::Ping | Kind::GoAway => stream == 0,
        Kind::WindowUpdate | Kind::Unknown(_) => true,
    }
}

// rule: 4.1 Flags that the type does not define are ignored when received
// rule: 4.2 A length that the type and flags cannot have is FRAME_SIZE_ERROR
// rule: 6.1 PADDED DATA without an octet of payload is FRAME_SIZE_ERROR
// rule: 6.2 HEADERS too short for its flags is FRAME_SIZE_ERROR
// rule: 6.3 PRIORITY has five octets (a connection error: own)
// rule: 6.4 RST_STREAM has four octets
// rule: 6.5 SETTINGS has a length that is a multiple of six
// rule: 6.5 SETTINGS with ACK has no payload
// rule: 6.7 PING has eight octets
// rule: 6.8 GOAWAY has at least eight octets
// rule: 6.9 WINDOW_UPDATE has four octets
// Whether a payload of this type, with these flags, may have the length.
#[tactic(auto, unfolding(crate::specs::Heads::fits_length))]
fn fits_length(kind: Kind, flags: u8, length: u32) -> bool
    ensures { result ≡ length_fits kind flags length }
{
    match kind {
        Kind::Data => flags & PADDED == 0 || length >= 1,
        Kind::Headers => length >= octets_of_flags(flags & PADDED != 0, flags & PRIORITY != 0),
        Kind::Priority => length == 5,
        Kind::RstStream | Kind::WindowUpdate => length == 4,
        Kind::Settings if flags & ACK != 0 => length == 0,
        Kind::Settings => length % 6 == 0,
        Kind::Ping => length == 8,
        Kind::GoAway => length >= 8,
        Kind::PushPromise | Kind::Continuation | Kind::Unknown(_) => true,
    }
}

// rule: 6.2 HEADERS too short for its flags is FRAME_SIZE_ERROR
/// The number of octets that the flags PADDED and PRIORITY add: the pad length and the
/// priority.
pub(crate) fn octets_of_flags(padded: bool, prioritized: bool) -> u32
    ensures { result ≡ flag_octets padded prioritized }
{
    let pad_length = if padded { 1 } else { 0 };
    let priority = if prioritized { 5 } else { 0 };
    pad_length + priority
}
