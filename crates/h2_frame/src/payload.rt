//! Reading payloads (RFC 9113, section 6).

ghost use Rattle.std.specs.Prelude.{◌≡◌, ◌≤◌, ◌+◌, length, None, Some, true, Bool};
ghost use Rattle.std.specs.Prelude.{MatchResult, IfSome};
ghost use Rattle.h2_frame.specs.Heads.{form_fault, has_priority};
ghost use Rattle.h2_frame.specs.Frames.{frame_of, Carries, IsPadded, IsPrioritized, pad_of};
ghost use Rattle.h2_frame.specs.Frames.{pad_where, unpadded};
ghost use Rattle.h2_frame.specs.Frames.{payload_fault as fault_of_payload, Refuses};

use crate::code::Code;
use crate::frame::{FrameRef, PayloadError};
use crate::heads::Head;
use crate::kind::Kind;
use crate::pairs::Pairs;
use crate::reading_heads::{ACK, END_HEADERS, END_STREAM, PADDED, PRIORITY, octets_of_flags};
use byteorder::{BigEndian, ByteOrder};

// contract: 6.1 Padding as long as the payload of DATA, or longer, is PROTOCOL_ERROR
// rule: 6.1 Padding as long as the payload of DATA, or longer, is PROTOCOL_ERROR
// rule: 6.1 A fault of a payload is known at its last octet
// contract: 6.2 Padding of HEADERS above what the priority leaves is PROTOCOL_ERROR
// rule: 6.2 Padding of HEADERS above what the priority leaves is PROTOCOL_ERROR
/// Checks the payload after a head without fault, and returns its pad length; `None` if it has
/// none (RFC 9113, sections 6.1 and 6.2). The slice must have as many octets as the head's
/// `length` says. It allocates nothing.
///
/// # Errors
///
/// PROTOCOL_ERROR where the pad length of DATA is not less than the payload's length, or the pad
/// length of HEADERS is above the number of octets that follow it and the priority.
#[tactic(auto, unfolding(crate::proofs::Rules::payload_rules))]
pub fn pad_length(head: &Head, payload: &[u8]) -> Result<Option<u8>, Code>
    // The head has no fault, except perhaps a length above the limit.
    requires form { form_fault head.now ≡ None }
    requires complete { length payload.now ≡ head.now.length }
    ensures { MatchResult result
        (λ pad. (fault_of_payload head.now payload.now ≡ None)
        × (pad ≡ pad_of head.now payload.now))
        (λ code. fault_of_payload head.now payload.now ≡ Some code) }
{
    if head.flags & PADDED == 0 {
        return Ok(None);
    }
    let taken = match head.kind {
        Kind::Data => 1,
        Kind::Headers => octets_of_flags(true, head.flags & PRIORITY != 0),
        _ => return Ok(None),
    };
    let left = payload.len() - taken as usize;
    let pad = payload[0];
    if usize::from(pad) > left {
        return Err(Code::ProtocolError);
    }
    Ok(Some(pad))
}

// contract: 5.5 A frame of an unknown type passes as it is, and an end ignores it
// contract: 6.1 END_STREAM of DATA ends the stream of the sender
// contract: 6.2 END_STREAM and END_HEADERS are read from their bits
// contract: 6.3 PRIORITY is read with its five octets, which are not divided
// contract: 6.4 RST_STREAM is read with its code of 32 bits
// contract: 6.5 ACK of SETTINGS and PING is read from its bit
// contract: 6.7 PING is read with its octets
// contract: 7 A received code is any number of 32 bits, and an unknown one does nothing
/// Checks the payload after a head without fault, and returns the frame, whose payload is lent
/// (RFC 9113, section 6). The slice must have as many octets as the head's `length` says. It
/// allocates nothing.
///
/// # Errors
///
/// [`PayloadError::Code`] with the code of the payload's fault, which [`pad_length`] returns.
#[tactic(auto, unfolding(crate::proofs::Rules::form_rules))]
pub fn read_payload<'a>(head: &Head, payload: &'a [u8]) -> Result<FrameRef<'a>, PayloadError>
    // The head has no fault, except perhaps a length above the limit.
    requires form { form_fault head.now ≡ None }
    requires complete { length payload.now ≡ head.now.length }
    ensures { MatchResult result
        (λ frame. (fault_of_payload head.now payload.now ≡ None)
        × Carries head.now payload.now (frame_of frame))
        (Refuses head.now payload.now) }
{
    let pad = pad_length(head, payload)?;
    Ok(payload_frame(head, pad, payload))
}

// rule: 4.1 Flags that the type does not define are ignored when received
// rule: 5.5 A frame of an unknown type passes as it is, and an end ignores it
// rule: 6.1 With PADDED, DATA has a pad length, data and padding
// rule: 6.1 END_STREAM of DATA ends the stream of the sender
// rule: 6.4 RST_STREAM is read with its code of 32 bits
// rule: 6.5 ACK of SETTINGS and PING is read from its bit
// rule: 6.8 GOAWAY has a reserved bit, a last stream, a code and debug data
// rule: 6.9 The reserved bit of WINDOW_UPDATE is ignored
// rule: 6.10 CONTINUATION is a fragment, and END_HEADERS ends the block
// rule: 7 A received code is any number of 32 bits, and an unknown one does nothing
/// Returns the frame of a payload without fault, after a head without fault (RFC 9113, section 6);
/// the payload is lent. The slice must have as many octets as the head's `length` says, and `pad`
/// must be what [`pad_length`] returned for it. It allocates nothing.
#[tactic(auto, unfolding(crate::proofs::Rules::payload_rules))]
#[inline(always)]
pub fn payload_frame<'a>(head: &Head, pad: Option<u8>, payload: &'a [u8]) -> FrameRef<'a>
    requires form { form_fault head.now ≡ None }
    requires complete { length payload.now ≡ head.now.length }
    requires sound { fault_of_payload head.now payload.now ≡ None }
    requires pad { pad ≡ pad_of head.now payload.now }
    ensures { Carries head.now payload.now (frame_of result) }
{
    let stream = head.stream;
    let ack = head.flags & ACK != 0;
    match head.kind {
        Kind::Data => FrameRef::Data {
            stream,
            end: head.flags & END_STREAM != 0,
            octets: without_padding(pad, payload),
            pad,
        },
        Kind::Headers => headers(head, pad, payload),
        Kind::Priority => FrameRef::Priority {
            stream,
            octets: five(payload),
        },
        Kind::RstStream => FrameRef::Reset {
            stream,
            code: BigEndian::read_u32(payload),
        },
        Kind::Settings => FrameRef::Settings {
            ack,
            pairs: Pairs { octets: payload },
        },
        // A head of this type has a fault.
        Kind::PushPromise => unreachable!(),
        Kind::Ping => FrameRef::Ping {
            ack,
            octets: eight(payload),
        },
        Kind::GoAway => FrameRef::GoAway {
            last: BigEndian::read_u32(payload) & 0x7fff_ffff,
            code: BigEndian::read_u32(&payload[4..]),
            debug: &payload[8..],
        },
        Kind::WindowUpdate => FrameRef::WindowUpdate {
            stream,
            increment: BigEndian::read_u32(payload) & 0x7fff_ffff,
        },
        Kind::Continuation => FrameRef::Continuation {
            stream,
            whole: head.flags & END_HEADERS != 0,
            fragment: payload,
        },
        Kind::Unknown(kind) => FrameRef::Unknown {
            kind,
            flags: head.flags,
            stream,
            payload,
        },
    }
}

// rule: 6.2 HEADERS has a pad length, a priority, the fragment and the padding
// rule: 6.2 END_STREAM and END_HEADERS are read from their bits
// The frame of HEADERS whose payload has no fault.
#[tactic(auto, unfolding(crate::proofs::Rules::payload_rules))]
fn headers<'a>(head: &Head, pad: Option<u8>, payload: &'a [u8]) -> FrameRef<'a>
    requires kind { head.now.kind ≡ Kind.Headers }
    requires form { form_fault head.now ≡ None }
    requires complete { length payload.now ≡ head.now.length }
    requires sound { fault_of_payload head.now payload.now ≡ None }
    requires pad { pad ≡ pad_of head.now payload.now }
    ensures { Carries head.now payload.now (frame_of result) }
{
    let body = without_padding(pad, payload);
    let (fragment, priority) = without_priority(head.flags, body);
    let (end, whole) = (head.flags & END_STREAM != 0, head.flags & END_HEADERS != 0);
    FrameRef::Headers {
        stream: head.stream,
        end,
        whole,
        fragment,
        pad,
        priority,
    }
}

// rule: 6.1 With PADDED, DATA has a pad length, data and padding
// rule: 6.2 HEADERS has a pad length, a priority, the fragment and the padding
// What lies between the pad length and the padding; all of a payload without a pad length.
fn without_padding(pad: Option<u8>, payload: &[u8]) -> &[u8]
    requires { IfSome pad (λ count. 1 + count ≤ length payload.now) }
    ensures value { result.now ≡ unpadded pad payload.now }
    ensures padded { (begins : Bool) → pad ≡ pad_where begins payload.now
        → IsPadded begins payload.now result.now pad }
{
    match pad {
        None => payload,
        Some(count) => &payload[1..payload.len() - usize::from(count)],
    }
}

// rule: 6.2 HEADERS has a pad length, a priority, the fragment and the padding
// The octets after the priority, and the priority; all of the body if it has none.
fn without_priority(flags: u8, body: &[u8]) -> (&[u8], Option<[u8; 5]>)
    requires { has_priority flags ≡ true → 5 ≤ length body.now }
    ensures { IsPrioritized (has_priority flags) body.now result.0.now result.1 }
{
    if flags & PRIORITY == 0 {
        return (body, None);
    }
    let (priority, fragment) = body.split_at(5);
    (fragment, Some(five(priority)))
}

// rule: 6.3 PRIORITY is read with its five octets, which are not divided
// A copy of five octets.
fn five(payload: &[u8]) -> [u8; 5]
    requires { length payload.now ≡ 5 }
    ensures { result ≡ payload.now }
{
    let mut copied = [0; 5];
    copied.copy_from_slice(payload);
    copied
}

// rule: 6.7 PING is read with its octets
// A copy of eight octets.
fn eight(payload: &[u8]) -> [u8; 8]
    requires { length payload.now ≡ 8 }
    ensures { result ≡ payload.now }
{
    let mut octets = [0; 8];
    octets.copy_from_slice(payload);
    octets
}
