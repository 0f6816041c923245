//! Writing frames (RFC 9113, sections 4.1 and 6).

ghost use Rattle.std.specs.Prelude.{◌≡◌, ◌+◌, ◌≤◌, ◌++◌, length, vec_len, None, Some, IfErr, OnOk};
ghost use Rattle.std.specs.Prelude.{OnErr, IsOk};
ghost use Rattle.std.specs.Vec.{vec_capacity};
ghost use Rattle.h2_frame.specs.Frames.{Frame as AnyFrame, frame_of, owned_frame};
ghost use Rattle.h2_frame.specs.Encoding.{encoding_of, refusal, IsRefused, IsTyped};
ghost use Rattle.h2_frame.specs.FrameParts.{Describes};

use crate::frame::FrameRef;
use crate::frame_parts::FrameParts;
use crate::heads::HEAD_LEN;
use crate::owned::{Frame, Unwritable};

// contract: 6 A frame is sent only on a stream that its type allows
/// Appends a frame's head and payload (RFC 9113, sections 4.1 and 6). Reserved bits and padding are
/// zero, and so are flags that the type does not define; those of [`Frame::Unknown`] are all
/// written.
///
/// # Errors
///
/// The first of these that holds; `out` is unchanged then:
///
/// 1. [`Unwritable::TooLong`] (F1) where the payload has more than 16,777,215 octets.
/// 2. [`Unwritable::BadStream`] (F2) where a frame of this type may not be on the stream, or
///    the stream's number is above 2<sup>31</sup> - 1.
/// 3. [`Unwritable::BadValue`] (F3) for a last stream or an increment above 2<sup>31</sup> - 1,
///    for SETTINGS with ACK and pairs, and for [`Frame::Unknown`] with a known type, 0 to 9.
/// 4. [`Unwritable::Memory`] (F4), which does not come where `out` has capacity for the frame.
pub fn write(frame: &Frame, out: &mut Vec<u8>) -> Result<(), Unwritable>
    ensures ok { OnOk result ((refusal (owned_frame frame.now) ≡ None)
        × (out.new.items ≡ out.old.items ++ encoding_of (owned_frame frame.now))) }
    ensures err { IfErr result (λ error. IsRefused (owned_frame frame.now) error
        × (out.new.items ≡ out.old.items)) }
    ensures room { refusal (owned_frame frame.now) ≡ None
        → vec_len out.old + length (encoding_of (owned_frame frame.now)) ≤ vec_capacity out.old
        → IsOk result }
    ensures capacity { vec_capacity out.old ≤ vec_capacity out.new }
    ensures typed { IsTyped (owned_frame frame.now) }
{
    write_parts(&owned_parts(frame), out)
}

// contract: 6 A frame is sent only on a stream that its type allows
/// Appends a frame whose payload is lent, as [`write`] does.
///
/// # Errors
///
/// Those of [`write`].
#[inline(always)]
pub fn write_ref(frame: FrameRef<'_>, out: &mut Vec<u8>) -> Result<(), Unwritable>
    ensures ok { OnOk result ((refusal (frame_of frame.entry) ≡ None)
        × (out.new.items ≡ out.old.items ++ encoding_of (frame_of frame.entry))) }
    ensures err { IfErr result (λ error. IsRefused (frame_of frame.entry) error
        × (out.new.items ≡ out.old.items)) }
    ensures room { refusal (frame_of frame.entry) ≡ None
        → vec_len out.old + length (encoding_of (frame_of frame.entry)) ≤ vec_capacity out.old
        → IsOk result }
    ensures capacity { vec_capacity out.old ≤ vec_capacity out.new }
    ensures typed { IsTyped (frame_of frame.entry) }
{
    write_parts(&lent_parts(frame), out)
}

// rule: 4.1 A frame is sent without its reserved bit and undefined flags
// rule: 4.1 A frame is sent with the length of its payload
// rule: 4.1 (own) A refused frame leaves the output as it was
// rule: 4.1 (own) A frame is refused for length, stream, values, memory, in order
// rule: 4.1 (own) With room in the output memory is not refused to a frame
// rule: 6 A frame is sent only on a stream that its type allows
// Appends a frame with these parts.
fn write_parts(parts: &FrameParts<'_>, out: &mut Vec<u8>) -> Result<(), Unwritable>
    ensures ok { (frame : AnyFrame) → Describes parts.now frame
        → OnOk result ((refusal frame ≡ None)
        × (out.new.items ≡ out.old.items ++ encoding_of frame)) }
    ensures err { (frame : AnyFrame) → Describes parts.now frame
        → IfErr result (λ error. IsRefused frame error × (out.new.items ≡ out.old.items)) }
    ensures room { (frame : AnyFrame) → Describes parts.now frame
        → refusal frame ≡ None → vec_len out.old + length (encoding_of frame) ≤ vec_capacity out.old
        → IsOk result }
    ensures capacity { vec_capacity out.old ≤ vec_capacity out.new }
{
    let Some(length) = parts.payload_length() else {
        return Err(Unwritable::TooLong);
    };
    if !parts.has_good_stream() {
        return Err(Unwritable::BadStream);
    }
    if !parts.has_good_values {
        return Err(Unwritable::BadValue);
    }
    if out.reserve(HEAD_LEN + length as usize).is_err() {
        return Err(Unwritable::Memory);
    }
    parts.append_head(length, out);
    parts.append_payload(out);
    Ok(())
}

// The parts of a frame whose payload is lent.
fn lent_parts(frame: FrameRef<'_>) -> FrameParts<'_>
    ensures { Describes result (frame_of frame.entry) }
{
    match frame {
        FrameRef::Data {
            stream,
            end,
            octets,
            pad,
        } => FrameParts::data(stream, end, octets, pad),
        FrameRef::Headers {
            stream,
            end,
            whole,
            fragment,
            pad,
            priority,
        } => FrameParts::headers(stream, end, whole, fragment, pad, priority),
        FrameRef::Priority { stream, octets } => FrameParts::priority(stream, octets),
        FrameRef::Reset { stream, code } => FrameParts::reset(stream, code),
        FrameRef::Settings { ack, pairs } => FrameParts::lent_settings(ack, pairs),
        FrameRef::Ping { ack, octets } => FrameParts::ping(ack, octets),
        FrameRef::GoAway { last, code, debug } => FrameParts::go_away(last, code, debug),
        FrameRef::WindowUpdate { stream, increment } => FrameParts::window_update(
            stream, increment,
        ),
        FrameRef::Continuation {
            stream,
            whole,
            fragment,
        } => FrameParts::continuation(stream, whole, fragment),
        FrameRef::Unknown {
            kind,
            flags,
            stream,
            payload,
        } => FrameParts::unknown(kind, flags, stream, payload),
    }
}

// The parts of a frame that owns its payload.
fn owned_parts(frame: &Frame) -> FrameParts<'_>
    ensures { Describes result (owned_frame frame.now) }
{
    match frame {
        Frame::Data {
            stream,
            end,
            octets,
            pad,
        } => FrameParts::data(*stream, *end, octets, *pad),
        Frame::Headers {
            stream,
            end,
            whole,
            fragment,
            pad,
            priority,
        } => FrameParts::headers(*stream, *end, *whole, fragment, *pad, *priority),
        Frame::Priority { stream, octets } => FrameParts::priority(*stream, *octets),
        Frame::Reset { stream, code } => FrameParts::reset(*stream, *code),
        Frame::Settings { ack, pairs } => FrameParts::settings(*ack, pairs),
        Frame::Ping { ack, octets } => FrameParts::ping(*ack, *octets),
        Frame::GoAway { last, code, debug } => FrameParts::go_away(*last, *code, debug),
        Frame::WindowUpdate { stream, increment } => FrameParts::window_update(*stream, *increment),
        Frame::Continuation {
            stream,
            whole,
            fragment,
        } => FrameParts::continuation(*stream, *whole, fragment),
        Frame::Unknown {
            kind,
            flags,
            stream,
            payload,
        } => FrameParts::unknown(*kind, *flags, *stream, payload),
    }
}
