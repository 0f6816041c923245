//! Frames that are written and read, which the `CALLING.md` of `h2_frame` quotes.

// calling: h2_frame
ghost use Rattle.std.specs.Prelude.{◌≡◌, IfOk, IfErr};
ghost use Rattle.h2_frame.specs.Frames.{frame_of, owned_frame};
ghost use Rattle.h2_frame.specs.Encoding.{IsRefused};

use h2_frame::{
    Frame, FrameRef, Unwritable, head, nine_octets, one_frame, read_payload, within_limit, write,
    written_frame_is_read,
};

/// Writes a frame, and reads it back: it is the same frame. Returns a refusal.
pub fn read_back<'a>(frame: &Frame, out: &'a mut Vec<u8>) -> Result<FrameRef<'a>, Unwritable>
    ensures ok { IfOk result (λ read. frame_of read ≡ owned_frame frame.now) }
    ensures err { IfErr result (λ error. IsRefused (owned_frame frame.now) error) }
{
    written_frame_is_read();
    within_limit();
    nine_octets();
    one_frame();
    out.clear();
    write(frame, out)?;
    let mut nine = [0; 9];
    nine.copy_from_slice(&out[..9]);
    match read_payload(&head(&nine), &out[9..]) {
        Ok(read) => Ok(read),
        Err(_) => unreachable!(),
    }
}
// end

// calling: h2_frame faults
ghost use Rattle.std.specs.Prelude.{IfSome};
ghost use Rattle.h2_frame.specs.Heads.{head_of};
ghost use Rattle.h2_frame.specs.Frames.{Carries};

use h2_frame::{Code, PayloadError, head_fault};

/// Reads a frame of its head and its payload; `None` if the payload has another length. Returns
/// the code of a fault of either.
pub fn read_frame<'a>(nine: &[u8; 9], payload: &'a [u8]) -> Result<Option<FrameRef<'a>>, Code>
    ensures { IfOk result (λ read. IfSome read (λ frame.
        Carries (head_of nine.now) payload.now (frame_of frame))) }
{
    let head = head(nine);
    if let Some(fault) = head_fault(&head, 16_384) {
        return Err(fault.code());
    }
    if payload.len() != head.length as usize {
        return Ok(None);
    }
    match read_payload(&head, payload) {
        Ok(frame) => Ok(Some(frame)),
        Err(PayloadError::Code(code)) => Err(code),
    }
}
// end

// calling: h2_frame refusals
ghost use Rattle.std.specs.Prelude.{◌++◌, OnErr};
ghost use Rattle.h2_frame.specs.Encoding.{encoding_of};

/// Appends a frame as a user asks for it, and returns the user's mistakes as text. `None` out
/// of memory: write the queued output, and try again.
pub fn write_for_user(frame: &Frame, out: &mut Vec<u8>) -> Result<Option<()>, &'static str>
    ensures ok { IfOk result (λ written. IfSome written (λ _.
        out.new.items ≡ out.old.items ++ encoding_of (owned_frame frame.now))) }
    ensures err { OnErr result (out.new.items ≡ out.old.items) }
{
    match write(frame, out) {
        Ok(()) => Ok(Some(())),
        Err(Unwritable::Memory) => Ok(None),
        Err(Unwritable::TooLong) => Err("a payload has at most 16,777,215 octets"),
        Err(Unwritable::BadStream) => Err("a frame of this type has no such stream"),
        Err(Unwritable::BadValue) => Err("a value is out of range, or not for this type"),
    }
}
// end

// calling: h2_frame pad
use h2_frame::{pad_length, payload_frame};

/// Reads a frame only if it is on this stream; checks the others without reading them. Returns
/// the code of a fault of any of them, since that ends the connection.
pub fn read_on<'a>(
    stream: u32,
    nine: &[u8; 9],
    payload: &'a [u8],
) -> Result<Option<FrameRef<'a>>, Code>
    ensures { IfOk result (λ read. IfSome read (λ frame.
        Carries (head_of nine.now) payload.now (frame_of frame))) }
{
    let head = head(nine);
    if let Some(fault) = head_fault(&head, 16_384) {
        return Err(fault.code());
    }
    if payload.len() != head.length as usize {
        return Ok(None);
    }
    let pad = pad_length(&head, payload)?;
    if head.stream != stream {
        return Ok(None);
    }
    Ok(Some(payload_frame(&head, pad, payload)))
}
// end

// calling: h2_frame lent
ghost use Rattle.std.specs.Prelude.{true};

use h2_frame::write_ref;

/// Appends a frame that was read to a copy of its stream of octets, as a recorder does, and
/// returns whether it did. If not, memory was refused: write the copy, and try again. A frame
/// as it was read is refused for nothing else; the codes are for one that was changed since.
/// For another connection make frames anew: stream numbers, header tables, settings and windows
/// belong to one connection.
pub fn pass_on(frame: FrameRef<'_>, out: &mut Vec<u8>) -> Result<bool, Code>
    ensures ok { IfOk result (λ passed. passed ≡ true →
        out.new.items ≡ out.old.items ++ encoding_of (frame_of frame.entry)) }
    ensures err { OnErr result (out.new.items ≡ out.old.items) }
{
    match write_ref(frame, out) {
        Ok(()) => Ok(true),
        Err(Unwritable::Memory) => Ok(false),
        Err(Unwritable::TooLong) => Err(Code::FrameSizeError),
        Err(Unwritable::BadStream | Unwritable::BadValue) => Err(Code::ProtocolError),
    }
}
// end
