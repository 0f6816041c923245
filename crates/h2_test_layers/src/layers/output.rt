//! The output, as an end uses it. The octets come from the layouts of RFC 9113, sections 4.1 and 6.

ghost use Rattle.std.specs.Prelude.{◌≡◌, false};

use h2_frame::{FrameRef, head, head_fault, read_payload, write_ref};
use h2_output::Output;
use std::alloc::Global;

/// What [`Output::end_with_goaway`] adds for stream 5 and PROTOCOL_ERROR.
pub(crate) const GOAWAY: &[u8] =
    b"\x00\x00\x08\x07\x00\x00\x00\x00\x00\x00\x00\x00\x05\x00\x00\x00\x01";

// Whether these octets are put out after the one that is there, and nothing is queued then.
fn gives_all(output: &mut Output, out: &mut Vec<u8>, octets: &[u8]) -> bool
    ensures { output.new.ended ≡ output.old.ended }
{
    match output.put_out(usize::MAX, out) {
        Ok(given) => {
            given == octets.len() && out.first() == Some(&7) && out.get(1..) == Some(octets)
        }
        Err(_) => false,
    }
}

/// Whether these octets are queued, and are put out once.
pub(crate) fn gives(alloc: Global, output: &mut Output, octets: &[u8]) -> bool
    ensures { output.new.ended ≡ output.old.ended }
{
    if output.len() != octets.len() || output.is_empty() != octets.is_empty() {
        return false;
    }
    let Ok(mut out) = Vec::from_slice(alloc, b"\x07") else {
        return false;
    };
    gives_all(output, &mut out, octets)
        && output.is_empty()
        && output.put_out(usize::MAX, &mut out) == Ok(0)
}

#[test]
fn nothing_waits_at_first(rt: HostRuntime) {
    assert!(rt;
        match Output::new(rt.alloc()) {
            Ok(mut output) => gives(rt.alloc(), &mut output, b""),
            Err(_) => false,
        }
    );
}

// Whether a frame is queued as these octets, its encoding.
fn adds_frame(alloc: Global, output: &mut Output, frame: FrameRef<'_>, octets: &[u8]) -> bool
    requires up { output.old.ended ≡ false }
{
    let mut encoding = Vec::new(alloc);
    if write_ref(frame, &mut encoding).is_err() || encoding.len() > 64 {
        return false;
    }
    if output.reserve(64).is_err() {
        return false;
    }
    output.add_frame(frame);
    gives(alloc, output, octets)
}

// Whether a frame is queued so in a new output.
fn is_added(alloc: Global, frame: FrameRef<'_>, octets: &[u8]) -> bool {
    match Output::new(alloc) {
        Ok(mut output) => adds_frame(alloc, &mut output, frame, octets),
        Err(_) => false,
    }
}

/// Frames, and their octets.
const FRAMES: &[(FrameRef<'static>, &[u8])] = &[
    (
        FrameRef::Reset { stream: 1, code: 8 },
        b"\x00\x00\x04\x03\x00\x00\x00\x00\x01\x00\x00\x00\x08",
    ),
    (
        FrameRef::Ping {
            ack: true,
            octets: *b"01234567",
        },
        b"\x00\x00\x08\x06\x01\x00\x00\x00\x0001234567",
    ),
    (
        FrameRef::WindowUpdate {
            stream: 3,
            increment: 65_536,
        },
        b"\x00\x00\x04\x08\x00\x00\x00\x00\x03\x00\x01\x00\x00",
    ),
    (
        FrameRef::GoAway {
            last: 5,
            code: 0,
            debug: b"",
        },
        b"\x00\x00\x08\x07\x00\x00\x00\x00\x00\x00\x00\x00\x05\x00\x00\x00\x00",
    ),
];

// The place of the first frame that is queued otherwise.
fn first_wrong(alloc: Global) -> Option<usize> {
    for (place, (frame, octets)) in FRAMES.iter().enumerate() {
        if !is_added(alloc, *frame, octets) {
            return Some(place);
        }
    }
    None
}

// rule: calls (own) Frames join the output that waits, in order
#[test]
fn frames_wait_in_their_encoding(rt: HostRuntime) {
    assert_eq!(rt; first_wrong(rt.alloc()), None);
}

// Whether SETTINGS with ACK, as it is read, is added.
fn is_acknowledgment_added(alloc: Global) -> bool {
    let octets = b"\x00\x00\x00\x04\x01\x00\x00\x00\x00";
    let read = head(octets);
    if head_fault(&read, 16_384).is_some() || read.length != 0 {
        return false;
    }
    match read_payload(&read, &[]) {
        Ok(frame) => is_added(alloc, frame, octets),
        Err(_) => false,
    }
}

#[test]
fn an_acknowledgment_of_settings(rt: HostRuntime) {
    assert!(rt; is_acknowledgment_added(rt.alloc()));
}

/// Whether DATA of a stream is added, for which room is made.
fn adds_data_of(output: &mut Output, stream: u32, octets: &[u8], end: bool) -> bool
    requires up { output.old.ended ≡ false }
    ensures { output.new.ended ≡ false }
{
    if octets.len() >= 1 << 24 || output.reserve(9 + octets.len()).is_err() {
        return false;
    }
    output.add_data(stream, octets, end);
    true
}

/// Whether DATA of stream 1 is added, for which room is made.
pub(crate) fn adds_data(output: &mut Output, octets: &[u8], end: bool) -> bool
    requires up { output.old.ended ≡ false }
    ensures { output.new.ended ≡ false }
{
    adds_data_of(output, 1, octets, end)
}

// Whether DATA is added, and put out as these octets.
fn gives_data(alloc: Global, output: &mut Output, data: &[u8], end: bool, octets: &[u8]) -> bool
    requires up { output.old.ended ≡ false }
    ensures { output.new.ended ≡ false }
{
    adds_data(output, data, end) && gives(alloc, output, octets)
}

// Whether DATA is queued in its encoding.
fn is_data_given(alloc: Global) -> bool {
    let Ok(mut output) = Output::new(alloc) else {
        return false;
    };
    let first = b"\x00\x00\x03\x00\x00\x00\x00\x00\x01abc";
    let second = b"\x00\x00\x05\x00\x01\x00\x00\x00\x01defgh";
    let third = b"\x00\x00\x00\x00\x01\x00\x00\x00\x01";
    gives_data(alloc, &mut output, b"abc", false, first)
        && gives_data(alloc, &mut output, b"defgh", true, second)
        && gives_data(alloc, &mut output, b"", true, third)
}

// Whether the stream and the length fill their fields.
fn is_long_data_given(alloc: Global) -> bool {
    let (Ok(octets), Ok(mut output)) = (vec![in alloc; b'x'; 0x01_02_03], Output::new(alloc)) else {
        return false;
    };
    if !adds_data_of(&mut output, 0x7f_fe_fd_fc, &octets, false) {
        return false;
    }
    let mut out = Vec::new(alloc);
    output.put_out(9, &mut out) == Ok(9)
        && out.as_slice() == b"\x01\x02\x03\x00\x00\x7f\xfe\xfd\xfc".as_slice()
        && gives(alloc, &mut output, &octets)
}

// rule: calls (own) Frames join the output that waits, in order
#[test]
fn data_waits_in_its_encoding(rt: HostRuntime) {
    assert!(rt; is_data_given(rt.alloc()) && is_long_data_given(rt.alloc()));
}

// Whether octets, for which room is made, are queued.
fn adds_octets(output: &mut Output, octets: &[u8]) -> bool
    requires up { output.old.ended ≡ false }
    ensures { output.new.ended ≡ false }
{
    if output.reserve(octets.len()).is_err() {
        return false;
    }
    output.add_octets(octets);
    true
}

// Whether HEADERS of stream 1 with END_HEADERS, and then DATA, are queued.
fn are_in_order(alloc: Global) -> bool {
    let Ok(mut output) = Output::new(alloc) else {
        return false;
    };
    let octets = b"\x00\x00\x01\x01\x04\x00\x00\x00\x01\x88\x00\x00\x02\x00\x01\x00\x00\x00\x01ab";
    adds_octets(&mut output, b"\x00\x00\x01\x01\x04\x00\x00\x00\x01\x88")
        && gives_data(alloc, &mut output, b"ab", true, octets)
}

// rule: calls (own) Frames join the output that waits, in order
#[test]
fn what_is_added_follows_what_waits(rt: HostRuntime) {
    assert!(rt; are_in_order(rt.alloc()));
}

// Whether a connection that fails leaves with these octets.
fn leaves_with(alloc: Global, last: u32, code: u32, octets: &[u8]) -> bool {
    let Ok(mut output) = Output::new(alloc) else {
        return false;
    };
    if last >= 1 << 31 {
        return false;
    }
    output.end_with_goaway(last, code);
    gives(alloc, &mut output, octets)
}

// rule: 5.4.1 (own) The GOAWAY of a failed connection goes out last, once, without memory
#[test]
fn a_failed_connection_leaves_with_goaway(rt: HostRuntime) {
    let octets = b"\x00\x00\x08\x07\x00\x00\x00\x00\x00\x7f\xff\xff\xff\xff\xff\xff\xff";
    assert!(rt;
        leaves_with(rt.alloc(), 5, 1, GOAWAY)
            && leaves_with(rt.alloc(), 0x7fff_ffff, 0xffff_ffff, octets)
    );
}

// Whether the next piece of this size is put out, of the queued output.
fn gives_piece(output: &mut Output, size: usize, out: &mut Vec<u8>) -> bool {
    let wait = output.len();
    match output.put_out(size, out) {
        Ok(given) => {
            given == wait.min(size)
                && wait.checked_sub(given) == Some(output.len())
                && 22usize.checked_sub(out.len()) == Some(output.len())
        }
        Err(_) => false,
    }
}

// Whether the queued output, 22 octets, is put out in pieces of this size.
fn gives_pieces(output: &mut Output, size: usize, out: &mut Vec<u8>) -> bool {
    for _ in 0..22 {
        if !gives_piece(output, size, out) {
            return false;
        }
    }
    output.is_empty()
}

// Whether octets and GOAWAY are put out in pieces of this size.
fn is_given_in_pieces(alloc: Global, size: usize) -> bool {
    let octets = b"hello\x00\x00\x08\x07\x00\x00\x00\x00\x00\x00\x00\x00\x05\x00\x00\x00\x01";
    let Ok(mut output) = Output::new(alloc) else {
        return false;
    };
    if !adds_octets(&mut output, b"hello") {
        return false;
    }
    output.end_with_goaway(5, 1);
    let mut out = Vec::new(alloc);
    output.put_out(0, &mut out) == Ok(0)
        && gives_pieces(&mut output, size, &mut out)
        && out.as_slice() == octets.as_slice()
}

// The first size of pieces, over the border between the queue and GOAWAY, for which it isn't so.
fn first_wrong_size(alloc: Global) -> Option<usize> {
    for size in [1, 2, 3, 4, 5, 6, 7, 10, 21, 22, 23, 100] {
        if !is_given_in_pieces(alloc, size) {
            return Some(size);
        }
    }
    None
}

// rule: calls (own) Output is given out in order and once
// rule: 5.4.1 (own) The GOAWAY of a failed connection goes out last, once, without memory
#[test]
fn output_goes_out_in_pieces(rt: HostRuntime) {
    assert_eq!(rt; first_wrong_size(rt.alloc()), None);
}
