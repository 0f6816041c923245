//! Frames lent: from the piece where they are complete in it, and else from the cutter.

use h2_frame::FrameRef;
use h2_wire::Cutter;
use std::alloc::Global;

// DATA on stream 1 with its end, then PING.
const FRAMES: &[u8] =
    b"\x00\x00\x03\x00\x01\x00\x00\x00\x01abc\x00\x00\x08\x06\x00\x00\x00\x00\x0012345678";

// The first of the frames.
const DATA: FrameRef<'static> = FrameRef::Data {
    stream: 1,
    end: true,
    octets: b"abc",
    pad: None,
};

// The second.
const PING: FrameRef<'static> = FrameRef::Ping {
    ack: false,
    octets: *b"12345678",
};

// Whether the next piece of a stream completes the frame, which is lent twice.
fn completes(cutter: &mut Cutter, piece: &[u8], frame: FrameRef<'_>) -> bool {
    match cutter.advance(piece) {
        Ok(advance) => match advance.frame {
            Some(complete) => {
                let lent = cutter.frame(piece, complete);
                lent == frame && cutter.frame(piece, complete) == lent
            }
            None => false,
        },
        Err(_) => false,
    }
}

// Whether the next piece of a stream completes no frame.
fn goes_on(cutter: &mut Cutter, piece: &[u8]) -> bool {
    match cutter.advance(piece) {
        Ok(advance) => advance.frame.is_none() && advance.used == piece.len(),
        Err(_) => false,
    }
}

// Whether two frames of a piece are lent from it.
fn are_lent(alloc: Global) -> bool {
    let mut cutter = Cutter::new(alloc, 16384, false);
    completes(&mut cutter, FRAMES, DATA)
        && completes(&mut cutter, FRAMES.get(12..).unwrap_or(b""), PING)
        && cutter.place() == 29
}

// rule: 4.1 (own) A frame whole in its piece is lent from there and takes no memory
#[test]
fn two_frames_of_a_piece_are_lent_from_it(rt: HostRuntime) {
    assert!(rt; are_lent(rt.alloc()));
}

// Whether a frame after the preface is lent, with which 36 octets of the piece are used.
fn is_lent_after_the_preface(alloc: Global) -> bool {
    let mut cutter = Cutter::new(alloc, 16384, true);
    let piece = b"PRI * HTTP/2.0\r\n\r\nSM\r\n\r\n\x00\x00\x03\x00\x01\x00\x00\x00\x01abc\x00";
    match cutter.cut(piece) {
        Ok(cut) => match cut.frame {
            Some(frame) => cut.used == 36 && frame == DATA,
            None => false,
        },
        Err(_) => false,
    }
}

// rule: 4.1 (own) A frame whole in its piece is lent from there and takes no memory
#[test]
fn a_frame_after_the_preface_is_lent_from_its_piece(rt: HostRuntime) {
    assert!(rt; is_lent_after_the_preface(rt.alloc()));
}

// Whether a frame that is cut in two is kept, and the next is lent from its piece.
fn is_kept(alloc: Global, at: usize) -> bool {
    let mut cutter = Cutter::new(alloc, 16384, false);
    let (Some(begun), Some(others)) = (FRAMES.get(..at), FRAMES.get(at..)) else {
        return false;
    };
    goes_on(&mut cutter, begun)
        && completes(&mut cutter, others, DATA)
        && completes(&mut cutter, FRAMES.get(12..).unwrap_or(b""), PING)
}

// The first place at which it isn't so.
fn first_not_kept(alloc: Global) -> Option<usize> {
    for at in 0..12 {
        if !is_kept(alloc, at) {
            return Some(at);
        }
    }
    None
}

// rule: 4.1 (own) A frame that is cut in two is kept until the next call
#[test]
fn a_frame_cut_in_two_is_kept_and_the_next_is_lent_from_its_piece(rt: HostRuntime) {
    assert_eq!(rt; first_not_kept(rt.alloc()), None);
}
