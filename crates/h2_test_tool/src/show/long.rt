//! A stream of a server, too long for a case that cuts it in two at many places.

use crate::devices::Halves;
use h2_cli::{Failure, Status};
use h2_show::{ShowOptions, Side, Style, show_input};
use std::alloc::{AllocError, Global};
use std::io::Write;

/// Appends a frame on stream 1.
fn append_frame(
    stream: &mut Vec<u8>,
    kind: u8,
    flags: u8,
    payload: &[u8],
) -> Result<(), AllocError> {
    let Ok(length) = u32::try_from(payload.len()) else {
        return Ok(());
    };
    let [_, high, middle, low] = length.to_be_bytes();
    stream.extend_from_slice(&[high, middle, low, kind, flags, 0, 0, 0, 1])?;
    stream.extend_from_slice(payload)?;
    Ok(())
}

/// How a stream ends that comes in two pieces.
fn show<W: Write>(
    alloc: Global,
    stream: &[u8],
    place: usize,
    out: &mut W,
) -> Result<Status, Failure> {
    let options = ShowOptions {
        hex: false,
        from: Side::Server,
        max_frame: 16_384,
        style: Style::Plain,
    };
    let shown = show_input(alloc, options, &mut Halves::new(stream, place), out)?;
    Ok(shown.status)
}

/// HEADERS and three CONTINUATIONs, each full, and a CONTINUATION of 17 octets.
fn long_block(alloc: Global) -> Result<Vec<u8>, AllocError> {
    let payload = vec![in alloc; 0x82u8; 16_384]?;
    let mut stream = Vec::new(alloc);
    append_frame(&mut stream, 1, 0, &payload)?;
    for _ in 0..3 {
        append_frame(&mut stream, 9, 0, &payload)?;
    }
    append_frame(&mut stream, 9, 0, &[0x82; 17])?;
    Ok(stream)
}

const LINES_OF_LONG_BLOCK: &[u8] = b"HEADERS 1 16384\nCONTINUATION 1 16384\n\
    CONTINUATION 1 16384\nCONTINUATION 1 16384\nfault ENHANCE_YOUR_CALM at 65598\n";

/// Whether the block is at fault at its last octet, however it is cut.
fn is_at_fault(alloc: Global, stream: &[u8], place: usize) -> bool {
    let mut out = Vec::new(alloc);
    let ended = show(alloc, stream, place, &mut out);
    ended == Ok(Status::Fault) && out.as_slice() == LINES_OF_LONG_BLOCK
}

/// The octets of a full frame.
const FRAME: usize = 16_393;

// It is cut at each place near the head of a frame, and at each 1,021st place.
#[test]
fn longer_block_cut_in_two(rt: HostRuntime) -> Result<(), AllocError> {
    let stream = long_block(rt.alloc())?;
    for place in 1..stream.len() {
        let in_frame = place % FRAME;
        if in_frame < 12 || in_frame > FRAME - 3 || place % 1_021 == 0 {
            assert!(rt; is_at_fault(rt.alloc(), &stream, place), "{place}");
        }
    }
    Ok(())
}
