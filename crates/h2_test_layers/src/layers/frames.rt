//! The longest frame, and one that is longer.

use h2_frame::{Frame, Unwritable, write};
use std::alloc::Global;

// A frame of an unknown type, whose payload is `count` zeros; `None` where memory was refused.
fn unknown(alloc: Global, kind: u8, stream: u32, count: usize) -> Option<Frame> {
    match vec![in alloc; 0; count] {
        Ok(payload) => Some(Frame::Unknown {
            kind,
            flags: 0,
            stream,
            payload,
        }),
        Err(_) => None,
    }
}

// Whether the longest frame is written.
fn longest_is_written(alloc: Global) -> bool {
    let Some(longest) = unknown(alloc, 10, 0, 0xff_ffff) else {
        return false;
    };
    let mut out = Vec::new(alloc);
    write(&longest, &mut out).is_ok()
        && out.len() == 9 + 0xff_ffff
        && out.starts_with(b"\xff\xff\xff\x0a\x00\x00\x00\x00\x00")
}

// rule: 4.2 No payload above 16,777,215 octets is written
#[test]
fn the_longest_frame_is_written(rt: HostRuntime) {
    assert!(rt; longest_is_written(rt.alloc()));
}

// Whether a longer frame is refused, and what is there is unchanged.
fn longer_is_refused(alloc: Global) -> bool {
    let Some(longer) = unknown(alloc, 4, 0x8000_0000, 0x100_0000) else {
        return false;
    };
    let Ok(mut out) = Vec::from_slice(alloc, b"\x07") else {
        return false;
    };
    write(&longer, &mut out) == Err(Unwritable::TooLong) && out.as_slice() == [7].as_slice()
}

// rule: 4.1 (own) A frame is refused for length, stream, values, memory, in order
// rule: 4.1 (own) A refused frame leaves the output as it was
// rule (best): 4.2 No payload above 16,777,215 octets is written
/// The length comes before the stream and the kind, which are at fault as well.
#[test]
fn a_longer_frame_is_refused(rt: HostRuntime) {
    assert!(rt; longer_is_refused(rt.alloc()));
}
