//! A cutter and a gatherer: where memory is refused, nothing was used, and the call is made again.

use crate::record::{Record, Scenario, holds};
use h2_block::{BlockFault, Gather, Gathered};
use h2_frame::FrameRef;
use h2_wire::{Cut, Cutter, WireFault};
use std::alloc::Global;

/// A client's preface and SETTINGS, DATA, a frame of an unknown type, and a field block in three
/// frames, each cut in two.
const PIECES: &[&[u8]] = &[
    b"PRI * HTTP",
    b"/2.0\r\n\r\nSM\r\n\r\n\x00\x00\x06\x04",
    b"\x00\x00\x00\x00\x00\x00\x04\x00\x01",
    b"\x00\x00\x00\x00\x0a\x00\x01\x00\x00\x00\x01abcde",
    b"fghij\x00\x00\x03\x20\x00\x00\x00\x00\x01ab",
    b"c\x00\x00\x02\x01\x01\x00\x00\x00\x03",
    b"\x82\x86\x00\x00\x01\x09\x00\x00\x00\x00",
    b"\x03\x84\x00\x00\x0e\x09\x04\x00\x00\x00\x03\x41",
    b"\x8c\xf1\xe3\xc2\xe5\xf2\x3a\x6b\xa0\xab\x90\xf4\xff",
];

/// The block's frames.
const BLOCK: [FrameRef<'static>; 3] = [
    FrameRef::Headers {
        stream: 3,
        end: true,
        whole: false,
        fragment: b"\x82\x86",
        pad: None,
        priority: None,
    },
    FrameRef::Continuation {
        stream: 3,
        whole: false,
        fragment: b"\x84",
    },
    FrameRef::Continuation {
        stream: 3,
        whole: true,
        fragment: b"\x41\x8c\xf1\xe3\xc2\xe5\xf2\x3a\x6b\xa0\xab\x90\xf4\xff",
    },
];

/// Notes a frame that is lent, and returns the number of octets used.
fn note_cut(cut: Cut<'_>, record: &mut Record) -> usize {
    if let Some(frame) = cut.frame {
        record.note(u64::from(frame.kind().number()));
        record.note(u64::from(frame.stream()));
        record.note(u64::try_from(frame.payload_len()).unwrap_or(0));
        if let FrameRef::Data { octets, .. } = frame {
            record.note_octets(octets);
        }
    }
    cut.used
}

/// Cuts a piece, and notes the frame: returns the number of octets used, or the fault.
fn cut_once(cutter: &mut Cutter, piece: &[u8], record: &mut Record) -> Result<usize, WireFault> {
    match cutter.cut(piece) {
        Ok(cut) => Ok(note_cut(cut, record)),
        Err(fault) => Err(fault),
    }
}

/// The same, and once more where memory is refused.
fn cut_twice(cutter: &mut Cutter, piece: &[u8], record: &mut Record) -> usize {
    let before = (cutter.held(), cutter.place(), cutter.is_past_preface());
    let mut used = cut_once(cutter, piece, record);
    if used == Err(WireFault::Memory) {
        record.again();
        let after = (cutter.held(), cutter.place(), cutter.is_past_preface());
        record.check(after == before);
        used = cut_once(cutter, piece, record);
    }
    record.check(used.is_ok());
    record.note(cutter.place());
    record.note(u64::try_from(cutter.held()).unwrap_or(0));
    used.unwrap_or(piece.len())
}

/// Pieces of a stream.
#[derive(Drop)]
struct Pieces;

impl Scenario for Pieces {
    fn run(&mut self, record: &mut Record) {
        let mut cutter = Cutter::new(record.alloc, 16_384, true);
        for piece in PIECES {
            let mut unused = *piece;
            for _ in 0..10 {
                if !unused.is_empty() {
                    let used = cut_twice(&mut cutter, unused, record);
                    unused = unused.get(used..).unwrap_or(b"");
                }
            }
        }
        record.check(cutter.held() == 0 && cutter.place() == 114);
    }
}

/// Takes a frame, and notes what is gathered.
fn take_once(
    gather: &mut Gather,
    frame: FrameRef<'_>,
    record: &mut Record,
) -> Result<(), BlockFault> {
    match gather.take(frame)? {
        Gathered::Pass(_) => record.check(false),
        Gathered::More => record.note(1),
        Gathered::Block {
            stream,
            end,
            octets,
        } => {
            record.note(u64::from(stream));
            record.note(u64::from(end));
            record.note_octets(&octets);
        }
    }
    Ok(())
}

/// The same, and once more where memory is refused.
fn take_twice(gather: &mut Gather, frame: FrameRef<'_>, record: &mut Record) {
    let before = (gather.held(), gather.is_inside());
    let mut taken = take_once(gather, frame, record);
    if taken == Err(BlockFault::Memory) {
        record.again();
        record.check((gather.held(), gather.is_inside()) == before);
        taken = take_once(gather, frame, record);
    }
    record.check(taken.is_ok());
    record.note(u64::try_from(gather.held()).unwrap_or(0));
}

/// The frames of a block, twice.
#[derive(Drop)]
struct Fragments;

impl Scenario for Fragments {
    fn run(&mut self, record: &mut Record) {
        let mut gather = Gather::new(record.alloc);
        for _ in 0..2 {
            for frame in &BLOCK {
                take_twice(&mut gather, *frame, record);
            }
        }
        record.check(gather.held() == 0 && !gather.is_inside());
    }
}

/// Whether a cutter withstands refused memory.
fn cutter_bears(alloc: Global) -> bool {
    holds(alloc, &mut Pieces, &mut Pieces)
}

/// Whether a gatherer does.
fn gatherer_bears(alloc: Global) -> bool {
    holds(alloc, &mut Fragments, &mut Fragments)
}

#[test]
fn cutter_of_frames(rt: HostRuntime) {
    assert!(rt; cutter_bears(rt.alloc()));
}

#[test]
fn gatherer_of_a_block(rt: HostRuntime) {
    assert!(rt; gatherer_bears(rt.alloc()));
}
