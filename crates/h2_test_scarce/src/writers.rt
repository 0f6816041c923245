//! What writes octets: where memory is refused, the output is unchanged.

use crate::record::{Record, Scenario, holds};
use h2_block::{BlockFault, spread};
use h2_frame::{Frame, FrameRef, Unwritable, write, write_ref};
use hpack_text::{TextFault, huff_write, write_int, write_string};
use std::alloc::{AllocError, Global};

/// What is written.
#[derive(Clone, Copy)]
enum Writing {
    Frame,
    LentFrame,
    Integer,
    Text,
    Huffman,
    Block,
}

/// All of it.
const ALL: [Writing; 6] = [
    Writing::Frame,
    Writing::LentFrame,
    Writing::Integer,
    Writing::Text,
    Writing::Huffman,
    Writing::Block,
];

/// A text.
const TEXT: &[u8] = b"www.example.com";

/// Whether memory was refused to a text.
fn text_lacks(answered: Result<(), TextFault>) -> Option<bool> {
    match answered {
        Ok(()) => Some(false),
        Err(TextFault::Memory) => Some(true),
        Err(_) => None,
    }
}

/// Whether it was to a frame.
fn frame_lacks(answered: Result<(), Unwritable>) -> Option<bool> {
    match answered {
        Ok(()) => Some(false),
        Err(Unwritable::Memory) => Some(true),
        Err(_) => None,
    }
}

/// Whether it was to a block of these octets, which are not too many.
fn block_lacks(octets: &[u8], out: &mut Vec<u8>) -> Option<bool> {
    if octets.len() > 65_552 {
        return None;
    }
    match spread(1, true, octets, out, 16_384) {
        Ok(()) => Some(false),
        Err(BlockFault::Memory) => Some(true),
        Err(_) => None,
    }
}

/// Writes, and says whether memory was refused; nothing where there was another fault.
fn lacks_memory(writing: Writing, frame: &Frame, out: &mut Vec<u8>) -> Option<bool> {
    match writing {
        Writing::Frame => frame_lacks(write(frame, out)),
        Writing::LentFrame => frame_lacks(write_ref(
            FrameRef::Data {
                stream: 1,
                end: true,
                octets: TEXT,
                pad: Some(3),
            },
            out,
        )),
        Writing::Integer => text_lacks(write_int(5, 0, 1_337, out)),
        Writing::Text => text_lacks(write_string(TEXT, out)),
        Writing::Huffman => text_lacks(huff_write(TEXT, out)),
        Writing::Block => block_lacks(TEXT, out),
    }
}

/// What an output has before it is written to.
const BEFORE: &[u8] = b"abc";

/// Writers, each with an output that has no room.
#[derive(Drop)]
struct Writers {
    frame: Frame,
    outs: Vec<Vec<u8>>,
}

impl Scenario for Writers {
    fn run(&mut self, record: &mut Record) {
        for (writing, out) in ALL.iter().zip(self.outs.iter_mut()) {
            let mut lacks = lacks_memory(*writing, &self.frame, out);
            if lacks == Some(true) {
                record.again();
                record.check(out.as_slice() == BEFORE);
                lacks = lacks_memory(*writing, &self.frame, out);
            }
            record.check(lacks == Some(false));
            record.put_out(out);
        }
    }
}

/// Writers with an output each.
fn new_writers(alloc: Global) -> Result<Writers, AllocError> {
    let mut outs = Vec::new(alloc);
    for _ in ALL {
        let mut out = Vec::with_capacity(alloc, BEFORE.len())?;
        out.extend_from_slice(BEFORE)?;
        outs.push(out)?;
    }
    let frame = Frame::GoAway {
        last: 1,
        code: 2,
        debug: Vec::from_slice(alloc, TEXT)?,
    };
    Ok(Writers { frame, outs })
}

/// Whether writers withstand refused memory.
fn bear(alloc: Global) -> Result<bool, AllocError> {
    Ok(holds(alloc, &mut new_writers(alloc)?, &mut new_writers(alloc)?))
}

#[test]
fn writers_of_octets(rt: HostRuntime) {
    assert!(rt; bear(rt.alloc()).unwrap_or(false));
}
