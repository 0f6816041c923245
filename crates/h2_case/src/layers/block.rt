//! Field blocks in a stream of frames.
//!
//! - `take FRAME`: what a gatherer, new at the beginning of a case, returns for the frame: `pass`
//!   and the frame; `more`; `block`, its stream, `end` where END_STREAM is set, and its octets; or
//!   the fault with its code. While it is inside a block, a second line has the number of octets
//!   that it holds.
//! - `take COUNT times FRAME`: the answer to the last of `COUNT` frames.
//! - `new`: the gatherer is a new one.
//! - `spread STREAM [end] [most N] OCTETS`: the head of each frame over which a block is spread,
//!   with `N` octets of payload at most, or 16,384, and which of the block's octets its payload
//!   is. What was written before must be unchanged, and the frames must be gathered to the block
//!   again.

use crate::case::{Case, CaseError};
use crate::driver::{Answer, Driver, answers};
use crate::layers::frames::{add_frame, cut_frame, read_frame};
use crate::octets::{
    add_hex, add_last, add_octets, marked, read_octets, split_frame, written_after,
};
use crate::text::Text;
use crate::words::Words;
use h2_block::{Gather, Gathered, spread};
use h2_frame::{FrameRef, write};
use std::alloc::Global;

// The driver of these commands.
#[derive(Drop)]
struct Blocks {
    alloc: Global,
    gather: Gather,
}

// A block, and the greatest payload of its frames.
#[derive(Clone, Copy)]
struct Block<'a> {
    stream: u32,
    end: bool,
    octets: &'a [u8],
    most: usize,
}

// Adds a block.
fn add_block(text: &mut Text, stream: u32, end: bool, octets: &[u8]) {
    text.push_labeled("block ", stream);
    if end {
        text.push_str(" end");
    }
    add_last(text, octets);
}

// Adds the result of a frame.
fn add_taken(gather: &mut Gather, text: &mut Text, frame: FrameRef<'_>) {
    match gather.take(frame) {
        Ok(Gathered::Pass(frame)) => {
            text.push_str("pass ");
            add_frame(text, frame);
        }
        Ok(Gathered::More) => text.push_str("more"),
        Ok(
            Gathered::Block {
                stream,
                end,
                octets,
            },
        ) => add_block(text, stream, end, &octets),
        Err(fault) => {
            text.push_value(fault);
            text.push_labeled(", ", fault.code());
        }
    }
}

// Adds the answer to the last of `count` frames, and the number of octets that the gatherer holds
// then.
fn add_last_taken(gather: &mut Gather, text: &mut Text, count: u32, frame: FrameRef<'_>) {
    for _ in 1..count {
        let _ = gather.take(frame);
    }
    if count > 0 {
        add_taken(gather, text, frame);
    }
    text.push_str("\n");
    if gather.is_inside() {
        text.push_labeled("inside a block, ", gather.held());
        text.push_str(" octets");
    } else if gather.held() > 0 {
        text.push_line("it holds octets outside a block");
    }
}

// The octets of a frame.
fn encoded(alloc: Global, words: &mut Words<'_>) -> Vec<u8> {
    let mut octets = Vec::new(alloc);
    if write(&read_frame(alloc, words), &mut octets).is_err() {
        words.unread();
    }
    octets
}

// Takes a frame, once or `N times`.
fn take(blocks: &mut Blocks, words: &mut Words<'_>, text: &mut Text) {
    let count = words.times();
    let octets = encoded(blocks.alloc, words);
    match cut_frame(&octets) {
        Some((frame, _)) => add_last_taken(&mut blocks.gather, text, count, frame),
        None => words.unread(),
    }
}

// Adds a frame's head, and which of the block's octets its payload is; else the payload itself.
fn add_part(text: &mut Text, head: &[u8; 9], payload: &[u8], block: &[u8], start: usize) {
    let end = start.saturating_add(payload.len());
    add_hex(text, head);
    if block.get(start..end) == Some(payload) {
        text.push_labeled(" octets ", start);
        text.push_labeled(" to ", end);
        text.push_str("\n");
    } else {
        text.push_str(" ");
        add_octets(text, payload);
        text.push_line(", which are none of the block's");
    }
}

// Adds a line for each frame of octets.
fn add_parts(text: &mut Text, octets: &[u8], block: &[u8]) {
    let mut others = octets;
    let mut start = 0usize;
    for _ in 0..16 {
        let Some((head, payload, following)) = split_frame(others) else {
            break;
        };
        add_part(text, head, payload, block, start);
        start = start.saturating_add(payload.len());
        others = following;
    }
    if !others.is_empty() {
        text.push_line("octets that are no frame follow");
    }
}

// Whether a gatherer completes this block with the last of the frames of octets.
fn is_gathered(gather: &mut Gather, octets: &[u8], block: Block<'_>) -> bool {
    let mut others = octets;
    let mut is_last = false;
    for _ in 0..16 {
        let Some((frame, following)) = cut_frame(others) else {
            break;
        };
        is_last = match gather.take(frame) {
            Ok(
                Gathered::Block {
                    stream,
                    end,
                    octets,
                },
            ) => stream == block.stream && end == block.end && octets.as_slice() == block.octets,
            _ => false,
        };
        others = following;
    }
    is_last
}

// Writes the frames over which a block is spread.
fn write_spread(words: &mut Words<'_>, block: Block<'_>, out: &mut Vec<u8>) {
    let (stream, octets) = (block.stream, block.octets);
    if stream < 1 || stream >= 1 << 31 || octets.len() > 65_552 || block.most < 1 {
        words.unread();
    } else if spread(stream, block.end, octets, out, block.most).is_err() {
        words.fail(CaseError::Memory);
    }
}

// Adds the frames over which a block is spread, and whether they are gathered to it again.
fn add_spread(alloc: Global, words: &mut Words<'_>, text: &mut Text) {
    let stream = words.number();
    let end = words.has("end");
    let most = if words.has("most") {
        words.number()
    } else {
        16_384
    };
    let octets = read_octets(alloc, words);
    let block = Block {
        stream,
        end,
        octets: &octets,
        most,
    };
    let mut out = marked(alloc, text);
    write_spread(words, block, &mut out);
    let written = written_after(text, &out);
    add_parts(text, written, block.octets);
    let mut gather = Gather::new(alloc);
    if !is_gathered(&mut gather, written, block) {
        text.push_line("it is gathered otherwise");
    }
}

impl Driver for Blocks {
    fn answer(&mut self, name: &str, words: &mut Words<'_>, text: &mut Text) {
        match name {
            "take" => take(self, words, text),
            "new" => self.gather = Gather::new(self.alloc),
            "spread" => add_spread(self.alloc, words, text),
            _ => words.unread(),
        }
    }
}

/// The answers to a case's commands, up to the first that has none.
pub fn run_case(alloc: Global, case: &Case) -> Vec<Answer> {
    let gather = Gather::new(alloc);
    answers(alloc, case, &mut Blocks { alloc, gather })
}
