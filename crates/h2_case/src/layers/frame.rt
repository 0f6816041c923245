//! Frames: heads, payloads and writing.
//!
//! - `head OCTETS`: the kind, flags, stream and length that nine octets say.
//! - `head_fault KIND FLAGS STREAM LENGTH`: the code of the fault of such a head, where payloads
//!   may have 16,384 octets; or `none`.
//! - `kinds NUMBERS`: a line for each number of a kind: the kind, and the number again.
//! - `codes NUMBERS`: a line for each number of a code: its name, or `none`.
//! - `read OCTETS`: the frame that the octets are, whose payload may have 16,384 octets; or its
//!   fault. The frame must have the kind, the stream and the length of its head.
//! - `write FRAME`: the head and the payload of the frame's encoding; or why it is refused. What
//!   was written before must be unchanged, the encoding must be read as the frame again, and the
//!   frame as it was read, whose payload is lent, must have the same encoding.

use crate::case::Case;
use crate::driver::{Answer, Driver, answers};
use crate::layers::frames::{add_frame, cut_frame, read_frame};
use crate::octets::{add_frames, marked, read_octets, written_after};
use crate::text::Text;
use crate::words::Words;
use h2_frame::{
    Code, FrameRef, Head, HeadFault, Kind, Unwritable, head, head_fault, pad_length, payload_frame,
    read_payload, write, write_ref,
};
use std::alloc::Global;

/// The most octets of a payload that is read.
const LIMIT: u32 = 16_384;

// The driver of these commands.
#[derive(Drop)]
struct Frames {
    alloc: Global,
}

// Adds what nine octets say.
fn add_head(alloc: Global, words: &mut Words<'_>, text: &mut Text) {
    let octets = read_octets(alloc, words);
    match octets.first_chunk::<9>() {
        Some(nine) => {
            let read = head(nine);
            write!(text, "{:?}", read.kind);
            text.push_labeled(" flags ", read.flags);
            text.push_labeled(" stream ", read.stream);
            text.push_labeled(" length ", read.length);
        }
        None => words.unread(),
    }
}

// Adds the code of a head's fault.
fn add_head_fault(words: &mut Words<'_>, text: &mut Text) {
    let kind = Kind::from_number(words.number());
    let flags = words.number();
    let stream = words.number();
    let length = words.number();
    let read = Head {
        length,
        kind,
        flags,
        stream,
    };
    add_code(text, head_fault(&read, LIMIT).map(HeadFault::code));
}

// Adds the name of a code.
fn add_code(text: &mut Text, code: Option<Code>) {
    match code {
        Some(code) => text.push_value(code),
        None => text.push_str("none"),
    }
}

// Adds a line for each number of a kind.
fn add_kinds(words: &mut Words<'_>, text: &mut Text) {
    for _ in 0..256 {
        if words.is_empty() {
            break;
        }
        let kind = Kind::from_number(words.number());
        write!(text, "{kind:?} {}\n", kind.number());
    }
}

// Adds the line of the number of a code.
fn add_code_line(alloc: Global, text: &mut Text, number: u32) {
    let code = Code::from_number(number);
    let mut line = Text::new(alloc);
    add_code(&mut line, code);
    text.push_text(&line);
    text.push_str("\n");
    match code {
        Some(code) if code.number() != number || code.name() != line.as_str() => {
            text.push_line("another number or name");
        }
        _ => {}
    }
}

// Adds a line for each number of a code.
fn add_codes(alloc: Global, words: &mut Words<'_>, text: &mut Text) {
    for _ in 0..256 {
        if words.is_empty() {
            break;
        }
        add_code_line(alloc, text, words.number());
    }
}

// Whether a frame has the kind, the stream and the length of its head.
fn is_as_its_head(frame: FrameRef<'_>, read: &Head) -> bool {
    frame.kind() == read.kind
        && frame.stream() == read.stream
        && frame.payload_len() == read.length as usize
}

// Whether the fault of a payload is said by itself, and without one the frame is read.
fn is_read_alike(read: &Head, payload: &[u8], frame: Option<FrameRef<'_>>) -> bool {
    if head_fault(read, LIMIT).is_some() || payload.len() != read.length as usize {
        return false;
    }
    match (pad_length(read, payload), frame) {
        (Err(_), None) => true,
        (Ok(pad), Some(frame)) => payload_frame(read, pad, payload) == frame,
        _ => false,
    }
}

// Adds a frame that was read.
fn add_read_frame(text: &mut Text, read: &Head, frame: FrameRef<'_>) {
    add_frame(text, frame);
    if !is_as_its_head(frame, read) {
        text.push_str("\nanother kind, stream or length than its head's");
    }
}

// Adds the frame of a payload, or its fault.
fn add_payload(text: &mut Text, words: &mut Words<'_>, read: &Head, payload: &[u8]) {
    if let Some(fault) = head_fault(read, LIMIT) {
        text.push_labeled("fault of a head: ", fault.code());
        return;
    }
    if payload.len() != read.length as usize {
        words.unread();
        return;
    }
    let found = read_payload(read, payload);
    match found {
        Ok(frame) => add_read_frame(text, read, frame),
        Err(error) => text.push_value(error),
    }
    if !is_read_alike(read, payload, found.ok()) {
        text.push_str("\nanother fault or frame where both are asked for");
    }
}

// Adds what the octets of a frame are read as.
fn add_read(alloc: Global, words: &mut Words<'_>, text: &mut Text) {
    let octets = read_octets(alloc, words);
    match octets.split_first_chunk::<9>() {
        Some((nine, payload)) => add_payload(text, words, &head(nine), payload),
        None => words.unread(),
    }
}

// Whether octets are read as the frame of a line, and it is written as them again.
fn is_read_again(alloc: Global, octets: &[u8], line: &str) -> bool {
    let (mut text, mut out) = (Text::new(alloc), Vec::new(alloc));
    match cut_frame(octets) {
        Some((frame, [])) => {
            add_frame(&mut text, frame);
            let is_written = write_ref(frame, &mut out).is_ok();
            is_written && out.as_slice() == octets && text.as_str() == line
        }
        _ => false,
    }
}

// Adds what the frame of a line was written as, after an octet.
fn add_written(
    alloc: Global,
    text: &mut Text,
    line: &str,
    written: Result<(), Unwritable>,
    out: &[u8],
) {
    let octets = written_after(text, out);
    add_frames(text, octets);
    match written {
        Ok(()) if is_read_again(alloc, octets, line) => {}
        Ok(()) => text.push_line("it is read or written again otherwise"),
        Err(error) => text.push_value(error),
    }
}

// Writes a frame.
fn write_frame(alloc: Global, words: &mut Words<'_>, text: &mut Text) {
    let mut others = *words;
    let frame = read_frame(alloc, words);
    let mut out = marked(alloc, text);
    let written = write(&frame, &mut out);
    add_written(alloc, text, others.rest(), written, &out);
}

impl Driver for Frames {
    fn answer(&mut self, name: &str, words: &mut Words<'_>, text: &mut Text) {
        match name {
            "head" => add_head(self.alloc, words, text),
            "head_fault" => add_head_fault(words, text),
            "kinds" => add_kinds(words, text),
            "codes" => add_codes(self.alloc, words, text),
            "read" => add_read(self.alloc, words, text),
            "write" => write_frame(self.alloc, words, text),
            _ => words.unread(),
        }
    }
}

/// The answers to a case's commands, up to the first that has none.
pub fn run_case(alloc: Global, case: &Case) -> Vec<Answer> {
    answers(alloc, case, &mut Frames { alloc })
}
