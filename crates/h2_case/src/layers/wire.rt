//! Streams of frames, cut.
//!
//! - `cut client LIMIT OCTETS`, `cut server LIMIT OCTETS`: a line for each frame of a stream from
//!   that end, whose payloads may have `LIMIT` octets; `in the preface`, where the client's isn't
//!   complete; the number of unparsed octets, and the place in the stream; and the fault with its
//!   code, if there is one. The stream is cut in one piece, one octet a piece, and in two at each
//!   place; a long one 1,000 octets a piece, and in two at the first and the last 12 places. Where
//!   the answers differ, and where a fault isn't returned again, that is said.
//! - `cut server LIMIT then LIMIT after N OCTETS`, and so of a client: the limit is the second one
//!   after `N` octets.

use crate::case::Case;
use crate::driver::{Answer, Driver, answers};
use crate::layers::frames::add_frame;
use crate::octets::read_octets;
use crate::text::Text;
use crate::words::Words;
use h2_wire::{Cutter, WireFault};
use std::alloc::Global;

/// A stream of more octets than this is long.
const LONG: usize = 512;

/// The number of places at each of its ends where a long one is cut in two.
const ENDS: usize = 12;

// The driver of these commands.
#[derive(Drop)]
struct Streams {
    alloc: Global,
}

/// A stream.
#[derive(Clone, Copy)]
struct Stream<'a> {
    octets: &'a [u8],
    limit: u32,
    client: bool,
    change: Option<Change>,
}

/// Another limit, which is set after `place` octets.
#[derive(Clone, Copy)]
struct Change {
    limit: u32,
    place: usize,
}

// Cuts a piece, and adds the lines of its frames; the fault, where there is one.
fn feed(cutter: &mut Cutter, text: &mut Text, piece: &[u8]) -> Option<WireFault> {
    let mut done = 0usize;
    for _ in 0..piece.len() {
        if done >= piece.len() {
            break;
        }
        match cutter.cut(&piece[done..]) {
            Ok(cut) => {
                done = done.saturating_add(cut.used);
                if let Some(frame) = cut.frame {
                    add_frame(text, frame);
                    text.push_str("\n");
                }
            }
            Err(fault) => return Some(fault),
        }
    }
    None
}

// The octets of a stream between two places.
fn between<'a>(stream: Stream<'a>, start: usize, end: usize) -> &'a [u8] {
    stream.octets.get(start..end).unwrap_or(&[])
}

// Cuts the octets of a stream between two places, and sets the other limit at its place.
fn feed_part(
    cutter: &mut Cutter,
    text: &mut Text,
    stream: Stream<'_>,
    start: usize,
    end: usize,
) -> Option<WireFault> {
    let Some(change) = stream.change else {
        return feed(cutter, text, between(stream, start, end));
    };
    if change.place < start || change.place >= end {
        return feed(cutter, text, between(stream, start, end));
    }
    let fault = feed(cutter, text, between(stream, start, change.place));
    cutter.set_limit(change.limit);
    if fault.is_some() {
        return fault;
    }
    feed(cutter, text, between(stream, change.place, end))
}

// Whether a fault is returned again, whatever follows, and the place stays.
fn is_again(cutter: &mut Cutter, fault: WireFault) -> bool {
    let place = cutter.place();
    cutter.cut(b"\x00").err() == Some(fault)
        && cutter.cut(b"").err() == Some(fault)
        && cutter.place() == place
}

// Adds what there is at the end of the pieces.
fn add_end(cutter: &mut Cutter, text: &mut Text, fault: Option<WireFault>) {
    if !cutter.is_past_preface() {
        text.push_line("in the preface");
    }
    text.push_value(cutter.held());
    text.push_labeled(" unparsed, place ", cutter.place());
    text.push_str("\n");
    if let Some(fault) = fault {
        text.push_value(fault);
        text.push_labeled(", ", fault.code());
        text.push_str("\n");
        if !is_again(cutter, fault) {
            text.push_line("another answer after the fault");
        }
    }
}

// The result of a stream that is cut in two at a place.
fn in_two(alloc: Global, stream: Stream<'_>, at: usize) -> Text {
    let mut text = Text::new(alloc);
    let mut cutter = Cutter::new(alloc, stream.limit, stream.client);
    let len = stream.octets.len();
    let at = at.min(len);
    let mut fault = feed_part(&mut cutter, &mut text, stream, 0, at);
    if fault.is_none() {
        fault = feed_part(&mut cutter, &mut text, stream, at, len);
    }
    add_end(&mut cutter, &mut text, fault);
    text
}

// Cuts a stream in pieces of at most `most` octets.
fn feed_pieces(
    cutter: &mut Cutter,
    text: &mut Text,
    stream: Stream<'_>,
    most: usize,
) -> Option<WireFault> {
    let len = stream.octets.len();
    let mut start = 0usize;
    for _ in 0..len {
        let end = start.saturating_add(most).min(len);
        let fault = feed_part(cutter, text, stream, start, end);
        if fault.is_some() || end == len {
            return fault;
        }
        start = end;
    }
    None
}

// The result of a stream in pieces of at most `most` octets.
fn in_pieces(alloc: Global, stream: Stream<'_>, most: usize) -> Text {
    let mut text = Text::new(alloc);
    let mut cutter = Cutter::new(alloc, stream.limit, stream.client);
    let fault = feed_pieces(&mut cutter, &mut text, stream, most);
    add_end(&mut cutter, &mut text, fault);
    text
}

// Whether the result is the same where the stream is cut in two at a place.
fn is_same_in_two(alloc: Global, stream: Stream<'_>, at: usize, whole: &str) -> bool {
    in_two(alloc, stream, at).as_str() == whole
}

// Whether a stream is cut in two at a place.
fn is_cut_at(at: usize, len: usize) -> bool {
    len <= LONG || at < ENDS || len.saturating_sub(at) < ENDS
}

// Adds where the result of a stream differs in pieces.
fn add_differences(alloc: Global, text: &mut Text, stream: Stream<'_>, whole: &str) {
    let len = stream.octets.len();
    let most = if len <= LONG { 1 } else { 1_000 };
    if in_pieces(alloc, stream, most).as_str() != whole {
        text.push_labeled("another answer to pieces of ", most);
        text.push_str("\n");
    }
    for at in 0..=len {
        if is_cut_at(at, len) && !is_same_in_two(alloc, stream, at, whole) {
            text.push_labeled("another answer in two at ", at);
            text.push_str("\n");
        }
    }
}

// The limit that is set later, if the words say so.
fn read_change(words: &mut Words<'_>) -> Option<Change> {
    if !words.has("then") {
        return None;
    }
    let limit = words.number();
    words.expect("after");
    Some(Change {
        limit,
        place: words.number(),
    })
}

// Adds the result of a stream, and where it differs in pieces.
fn add_cut(alloc: Global, words: &mut Words<'_>, text: &mut Text) {
    let client = words.has("client");
    if !client {
        words.expect("server");
    }
    let limit = words.number();
    let change = read_change(words);
    let octets = read_octets(alloc, words);
    let stream = Stream {
        octets: &octets,
        limit,
        client,
        change,
    };
    let whole = in_two(alloc, stream, 0);
    text.push_text(&whole);
    add_differences(alloc, text, stream, whole.as_str());
}

impl Driver for Streams {
    fn answer(&mut self, name: &str, words: &mut Words<'_>, text: &mut Text) {
        match name {
            "cut" => add_cut(self.alloc, words, text),
            _ => words.unread(),
        }
    }
}

/// The answers to a case's commands, up to the first that has none.
pub fn run_case(alloc: Global, case: &Case) -> Vec<Answer> {
    answers(alloc, case, &mut Streams { alloc })
}
