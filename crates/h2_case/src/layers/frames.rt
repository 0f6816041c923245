//! Frames in commands and in answers, a line each:
//!
//! - `DATA STREAM [end] [pad:COUNT] OCTETS`
//! - `HEADERS STREAM [end] [whole] [pad:COUNT] [priority:OCTETS] OCTETS`
//! - `PRIORITY STREAM OCTETS`
//! - `RST_STREAM STREAM CODE`
//! - `SETTINGS [ack] ID=VALUE ..`
//! - `PING [ack] OCTETS`
//! - `GOAWAY LAST CODE OCTETS`
//! - `WINDOW_UPDATE STREAM INCREMENT`
//! - `CONTINUATION STREAM [whole] OCTETS`
//! - `UNKNOWN KIND FLAGS STREAM OCTETS`
//!
//! `end` is END_STREAM, `whole` is END_HEADERS, numbers are decimal, and octets are as
//! [`read_octets`] reads them, or left out where there are none.

use crate::case::CaseError;
use crate::octets::{add_hex, add_last, append_octets, read_octets, split_frame};
use crate::text::Text;
use crate::words::Words;
use h2_frame::{Frame, FrameRef, head, head_fault, read_payload};
use std::alloc::Global;

/// The frame of the words that are left.
pub(crate) fn read_frame(alloc: Global, words: &mut Words<'_>) -> Frame {
    match words.word() {
        "DATA" => Frame::Data {
            stream: words.number(),
            end: words.has("end"),
            pad: read_pad(words),
            octets: read_octets(alloc, words),
        },
        "HEADERS" => Frame::Headers {
            stream: words.number(),
            end: words.has("end"),
            whole: words.has("whole"),
            pad: read_pad(words),
            priority: read_priority(alloc, words),
            fragment: read_octets(alloc, words),
        },
        "CONTINUATION" => Frame::Continuation {
            stream: words.number(),
            whole: words.has("whole"),
            fragment: read_octets(alloc, words),
        },
        "SETTINGS" => Frame::Settings {
            ack: words.has("ack"),
            pairs: read_pairs(alloc, words),
        },
        kind => read_other(alloc, words, kind),
    }
}

// The frame of this kind and of the words that are left.
fn read_other(alloc: Global, words: &mut Words<'_>, kind: &str) -> Frame {
    match kind {
        "PRIORITY" => Frame::Priority {
            stream: words.number(),
            octets: read_exactly(alloc, words),
        },
        "PING" => Frame::Ping {
            ack: words.has("ack"),
            octets: read_exactly(alloc, words),
        },
        "GOAWAY" => Frame::GoAway {
            last: words.number(),
            code: words.number(),
            debug: read_octets(alloc, words),
        },
        "WINDOW_UPDATE" => Frame::WindowUpdate {
            stream: words.number(),
            increment: words.number(),
        },
        "UNKNOWN" => Frame::Unknown {
            kind: words.number(),
            flags: words.number(),
            stream: words.number(),
            payload: read_octets(alloc, words),
        },
        "RST_STREAM" => Frame::Reset {
            stream: words.number(),
            code: words.number(),
        },
        _ => {
            words.unread();
            Frame::Reset { stream: 0, code: 0 }
        }
    }
}

// The end of the next word, where it begins so; the word is used then.
fn read_tagged<'a>(words: &mut Words<'a>, tag: &str) -> Option<&'a str> {
    let mut others = *words;
    let found = others.next_or_empty().strip_prefix(tag);
    if found.is_some() {
        *words = others;
    }
    found
}

// The length of the padding, where that is the next word.
fn read_pad(words: &mut Words<'_>) -> Option<u8> {
    match read_tagged(words, "pad:") {
        Some(pad) => Some(words.parse(pad)),
        None => None,
    }
}

// The five octets of a priority, where that is the next word.
fn read_priority(alloc: Global, words: &mut Words<'_>) -> Option<[u8; 5]> {
    match read_tagged(words, "priority:") {
        Some(text) => {
            let mut octets = Vec::new(alloc);
            append_octets(alloc, &mut octets, words, text);
            Some(array_of(words, &octets))
        }
        None => None,
    }
}

// All octets that are left, which must be `N`.
fn read_exactly<const N: usize>(alloc: Global, words: &mut Words<'_>) -> [u8; N] {
    let octets = read_octets(alloc, words);
    array_of(words, &octets)
}

// Octets as an array of their number.
fn array_of<const N: usize>(words: &mut Words<'_>, octets: &[u8]) -> [u8; N] {
    match octets.first_chunk::<N>() {
        Some(array) if octets.len() == N => *array,
        _ => {
            words.unread();
            [0; N]
        }
    }
}

// The pairs `ID=VALUE` that are left.
fn read_pairs(alloc: Global, words: &mut Words<'_>) -> Vec<(u16, u32)> {
    let mut pairs = Vec::new(alloc);
    for _ in 0..100 {
        if words.is_empty() {
            break;
        }
        let (id, value) = words.word().split_once('=').unwrap_or(("", ""));
        let pair = (words.parse(id), words.parse(value));
        if pairs.push(pair).is_err() {
            words.fail(CaseError::Memory);
        }
    }
    pairs
}

// Adds a word where it is said.
fn add_word(text: &mut Text, is_said: bool, word: &str) {
    if is_said {
        text.push_str(word);
    }
}

// Adds the length of the padding.
fn add_pad(text: &mut Text, pad: Option<u8>) {
    if let Some(pad) = pad {
        text.push_labeled(" pad:", pad);
    }
}

// Adds the octets of a priority.
fn add_priority(text: &mut Text, priority: Option<[u8; 5]>) {
    if let Some(octets) = priority {
        text.push_str(" priority:");
        add_hex(text, &octets);
    }
}

/// Adds a frame, as [`read_frame`] reads it; the line isn't ended.
pub(crate) fn add_frame(text: &mut Text, frame: FrameRef<'_>) {
    match frame {
        FrameRef::Data {
            stream,
            end,
            octets,
            pad,
        } => {
            text.push_labeled("DATA ", stream);
            add_word(text, end, " end");
            add_pad(text, pad);
            add_last(text, octets);
        }
        FrameRef::Headers {
            stream,
            end,
            whole,
            fragment,
            pad,
            priority,
        } => {
            text.push_labeled("HEADERS ", stream);
            add_word(text, end, " end");
            add_word(text, whole, " whole");
            add_pad(text, pad);
            add_priority(text, priority);
            add_last(text, fragment);
        }
        _ => add_other(text, frame),
    }
}

// Adds a frame that is neither DATA nor HEADERS.
fn add_other(text: &mut Text, frame: FrameRef<'_>) {
    match frame {
        FrameRef::Continuation {
            stream,
            whole,
            fragment,
        } => {
            text.push_labeled("CONTINUATION ", stream);
            add_word(text, whole, " whole");
            add_last(text, fragment);
        }
        FrameRef::Settings { ack, pairs } => {
            text.push_str("SETTINGS");
            add_word(text, ack, " ack");
            for (id, value) in pairs.iter() {
                text.push_labeled(" ", id);
                text.push_labeled("=", value);
            }
        }
        FrameRef::Unknown {
            kind,
            flags,
            stream,
            payload,
        } => {
            text.push_labeled("UNKNOWN ", kind);
            text.push_labeled(" ", flags);
            text.push_labeled(" ", stream);
            add_last(text, payload);
        }
        _ => add_small(text, frame),
    }
}

// Adds a frame whose payload has a length of its own, or GOAWAY.
fn add_small(text: &mut Text, frame: FrameRef<'_>) {
    match frame {
        FrameRef::Ping { ack, octets } => {
            text.push_str("PING");
            add_word(text, ack, " ack");
            add_last(text, &octets);
        }
        FrameRef::GoAway { last, code, debug } => {
            text.push_labeled("GOAWAY ", last);
            text.push_labeled(" ", code);
            add_last(text, debug);
        }
        FrameRef::Priority { stream, octets } => {
            text.push_labeled("PRIORITY ", stream);
            add_last(text, &octets);
        }
        FrameRef::Reset { stream, code } => {
            text.push_labeled("RST_STREAM ", stream);
            text.push_labeled(" ", code);
        }
        FrameRef::WindowUpdate { stream, increment } => {
            text.push_labeled("WINDOW_UPDATE ", stream);
            text.push_labeled(" ", increment);
        }
        _ => {}
    }
}

/// The frame with which octets begin, and what follows it; none where they begin with none.
pub(crate) fn cut_frame(octets: &[u8]) -> Option<(FrameRef<'_>, &[u8])> {
    let (nine, payload, following) = split_frame(octets)?;
    let read = head(nine);
    if head_fault(&read, 0xff_ffff).is_some() || payload.len() != read.length as usize {
        return None;
    }
    let frame = read_payload(&read, payload).ok()?;
    Some((frame, following))
}
