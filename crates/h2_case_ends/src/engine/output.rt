//! The octets that an engine has written.

use h2_case::octets::{add_frames, add_hex, add_octets, split_frame};
use h2_case::text::Text;
use h2_case::words::Words;
use h2_case_conn::answers::{add_value, extend};
use std::alloc::Global;

/// DATA (RFC 9113, section 6.1).
const DATA: u8 = 0;

/// The preface of a client (section 3.4).
const PREFACE: &[u8] = b"PRI * HTTP/2.0\r\n\r\nSM\r\n\r\n";

// The frames of an output, which has the preface first if a client has written it.
fn frames_of(output: &[u8]) -> &[u8] {
    output.strip_prefix(PREFACE).unwrap_or(output)
}

// The stream of a frame with this head.
fn stream_of(head: &[u8; 9]) -> u32 {
    let [_, _, _, _, _, a, b, c, d] = *head;
    u32::from_be_bytes([a, b, c, d])
}

// Adds the octets of the frames of a type; returns the number of frames.
fn add_frames_of(found: &mut Vec<u8>, frames: &[u8], kind: u8, words: &mut Words<'_>) -> u64 {
    let mut count = 0u64;
    let mut unread = frames;
    for _ in 0..frames.len() {
        let Some((head, payload, others)) = split_frame(unread) else {
            break;
        };
        if head[3] == kind {
            extend(found, head, words);
            extend(found, payload, words);
            count = count.wrapping_add(1);
        }
        unread = others;
    }
    if !unread.is_empty() {
        words.unread();
    }
    count
}

// Adds the payloads of the DATA on a stream.
fn add_payloads(body: &mut Vec<u8>, frames: &[u8], id: u32, words: &mut Words<'_>) {
    let mut unread = frames;
    for _ in 0..frames.len() {
        let Some((head, payload, others)) = split_frame(unread) else {
            break;
        };
        if head[3] == DATA && stream_of(head) == id {
            extend(body, payload, words);
        }
        unread = others;
    }
    if !unread.is_empty() {
        words.unread();
    }
}

// Adds the line of a body: what precedes its first zero, and then the others, which may count up.
fn add_body(text: &mut Text, body: &[u8]) {
    let place = body.iter().position(|octet| *octet == 0).unwrap_or(0);
    let (first, others) = body.split_at(place.min(body.len()));
    if !first.is_empty() {
        add_hex(text, first);
        text.push_str(" ");
    }
    add_octets(text, others);
    text.push_str("\n");
}

// Adds the line of the body in the DATA of a stream.
fn add_body_of(alloc: Global, output: &[u8], words: &mut Words<'_>, text: &mut Text) {
    let id = words.number();
    let mut body = Vec::new(alloc);
    add_payloads(&mut body, frames_of(output), id, words);
    add_body(text, &body);
}

// Adds the lines of the frames of a type.
fn add_type(alloc: Global, output: &[u8], words: &mut Words<'_>, text: &mut Text) {
    let kind = words.number();
    let mut frames = Vec::new(alloc);
    let _ = add_frames_of(&mut frames, frames_of(output), kind, words);
    add_frames(text, &frames);
}

// Adds the number of frames of a type.
fn add_count(alloc: Global, output: &[u8], words: &mut Words<'_>, text: &mut Text) {
    let kind = words.number();
    let mut frames = Vec::new(alloc);
    let count = add_frames_of(&mut frames, frames_of(output), kind, words);
    add_value(text, count);
}

/// Runs a command about an output.
pub(crate) fn show(
    alloc: Global,
    output: &[u8],
    name: &str,
    words: &mut Words<'_>,
    text: &mut Text,
) {
    match name {
        "output" => add_frames(text, output),
        "written" => add_value(text, output.len()),
        "body" => add_body_of(alloc, output, words, text),
        "frames" => add_type(alloc, output, words, text),
        "count" => add_count(alloc, output, words, text),
        _ => words.unread(),
    }
}
