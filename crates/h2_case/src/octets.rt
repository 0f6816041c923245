//! Octets in commands and in answers.

use crate::case::CaseError;
use crate::text::Text;
use crate::words::Words;
use h2_cli::from_hex;
use h2_frame::head;
use std::alloc::Global;

/// The octets of the words that are left: hexadecimal digits, one word after another. `HEXxN` is
/// `HEX` N times, and `count:N` is N octets of which octet k is k modulo 251; of `count:N:S`, k + S
/// modulo 251.
pub fn read_octets(alloc: Global, words: &mut Words<'_>) -> Vec<u8> {
    let mut octets = Vec::new(alloc);
    let text = words.rest();
    append_octets(alloc, &mut octets, words, text);
    octets
}

/// The octets of the words that are left, as [`read_octets`] reads them, up to the word `end`, and
/// whether that stands last. There may be no octets.
pub fn read_part(alloc: Global, words: &mut Words<'_>) -> (Vec<u8>, bool) {
    let mut octets = Vec::new(alloc);
    let text = words.rest();
    let before = if text == "end" {
        Some("")
    } else {
        text.strip_suffix(" end")
    };
    append_octets(alloc, &mut octets, words, before.unwrap_or(text));
    (octets, before.is_some())
}

/// Appends the octets of a text, as [`read_octets`] reads them. A fault is noted in the words.
pub(crate) fn append_octets(
    alloc: Global,
    octets: &mut Vec<u8>,
    words: &mut Words<'_>,
    text: &str,
) {
    let mut parts = Words::of(text);
    for _ in 0..text.len() {
        let part = parts.next_or_empty();
        if part.is_empty() {
            break;
        }
        match part.strip_prefix("count:") {
            Some(count) => append_counted(octets, words, count),
            None => append_digits(alloc, octets, words, part),
        }
    }
}

// Appends the octets of `N` or of `N:S`, which follows `count:`.
fn append_counted(octets: &mut Vec<u8>, words: &mut Words<'_>, part: &str) {
    let (count, first) = part.split_once(':').unwrap_or((part, "0"));
    let (count, first): (u32, u32) = (words.parse(count), words.parse(first));
    let mut octet = u8::try_from(first % 251).unwrap_or(0);
    for _ in 0..count {
        if octets.push(octet).is_err() {
            words.fail(CaseError::Memory);
            break;
        }
        octet = next_counted(octet);
    }
}

// The octet after this one, where octets count up modulo 251.
fn next_counted(octet: u8) -> u8 {
    if octet >= 250 {
        0
    } else {
        octet.wrapping_add(1)
    }
}

// Appends the octets of `HEX` or of `HEXxN`.
fn append_digits(alloc: Global, octets: &mut Vec<u8>, words: &mut Words<'_>, part: &str) {
    let (digits, times) = part.split_once('x').unwrap_or((part, "1"));
    let times = words.parse(times);
    match from_hex(alloc, digits.as_bytes()) {
        Ok(repeated) => push_repeated(octets, words, &repeated, times),
        Err(_) => words.unread(),
    }
}

// Appends the repeated octets `times` times.
fn push_repeated(octets: &mut Vec<u8>, words: &mut Words<'_>, repeated: &[u8], times: u32) {
    if let [octet] = repeated {
        let len = octets.len().saturating_add(times as usize);
        if octets.resize(len, *octet).is_err() {
            words.fail(CaseError::Memory);
        }
    } else {
        for _ in 0..times {
            if octets.extend_from_slice(repeated).is_err() {
                words.fail(CaseError::Memory);
                break;
            }
        }
    }
}

/// An octet, after which others are written; it must not change.
pub(crate) fn marked(alloc: Global, text: &mut Text) -> Vec<u8> {
    let mut out = Vec::new(alloc);
    if out.push(7).is_err() {
        text.refuse();
    }
    out
}

/// What was written after the octet of [`marked`]. If that has changed, a line says so.
pub(crate) fn written_after<'a>(text: &mut Text, out: &'a [u8]) -> &'a [u8] {
    match out {
        [7, written @ ..] => written,
        _ => {
            text.push_line("what was written before has changed");
            &[]
        }
    }
}

// A digit of hexadecimal.
fn digit(half: u8) -> char {
    match half {
        0..=9 => (b'0'.wrapping_add(half)) as char,
        _ => (b'a'.wrapping_add(half.wrapping_sub(10))) as char,
    }
}

/// Adds octets in hexadecimal.
pub fn add_hex(text: &mut Text, octets: &[u8]) {
    for octet in octets {
        text.push(digit(*octet >> 4));
        text.push(digit(*octet & 15));
    }
}

/// Adds octets as [`read_octets`] reads them: many equal ones, and many that count up, as a count.
pub fn add_octets(text: &mut Text, octets: &[u8]) {
    match octets {
        [first, others @ ..] if others.len() > 15 => add_many(text, octets, *first, others),
        _ => add_hex(text, octets),
    }
}

// Adds many octets: this one, and others.
fn add_many(text: &mut Text, octets: &[u8], first: u8, others: &[u8]) {
    if octets.starts_with(others) {
        add_hex(text, &[first]);
        text.push_labeled("x", octets.len());
    } else if is_counted(octets, first) {
        text.push_labeled("count:", octets.len());
        if first > 0 {
            text.push_labeled(":", first);
        }
    } else {
        add_hex(text, octets);
    }
}

// Whether each octet is one more than the one before it, modulo 251, from this one on.
fn is_counted(octets: &[u8], first: u8) -> bool {
    let mut next = first;
    for octet in octets {
        if *octet != next || next > 250 {
            return false;
        }
        next = next_counted(next);
    }
    true
}

/// The head and the payload of the frame with which octets begin, and what follows it; none where
/// they begin with no complete frame.
pub fn split_frame(octets: &[u8]) -> Option<(&[u8; 9], &[u8], &[u8])> {
    let (nine, others) = octets.split_first_chunk::<9>()?;
    let (payload, following) = others.split_at_checked(head(nine).length as usize)?;
    Some((nine, payload, following))
}

/// Adds a line for each frame of octets: its head of nine octets, a space, and its payload; what is
/// no complete frame at the end has a line of its own. The client's preface, where the octets begin
/// with it, has a line too.
pub fn add_frames(text: &mut Text, octets: &[u8]) {
    let mut others = octets;
    if let Some(following) = octets.strip_prefix(b"PRI * HTTP/2.0\r\n\r\nSM\r\n\r\n".as_slice()) {
        text.push_line("preface");
        others = following;
    }
    for _ in 0..octets.len() {
        let Some((head, payload, following)) = split_frame(others) else {
            break;
        };
        add_hex(text, head);
        add_last(text, payload);
        text.push_str("\n");
        others = following;
    }
    if !others.is_empty() {
        text.push_str("part ");
        add_octets(text, others);
        text.push_str("\n");
    }
}

/// Adds the octets with which a line ends, after a space, where there are some.
pub fn add_last(text: &mut Text, octets: &[u8]) {
    if !octets.is_empty() {
        text.push_str(" ");
        add_octets(text, octets);
    }
}
