//! The octets that a peer sends.

use h2_case::case::CaseError;
use h2_case::octets::read_octets;
use h2_case::words::Words;
use h2_case_conn::answers::extend;
use std::alloc::Global;

/// The preface of a client (RFC 9113, section 3.4), and SETTINGS without a value.
pub(crate) const CLIENT: &[u8] = b"PRI * HTTP/2.0\r\n\r\nSM\r\n\r\n\0\0\0\x04\0\0\0\0\0";

/// SETTINGS without a value.
pub(crate) const SETTINGS: &[u8] = b"\0\0\0\x04\0\0\0\0\0";

/// The most octets of a frame of DATA.
const LONGEST: usize = 16_384;

/// Adds the octets that are left of a command.
pub(crate) fn add_rest(alloc: Global, octets: &mut Vec<u8>, words: &mut Words<'_>) {
    let others = read_octets(alloc, words);
    extend(octets, &others, words);
}

// Adds a frame of DATA.
fn add_frame(octets: &mut Vec<u8>, id: u32, piece: &[u8], end: bool, words: &mut Words<'_>) {
    let [_, a, b, c] = u32::try_from(piece.len()).unwrap_or(0).to_be_bytes();
    let [e, f, g, h] = id.to_be_bytes();
    extend(octets, &[a, b, c, 0, u8::from(end), e, f, g, h], words);
    extend(octets, piece, words);
}

/// Adds a body in the longest frames of DATA: the next words are its stream, and its number of
/// octets.
pub(crate) fn add_data(alloc: Global, octets: &mut Vec<u8>, end: bool, words: &mut Words<'_>) {
    let id = words.number();
    let body = counted(alloc, words.number(), words);
    add_body(octets, id, &body, end, words);
}

// `count` octets that count up.
fn counted(alloc: Global, count: u32, words: &mut Words<'_>) -> Vec<u8> {
    let mut octets = Vec::new(alloc);
    for place in 0..count {
        let octet = u8::try_from(place % 251).unwrap_or(0);
        if octets.push(octet).is_err() {
            words.fail(CaseError::Memory);
            break;
        }
    }
    octets
}

// Adds a body in the longest frames of DATA.
fn add_body(octets: &mut Vec<u8>, id: u32, body: &[u8], end: bool, words: &mut Words<'_>) {
    let mut unsent = body;
    for _ in 0..=body.len() {
        let (piece, others) = unsent.split_at(LONGEST.min(unsent.len()));
        add_frame(octets, id, piece, end && others.is_empty(), words);
        if others.is_empty() {
            break;
        }
        unsent = others;
    }
}

/// Adds complete requests with `:path` in place of `:scheme`.
pub(crate) fn add_malformed(octets: &mut Vec<u8>, words: &mut Words<'_>) {
    let count: u32 = words.number();
    for place in 0..count {
        let [a, b, c, d] = place.wrapping_mul(2).wrapping_add(1).to_be_bytes();
        extend(
            octets,
            &[0, 0, 3, 1, 5, a, b, c, d, 0x82, 0x84, 0x84],
            words,
        );
    }
}
