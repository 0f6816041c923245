//! Heads of requests, as their paths alone.

use h2_case::text::Text;
use h2_case::words::Words;
use h2_case_conn::answers::{extend, lines_of};
use std::alloc::Global;

/// What a client sends first: the preface (RFC 9113, section 3.4), and SETTINGS without values.
pub(crate) const OPENING: &[u8] = b"PRI * HTTP/2.0\r\n\r\nSM\r\n\r\n\0\0\0\x04\0\0\0\0\0";

/// How a request begins.
#[derive(Clone, Copy)]
pub(crate) struct Start {
    /// The index of its method (RFC 7541, appendix A).
    method: u8,
    /// The flags of its HEADERS: END_HEADERS, and END_STREAM where it is complete.
    flags: u8,
}

/// GET, and complete.
pub(crate) const GET: Start = Start {
    method: 0x82,
    flags: 5,
};

/// POST, and not complete.
pub(crate) const POST: Start = Start {
    method: 0x83,
    flags: 4,
};

/// HEADERS of requests: the words that are left are their streams and their paths, in turn. After
/// a path come `?` and its stream.
pub(crate) fn read_requests(alloc: Global, start: Start, words: &mut Words<'_>) -> Vec<u8> {
    let mut octets = Vec::new(alloc);
    for _ in 0..u32::MAX {
        if words.is_empty() {
            break;
        }
        let id = words.number();
        let path = words.word();
        let path = path_of(alloc, path, id, words);
        add_request(&mut octets, start, id, path.as_bytes(), words);
    }
    octets
}

// A path with the number of a stream.
fn path_of(alloc: Global, path: &str, id: u32, words: &mut Words<'_>) -> String {
    let mut text = Text::new(alloc);
    text.push_str(path);
    text.push_labeled("?", id);
    lines_of(alloc, text, words)
}

// Adds HEADERS with a method, the scheme http and a path, whose length has one octet.
fn add_request(octets: &mut Vec<u8>, start: Start, id: u32, path: &[u8], words: &mut Words<'_>) {
    let Ok(length) = u8::try_from(path.len()) else {
        return words.unread();
    };
    if length > 126 {
        return words.unread();
    }
    let [a, b, c, d] = id.to_be_bytes();
    let payload = length.wrapping_add(4);
    let head = [0, 0, payload, 1, start.flags, a, b, c, d];
    extend(octets, &head, words);
    extend(octets, &[start.method, 0x86, 0x04, length], words);
    extend(octets, path, words);
}
