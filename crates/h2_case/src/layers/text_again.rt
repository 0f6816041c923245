//! Whether texts are written in the Huffman code and as strings, and read again.

ghost use Rattle.std.specs.Prelude.{◌<◌};

use crate::text::Text;
use crate::words::Words;
use hpack_text::{
    huff_len, huff_read, huff_step, huff_write, read_string, read_string_into, write_string,
};
use std::alloc::Global;

/// A text in the code, of the length that is measured; none of a text that is too long, and where
/// memory was refused.
pub(crate) fn huffman_of(alloc: Global, text: &[u8]) -> Option<Vec<u8>> {
    if text.len() >= 1 << 35 {
        return None;
    }
    let mut out = Vec::new(alloc);
    if huff_write(text, &mut out).is_err() || out.len() != huff_len(text) {
        return None;
    }
    Some(out)
}

/// A text as a string; none of a text that is too long, and where memory was refused.
pub(crate) fn string_of(alloc: Global, text: &[u8]) -> Option<Vec<u8>> {
    if text.len() >= 1 << 35 {
        return None;
    }
    let mut out = Vec::new(alloc);
    match write_string(text, &mut out) {
        Ok(()) => Some(out),
        Err(_) => None,
    }
}

// The state after a half octet, whose symbol is put after the text; none at the end symbol, and
// where memory was refused.
fn walk_half(state: u8, half: u8, text: &mut Vec<u8>) -> Option<u8>
    requires { half < 16 }
{
    let (next, symbol) = huff_step(state, half)?;
    if let Some(symbol) = symbol {
        text.push(symbol).ok()?;
    }
    Some(next)
}

// The state after octets, whose symbols are put after the text.
fn walk(octets: &[u8], text: &mut Vec<u8>) -> Option<u8> {
    let mut state = 0;
    for bits in octets {
        let middle = walk_half(state, *bits / 16, text)?;
        state = walk_half(middle, *bits % 16, text)?;
    }
    Some(state)
}

/// The state after half octets, whose symbols are put after the text; none at the end symbol, and
/// where memory was refused. The half octets are digits, without a space between them: letters are
/// in lower case.
pub(crate) fn walk_halves(words: &mut Words<'_>, text: &mut Vec<u8>) -> Option<u8> {
    let mut state = Some(0);
    for digit in words.rest().chars() {
        let half = match digit {
            '0'..='9' => (digit as u32).wrapping_sub('0' as u32),
            'a'..='f' => (digit as u32).wrapping_sub('a' as u32).wrapping_add(10),
            _ => {
                words.unread();
                0
            }
        };
        state = match state {
            Some(state) => walk_half(state, (half % 16) as u8, text),
            None => None,
        };
    }
    state
}

// Whether a code's half octets lead to its text, and to padding, a state of ones alone.
fn is_walked(alloc: Global, huffman: &[u8], text: &[u8]) -> bool {
    let mut found = Vec::new(alloc);
    match walk(huffman, &mut found) {
        Some(state) => state <= 7 && found.as_slice() == text,
        None => false,
    }
}

// Whether a code is read as its text.
fn is_code_again(alloc: Global, text: &[u8]) -> bool {
    let Some(huffman) = huffman_of(alloc, text) else {
        return false;
    };
    match huff_read(alloc, &huffman) {
        Ok(read) => read.as_slice() == text && is_walked(alloc, &huffman, text),
        Err(_) => false,
    }
}

// Whether a string is read as its text, and has `count` octets.
fn reads(alloc: Global, string: &[u8], text: &[u8], count: usize) -> bool {
    match read_string(alloc, string) {
        Ok((read, used)) => read.as_slice() == text && used == count,
        Err(_) => false,
    }
}

// Whether octets are an octet, and then a text twice.
fn is_twice(octets: &[u8], text: &[u8]) -> bool {
    match octets {
        [b'>', texts @ ..] => match texts.split_at_checked(text.len()) {
            Some((first, second)) => first == text && second == text,
            None => false,
        },
        _ => false,
    }
}

// Whether it is read so after an octet that is there, and once more after its own text.
fn reads_into(alloc: Global, string: &[u8], text: &[u8], count: usize) -> bool {
    let mut out = Vec::new(alloc);
    out.push(b'>').is_ok()
        && read_string_into(string, &mut out) == Ok(count)
        && read_string_into(string, &mut out) == Ok(count)
        && is_twice(&out, text)
}

// Whether a text is written as a string, and read again with an octet after it.
fn is_string_again(alloc: Global, text: &[u8]) -> bool {
    let Some(mut string) = string_of(alloc, text) else {
        return false;
    };
    let count = string.len();
    string.push(0).is_ok()
        && reads(alloc, &string, text, count)
        && reads_into(alloc, &string, text, count)
}

/// Whether a text is written in the code and as a string, and read again.
pub(crate) fn is_again(alloc: Global, text: &[u8]) -> bool {
    is_code_again(alloc, text) && is_string_again(alloc, text)
}

/// Adds the line of each octet of which a text isn't written and read again, alone or among others.
pub(crate) fn add_wrong_octets(alloc: Global, text: &mut Text) {
    for octet in 0..=255u8 {
        if !is_again(alloc, &[octet]) || !is_again(alloc, &[b'a', octet, octet, b'/', octet]) {
            text.push_labeled("octet ", octet);
            text.push_str("\n");
        }
    }
}

// Adds the line of a length.
fn add_wrong_length(text: &mut Text, length: usize) {
    text.push_labeled("length ", length);
    text.push_str("\n");
}

/// Adds the line of each length up to 300 of which a text of this octet isn't written and read
/// again.
pub(crate) fn add_wrong_lengths(alloc: Global, text: &mut Text, octet: u8) {
    let octets = [octet; 300];
    for length in 0..=300usize {
        match octets.get(..length) {
            Some(begin) if is_again(alloc, begin) => {}
            _ => add_wrong_length(text, length),
        }
    }
}
