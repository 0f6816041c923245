//! The texts of HPACK: integers, the Huffman code, and strings.
//!
//! - `integers PREFIX VALUES`: a line for each value: its octets, with this prefix. They must be
//!   read again, whatever follows.
//! - `below PREFIX FIRST VALUE ..`: the octets of the values below these first bits, one after
//!   another; the prefix is 4 or 7.
//! - `read PREFIX OCTETS`: the integer with which the octets begin, and its length in octets; or
//!   the fault.
//! - `text TEXT`, which [`read_text`] reads: the text in the code, and as a string. Both must be
//!   read again, the code's length must be the one that is measured, and its half octets must lead
//!   to the text and to padding.
//! - `huffman OCTETS`: the octets of the text in the code, or the fault.
//! - `string OCTETS`: the length of the string with which these begin, in octets, and its text; or
//!   the fault. It is read alone, and after an octet, which must not change.
//! - `append OCTETS`: these octets, and then `302` as a string and `a` in the code.
//! - `steps DIGITS`: the state to which half octets lead, where it is below 8, or `end`, where they
//!   come to the end symbol; and the text.
//! - `each octet`: each octet for which `text` sees a difference, alone or among others.
//! - `each length OCTET`: each length up to 300 for which it does, of this octet alone.

use crate::case::{Case, CaseError};
use crate::driver::{Answer, Driver, answers};
use crate::fields::read_text;
use crate::layers::text_again::{
    add_wrong_lengths, add_wrong_octets, huffman_of, is_again, string_of, walk_halves,
};
use crate::octets::{add_last, add_octets, marked, read_octets, written_after};
use crate::text::Text;
use crate::words::Words;
use hpack_text::{
    TextFault, huff_read, huff_write, read_int, read_string, read_string_into, write_int,
    write_string,
};
use std::alloc::Global;

// The driver of these commands.
#[derive(Drop)]
struct Texts {
    alloc: Global,
}

// Notes that memory was refused, where an encoding isn't written.
fn note(words: &mut Words<'_>, written: Result<(), TextFault>) {
    if written.is_err() {
        words.fail(CaseError::Memory);
    }
}

// Adds the octets of an integer, and whether it is read again, whatever follows.
fn add_integer(alloc: Global, words: &mut Words<'_>, text: &mut Text, prefix: u8) {
    let value = words.number();
    if prefix < 1 || prefix > 8 || value >= 1 << 35 {
        words.unread();
        return;
    }
    let mut out = Vec::new(alloc);
    note(words, write_int(prefix, 0, value, &mut out));
    add_octets(text, &out);
    text.push_str("\n");
    let count = out.len();
    if out.push(0xff).is_err() {
        text.refuse();
    }
    if read_int(prefix, &out) != Ok((value, count)) {
        text.push_line("it is read otherwise");
    }
}

// Adds a line for each integer.
fn add_integers(alloc: Global, words: &mut Words<'_>, text: &mut Text) {
    let prefix = words.number();
    for _ in 0..100 {
        if words.is_empty() {
            break;
        }
        add_integer(alloc, words, text, prefix);
    }
}

// Appends an integer below first bits.
fn append_below(out: &mut Vec<u8>, words: &mut Words<'_>) {
    let (prefix, first, value): (u8, u8, u64) = (words.number(), words.number(), words.number());
    let is_small = value < 1 << 35;
    match prefix {
        4 if is_small && first % 16 == 0 => note(words, write_int(4, first, value, out)),
        7 if is_small && first % 128 == 0 => note(words, write_int(7, first, value, out)),
        _ => words.unread(),
    }
}

// Adds the octets of integers below first bits.
fn add_below(alloc: Global, words: &mut Words<'_>, text: &mut Text) {
    let mut out = Vec::new(alloc);
    for _ in 0..100 {
        if words.is_empty() {
            break;
        }
        append_below(&mut out, words);
    }
    add_octets(text, &out);
}

// Adds the integer with which octets begin.
fn add_read(alloc: Global, words: &mut Words<'_>, text: &mut Text) {
    let prefix: u8 = words.number();
    let octets = read_octets(alloc, words);
    if prefix < 1 || prefix > 8 {
        words.unread();
    } else {
        match read_int(prefix, &octets) {
            Ok((value, count)) => {
                text.push_value(value);
                text.push_labeled(" of ", count);
            }
            Err(fault) => text.push_value(fault),
        }
    }
}

// Adds the octets of an encoding; there is none where memory was refused.
fn add_encoding(text: &mut Text, encoding: Option<Vec<u8>>) {
    match encoding {
        Some(octets) => add_last(text, &octets),
        None => text.refuse(),
    }
}

// Adds a text in the code and as a string.
fn add_text(alloc: Global, words: &mut Words<'_>, text: &mut Text) {
    let octets = read_text(alloc, words);
    text.push_str("code");
    add_encoding(text, huffman_of(alloc, &octets));
    text.push_str("\nstring");
    add_encoding(text, string_of(alloc, &octets));
    if !is_again(alloc, &octets) {
        text.push_str("\nit is read otherwise");
    }
}

// Adds the text that octets encode.
fn add_huffman(alloc: Global, words: &mut Words<'_>, text: &mut Text) {
    let octets = read_octets(alloc, words);
    match huff_read(alloc, &octets) {
        Ok(read) => add_octets(text, &read),
        Err(fault) => text.push_value(fault),
    }
}

// Adds the length of a string in octets, and its text; or the fault. It is read again after an
// octet, which must not change.
fn add_found(
    alloc: Global,
    text: &mut Text,
    octets: &[u8],
    found: Result<usize, TextFault>,
    read: &[u8],
) {
    match found {
        Ok(count) => {
            text.push_labeled("used ", count);
            add_last(text, read);
        }
        Err(fault) => text.push_value(fault),
    }
    let mut out = marked(alloc, text);
    let again = read_string_into(octets, &mut out);
    if written_after(text, &out) != read || again != found {
        text.push_str("\nit is read otherwise after an octet");
    }
}

// Adds the text of the string with which octets begin.
fn add_string(alloc: Global, words: &mut Words<'_>, text: &mut Text) {
    let octets = read_octets(alloc, words);
    match read_string(alloc, &octets) {
        Ok((read, count)) => add_found(alloc, text, &octets, Ok(count), &read),
        Err(fault) => add_found(alloc, text, &octets, Err(fault), &[]),
    }
}

// Adds what the writers put after octets.
fn add_appended(alloc: Global, words: &mut Words<'_>, text: &mut Text) {
    let mut octets = read_octets(alloc, words);
    note(words, write_string(b"302", &mut octets));
    note(words, huff_write(b"a", &mut octets));
    add_octets(text, &octets);
}

// Adds where half octets lead.
fn add_steps(alloc: Global, words: &mut Words<'_>, text: &mut Text) {
    let mut symbols = Vec::new(alloc);
    match walk_halves(words, &mut symbols) {
        Some(state) if state < 8 => text.push_labeled("state ", state),
        Some(_) => text.push_str("state above 7"),
        None => text.push_str("end"),
    }
    add_last(text, &symbols);
}

// Adds what isn't written and read again.
fn add_each(alloc: Global, words: &mut Words<'_>, text: &mut Text) {
    match words.word() {
        "octet" => add_wrong_octets(alloc, text),
        "length" => add_wrong_lengths(alloc, text, words.number()),
        _ => words.unread(),
    }
}

impl Driver for Texts {
    fn answer(&mut self, name: &str, words: &mut Words<'_>, text: &mut Text) {
        match name {
            "integers" => add_integers(self.alloc, words, text),
            "below" => add_below(self.alloc, words, text),
            "read" => add_read(self.alloc, words, text),
            "text" => add_text(self.alloc, words, text),
            "huffman" => add_huffman(self.alloc, words, text),
            "string" => add_string(self.alloc, words, text),
            "append" => add_appended(self.alloc, words, text),
            "steps" => add_steps(self.alloc, words, text),
            "each" => add_each(self.alloc, words, text),
            _ => words.unread(),
        }
    }
}

/// The answers to a case's commands, up to the first that has none.
pub fn run_case(alloc: Global, case: &Case) -> Vec<Answer> {
    answers(alloc, case, &mut Texts { alloc })
}
