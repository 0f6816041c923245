//! Field blocks, by an encoder and two decoders; each case begins with new ones, of the maximum
//! 4,096.
//!
//! - `new MAXIMUM`: they are new ones, with this maximum.
//! - `limits LIMITS`, `limits COUNT times LIMITS`: the limit of all is set, one after another.
//! - `decode OCTETS`, `decode within LIMIT OCTETS`: the fields of a block, a line each; `too
//!   large`, where their list is above the limit; or the fault. One decoder makes a list, the other
//!   fills one that is kept, which is empty where there is none; where they differ, that is said.
//! - `encode FIELDS`: the octets of the fields' block. What was written before must be unchanged,
//!   the block must be decoded to the fields, and all must have the same table then.
//! - `numbered COUNT`: the same of `COUNT` fields whose name and value are the numbers from 0 on,
//!   two octets each: the number of octets of the block, and of entries in the table.
//! - `table`: the number of entries in the decoders' table, their size and its maximum; and the
//!   line of each, the newest first.
//! - `fill`: another decoder puts a field into the list that is kept, whose lines are the answer.
//! - `clear`: the list that is kept is cleared.

use crate::case::{Case, CaseError};
use crate::driver::{Answer, Driver, answers};
use crate::fields::read_fields;
use crate::layers::coders::{Coders, NO_LIMIT};
use crate::octets::{add_octets, marked, read_octets, written_after};
use crate::text::Text;
use crate::words::Words;
use hpack::Field;
use std::alloc::Global;

// The limit of all is set to each number of a text, one after another.
fn set_limits(coders: &mut Coders, words: &mut Words<'_>, text: &str) {
    let mut limits = Words::of(text);
    for _ in 0..100 {
        coders.set_limit(limits.number());
        if limits.is_empty() {
            break;
        }
    }
    if let Some(fault) = limits.fault() {
        words.fail(fault);
    }
}

// The limits of all are set, as many times as the words say.
fn set_all_limits(coders: &mut Coders, words: &mut Words<'_>) {
    let times = words.times();
    let limits = words.rest();
    for _ in 0..times {
        set_limits(coders, words, limits);
    }
}

// Decodes a block.
fn decode(coders: &mut Coders, words: &mut Words<'_>, text: &mut Text) {
    let limit = if words.has("within") {
        words.number()
    } else {
        NO_LIMIT
    };
    let octets = read_octets(coders.alloc, words);
    coders.add_decoded(text, &octets, limit);
}

// Whether a block is decoded to its list, and all have the same table then.
fn is_passed(coders: &mut Coders, block: &[u8], fields: &[Field]) -> bool {
    coders.is_decoded(block, fields) && coders.are_in_step()
}

// Adds the octets of a list's block.
fn add_block(coders: &mut Coders, text: &mut Text, block: &[u8], fields: &[Field]) {
    add_octets(text, block);
    if !is_passed(coders, block, fields) {
        text.push_str("\nit is decoded otherwise, or the tables differ");
    }
}

// Encodes a list.
fn encode(coders: &mut Coders, words: &mut Words<'_>, text: &mut Text) {
    let fields = read_fields(coders.alloc, words);
    let mut out = marked(coders.alloc, text);
    coders.encode(words, &fields, &mut out);
    let block = written_after(text, &out);
    add_block(coders, text, block, &fields);
}

// Adds the field whose name and value are a number.
fn push_numbered(alloc: Global, fields: &mut Vec<Field>, words: &mut Words<'_>, number: u16) {
    let octets = number.to_be_bytes();
    let is_pushed = match Field::copy_of(alloc, &octets, &octets, false) {
        Ok(field) => fields.push(field).is_ok(),
        Err(_) => false,
    };
    if !is_pushed {
        words.fail(CaseError::Memory);
    }
}

// `count` fields, each with a name and a value of its own.
fn numbered_fields(alloc: Global, words: &mut Words<'_>, count: u16) -> Vec<Field> {
    let mut fields = Vec::new(alloc);
    for number in 0..count {
        push_numbered(alloc, &mut fields, words, number);
    }
    fields
}

// Adds the number of octets of a list's block, and of entries in the table.
fn add_counts(coders: &mut Coders, text: &mut Text, block: &[u8], fields: &[Field]) {
    let is_passed = is_passed(coders, block, fields);
    text.push_value(block.len());
    text.push_labeled(" octets, entries ", coders.entries());
    text.push_str("\n");
    if !is_passed {
        text.push_line("it is decoded otherwise, or the tables differ");
    }
}

// Encodes the fields of `numbered COUNT`.
fn encode_numbered(coders: &mut Coders, words: &mut Words<'_>, text: &mut Text) {
    let count = words.number();
    let fields = numbered_fields(coders.alloc, words, count);
    let mut out = marked(coders.alloc, text);
    coders.encode(words, &fields, &mut out);
    let block = written_after(text, &out);
    add_counts(coders, text, block, &fields);
}

// They are new ones.
fn renew(coders: &mut Coders, words: &mut Words<'_>) {
    match Coders::new(coders.alloc, words.number()) {
        Some(others) => *coders = others,
        None => words.fail(CaseError::Memory),
    }
}

impl Driver for Coders {
    fn answer(&mut self, name: &str, words: &mut Words<'_>, text: &mut Text) {
        match name {
            "new" => renew(self, words),
            "limits" => set_all_limits(self, words),
            "decode" => decode(self, words, text),
            "encode" => encode(self, words, text),
            "numbered" => encode_numbered(self, words, text),
            "table" => self.add_table(text),
            "fill" => self.add_filled(text),
            "clear" => self.add_cleared(text),
            _ => words.unread(),
        }
    }
}

/// The answers to a case's commands, up to the first that has none.
pub fn run_case(alloc: Global, case: &Case) -> Vec<Answer> {
    match Coders::new(alloc, 4_096) {
        Some(mut coders) => answers(alloc, case, &mut coders),
        None => Vec::new(alloc),
    }
}
