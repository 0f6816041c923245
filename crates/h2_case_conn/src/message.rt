//! Messages: the rule that one breaks which is to be sent, and messages as they are read.
//!
//! - `each octet of names N`, `each octet of values N`: which octets are not allowed at which
//!   place of a name or a value of N octets, whose others are `a` ([`crate::each_octet`]).
//! - `request MESSAGE`, `response MESSAGE`, `response to_head MESSAGE`: `good`, or the first rule
//!   that the message breaks. A message is written as [`h2_case::messages`] says.
//! - `asks HEAD`: whether the head of a request asks with HEAD.
//! - `read requests`, `read responses`, `read responses to_head`: a message is read from its
//!   start. Of it `fields FIELDS` and `data N`, each with `end` before the rest where it ends the
//!   stream, answer the part that the field block is, `taken` for `N` octets of DATA, or
//!   `refused`; and `is_over` and `asks_head` what they say.

use crate::answers::{add_name, add_value};
use crate::cuts::answers_of;
use crate::each_octet::add_bad_octets;
use h2_case::case::{Case, CaseError};
use h2_case::driver::{Answer, Driver};
use h2_case::fields::read_fields;
use h2_case::messages::read_message;
use h2_case::text::Text;
use h2_case::words::Words;
use h2_message::{Malformed, Place, Reading, Reads, asks_head, check_request, check_response};
use hpack::{Decoder, Encoder, Field, FieldList, list_size};
use std::alloc::Global;

/// The message that is read.
#[derive(Drop)]
struct State {
    alloc: Global,
    reading: Reading,
}

// Adds the line of a check.
fn add_checked(alloc: Global, text: &mut Text, checked: Result<(), Malformed>) {
    match checked {
        Ok(()) => text.push_line("good"),
        Err(rule) => add_name(alloc, text, &rule),
    }
}

// Checks a request.
fn add_request(alloc: Global, words: &mut Words<'_>, text: &mut Text) {
    let message = read_message(alloc, words);
    add_checked(alloc, text, check_request(&message));
}

// Checks a response.
fn add_response(alloc: Global, words: &mut Words<'_>, text: &mut Text) {
    let to_head = words.has("to_head");
    let message = read_message(alloc, words);
    add_checked(alloc, text, check_response(&message, to_head));
}

// Adds whether the head of a request asks with HEAD.
fn add_asks_head(alloc: Global, words: &mut Words<'_>, text: &mut Text) {
    let head = read_fields(alloc, words);
    add_value(text, asks_head(&head));
}

// Which messages are read.
fn read_reads(words: &mut Words<'_>) -> Reads {
    match words.word() {
        "requests" => Reads::Requests,
        "responses" => Reads::Responses {
            to_head: words.has("to_head"),
        },
        _ => {
            words.unread();
            Reads::Requests
        }
    }
}

// Writes a block of fields, and reads it; whether both were done.
fn copy_block(
    encoder: &mut Encoder,
    fields: &[Field],
    decoder: &mut Decoder,
    block: &mut Vec<u8>,
    list: &mut FieldList,
) -> bool {
    list_size(fields) < 1 << 35
        && encoder.encode(fields, block).is_ok()
        && decoder.decode_into(block, 65_536, list).is_ok()
}

// The list of a block of these fields.
fn list_of(alloc: Global, fields: &[Field], words: &mut Words<'_>) -> FieldList {
    let mut block = Vec::new(alloc);
    let mut list = FieldList::new(alloc);
    match (Encoder::new(alloc, 0), Decoder::new(alloc, 0)) {
        (Ok(mut encoder), Ok(mut decoder)) => {
            if !copy_block(&mut encoder, fields, &mut decoder, &mut block, &mut list) {
                words.unread();
            }
        }
        _ => words.fail(CaseError::Memory),
    }
    list
}

// The word for a part of a message.
fn part_word(place: Option<Place>) -> &'static str {
    match place {
        Some(Place::Interim) => "interim",
        Some(Place::Head) => "head",
        Some(Place::Trailers) => "trailers",
        None => "refused",
    }
}

// Adds what a message is that these fields belong to.
fn add_part(alloc: Global, reading: &mut Reading, words: &mut Words<'_>, text: &mut Text) {
    let end = words.has("end");
    let fields = read_fields(alloc, words);
    let list = list_of(alloc, &fields, words);
    text.push_line(part_word(reading.fields(&list, end)));
}

// Adds whether octets of a body belong to the message.
fn add_data(reading: &mut Reading, words: &mut Words<'_>, text: &mut Text) {
    let end = words.has("end");
    let is_taken = reading.data(words.number(), end);
    text.push_line(if is_taken { "taken" } else { "refused" });
}

// Adds the octets that names or values may not have.
fn add_each_octet(alloc: Global, words: &mut Words<'_>, text: &mut Text) {
    words.expect("octet");
    words.expect("of");
    let is_name = words.has("names");
    if !is_name {
        words.expect("values");
    }
    add_bad_octets(alloc, text, is_name, words.number());
}

impl Driver for State {
    fn answer(&mut self, name: &str, words: &mut Words<'_>, text: &mut Text) {
        let alloc = self.alloc;
        match name {
            "request" => add_request(alloc, words, text),
            "response" => add_response(alloc, words, text),
            "asks" => add_asks_head(alloc, words, text),
            "each" => add_each_octet(alloc, words, text),
            "read" => self.reading = Reading::new(read_reads(words)),
            "fields" => add_part(alloc, &mut self.reading, words, text),
            "data" => add_data(&mut self.reading, words, text),
            "is_over" => add_value(text, self.reading.is_over()),
            "asks_head" => add_value(text, self.reading.asks_head()),
            _ => words.unread(),
        }
    }
}

/// The answers to a case's commands, up to the first that has none.
pub fn run_case(alloc: Global, case: &Case) -> Vec<Answer> {
    let state = State {
        alloc,
        reading: Reading::new(Reads::Requests),
    };
    answers_of(alloc, case, state)
}
