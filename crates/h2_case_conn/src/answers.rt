//! The texts of answers.

use h2_case::case::CaseError;
use h2_case::fields::add_field;
use h2_case::octets::{add_last, add_octets};
use h2_case::text::Text;
use h2_case::words::Words;
use hpack::{FieldList, FieldRef};
use std::alloc::Global;
use std::fmt::Display;

/// Adds the line of a value, or of the name of the rule by which a call is refused: the text of the
/// refusal before its last colon.
pub fn add_answer<T: Display + Drop, E: Display + Drop>(
    alloc: Global,
    text: &mut Text,
    answer: Result<T, E>,
) {
    match answer {
        Ok(value) => add_value(text, value),
        Err(refusal) => add_name(alloc, text, &refusal),
    }
}

/// Adds the line `done`, or of the name of the rule by which a call is refused.
pub fn add_done<E: Display + Drop>(alloc: Global, text: &mut Text, done: Result<(), E>) {
    match done {
        Ok(()) => text.push_line("done"),
        Err(refusal) => add_name(alloc, text, &refusal),
    }
}

// A text before its last colon.
fn name_of(rule: &str) -> &str {
    match rule.rsplit_once(": ") {
        Some((name, _)) => name,
        None => rule,
    }
}

/// Adds the line of the name of a rule.
pub fn add_name<E: Display>(alloc: Global, text: &mut Text, rule: &E) {
    match format!(in alloc; "{rule}") {
        Ok(whole) => text.push_line(name_of(&whole)),
        Err(_) => text.refuse(),
    }
}

/// Adds the line of a value, or `none`.
pub fn add_option<T: Display + Drop>(text: &mut Text, value: Option<T>) {
    match value {
        Some(value) => add_value(text, value),
        None => text.push_line("none"),
    }
}

/// Adds the line of the name of a rule, or `none`.
pub(crate) fn add_rule<E: Display + Drop>(alloc: Global, text: &mut Text, rule: Option<E>) {
    match rule {
        Some(rule) => add_name(alloc, text, &rule),
        None => text.push_line("none"),
    }
}

/// The lines of a text; none where memory was refused, which is noted.
pub fn lines_of(alloc: Global, text: Text, words: &mut Words<'_>) -> String {
    match text.finish() {
        Ok(lines) => lines,
        Err(fault) => {
            words.fail(fault);
            String::new(alloc)
        }
    }
}

/// A copy of octets; nothing where memory was refused, which is noted.
pub fn copy_of(alloc: Global, octets: &[u8], words: &mut Words<'_>) -> Vec<u8> {
    let mut copy = Vec::new(alloc);
    extend(&mut copy, octets, words);
    copy
}

/// Adds octets to others; that memory was refused is noted.
pub fn extend(octets: &mut Vec<u8>, others: &[u8], words: &mut Words<'_>) {
    if octets.extend_from_slice(others).is_err() {
        words.fail(CaseError::Memory);
    }
}

/// Adds the line of each field of a list; a value of more than 64 octets is written in braces, as
/// [`h2_case::octets`] writes octets.
pub fn add_list(alloc: Global, text: &mut Text, list: &FieldList) {
    for field in list.iter() {
        add_listed(alloc, text, field);
    }
}

// Adds the line of a field.
fn add_listed(alloc: Global, text: &mut Text, field: FieldRef<'_>) {
    if field.value.len() > 64 {
        add_long_field(alloc, text, field);
    } else {
        add_field(alloc, text, field);
    }
}

// Adds the line of a field with a long value.
fn add_long_field(alloc: Global, text: &mut Text, field: FieldRef<'_>) {
    let mut line = Text::new(alloc);
    let without = FieldRef {
        name: field.name,
        value: &[],
        sensitive: field.sensitive,
    };
    add_field(alloc, &mut line, without);
    text.push_str(line.as_str().trim_end_matches('\n'));
    text.push_str("\\{");
    add_octets(text, field.value);
    text.push_line("}");
}

/// Adds the line of a value.
pub fn add_value<T: Display + Drop>(text: &mut Text, value: T) {
    text.push_value(value);
    text.push_str("\n");
}

/// Adds the line of words and a value after them.
pub fn add_labeled<T: Display + Drop>(text: &mut Text, label: &str, value: T) {
    text.push_labeled(label, value);
    text.push_str("\n");
}

// A space and the word for END_STREAM, where it is set.
fn end_word(end: bool) -> &'static str {
    if end { " end" } else { "" }
}

/// Begins a line: what it is about, a stream, and whether that ends.
pub fn begin_line(text: &mut Text, name: &str, id: u32, end: bool) {
    text.push_str(name);
    text.push_labeled(" ", id);
    text.push_str(end_word(end));
}

/// Adds the line of a name and two numbers.
pub(crate) fn add_numbers(text: &mut Text, name: &str, first: u32, second: u32) {
    text.push_str(name);
    text.push_labeled(" ", first);
    add_labeled(text, " ", second);
}

/// Ends a line with a space and octets, if there are any.
pub fn end_with_octets(text: &mut Text, octets: &[u8]) {
    add_last(text, octets);
    text.push_str("\n");
}
