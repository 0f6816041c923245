//! Fields in commands and in answers.

use crate::case::CaseError;
use crate::octets::append_octets;
use crate::text::Text;
use crate::words::Words;
use hpack::{Field, FieldRef, Octets};
use std::alloc::Global;

/// The octets of the text that is left, in which `\xNN` is an octet in hexadecimal, and `\{WORDS}`
/// the octets that [`read_octets`](crate::octets::read_octets) reads.
pub fn read_text(alloc: Global, words: &mut Words<'_>) -> Vec<u8> {
    let text = words.rest();
    octets_of_text(alloc, words, text)
}

// The octets of a text.
fn octets_of_text(alloc: Global, words: &mut Words<'_>, text: &str) -> Vec<u8> {
    let mut octets = Vec::new(alloc);
    let mut others = text;
    for _ in 0..text.len() {
        let Some((plain, escape)) = others.split_once('\\') else {
            break;
        };
        append_plain(&mut octets, words, plain);
        others = append_escape(alloc, &mut octets, words, escape);
    }
    append_plain(&mut octets, words, others);
    octets
}

// Appends a text's own octets.
fn append_plain(octets: &mut Vec<u8>, words: &mut Words<'_>, plain: &str) {
    if octets.extend_from_slice(plain.as_bytes()).is_err() {
        words.fail(CaseError::Memory);
    }
}

// Appends the octets that a backslash escapes, and returns what follows them.
fn append_escape<'a>(
    alloc: Global,
    octets: &mut Vec<u8>,
    words: &mut Words<'_>,
    escape: &'a str,
) -> &'a str {
    match split_escape(escape) {
        Some((escaped, others)) => {
            append_octets(alloc, octets, words, escaped);
            others
        }
        None => {
            words.unread();
            ""
        }
    }
}

// The octets that follow a backslash, in hexadecimal, and what follows them.
fn split_escape(escape: &str) -> Option<(&str, &str)> {
    if let Some(braced) = escape.strip_prefix('{') {
        return braced.split_once('}');
    }
    let digits = escape.strip_prefix('x').unwrap_or("");
    match (digits.get(..2), digits.get(2..)) {
        (Some(octet), Some(others)) => Some((octet, others)),
        _ => None,
    }
}

// A field: `NAME: VALUE`, with `!` before it where it is sensitive. The name ends at the first
// `: `, or at a colon that ends the text.
fn read_field(alloc: Global, words: &mut Words<'_>, text: &str) -> Field {
    let (sensitive, text) = match text.strip_prefix('!') {
        Some(text) => (true, text),
        None => (false, text),
    };
    let (name, value) = match (text.split_once(": "), text.strip_suffix(':')) {
        (Some(parts), _) => parts,
        (None, Some(name)) => (name, ""),
        (None, None) => {
            words.unread();
            ("", "")
        }
    };
    Field {
        name: Octets::new(octets_of_text(alloc, words, name)),
        value: Octets::new(octets_of_text(alloc, words, value)),
        sensitive,
    }
}

/// The fields of the text that is left, which ` | ` divides; none where nothing is left.
pub fn read_fields(alloc: Global, words: &mut Words<'_>) -> Vec<Field> {
    let text = words.rest();
    fields_of(alloc, words, text)
}

/// The fields of a text, as [`read_fields`] reads them. A fault is noted in the words.
pub(crate) fn fields_of(alloc: Global, words: &mut Words<'_>, text: &str) -> Vec<Field> {
    let mut fields = Vec::new(alloc);
    let mut others = text.trim_matches(' ');
    for _ in 0..others.len() {
        let Some((field, following)) = others.split_once(" | ") else {
            append_field(alloc, &mut fields, words, others);
            break;
        };
        append_field(alloc, &mut fields, words, field);
        others = following;
    }
    fields
}

// Appends the field of a text.
fn append_field(alloc: Global, fields: &mut Vec<Field>, words: &mut Words<'_>, text: &str) {
    if fields.push(read_field(alloc, words, text)).is_err() {
        words.fail(CaseError::Memory);
    }
}

/// A field borrowed from a list.
pub fn lent(field: &Field) -> FieldRef<'_> {
    FieldRef {
        name: field.name.as_slice(),
        value: field.value.as_slice(),
        sensitive: field.sensitive,
    }
}

/// Adds the line of each field, as `h2 show` prints it.
pub fn add_fields(alloc: Global, text: &mut Text, fields: &[Field]) {
    for field in fields {
        add_field(alloc, text, lent(field));
    }
}

/// Adds the line of a field, as `h2 show` prints it.
pub fn add_field(alloc: Global, text: &mut Text, field: FieldRef<'_>) {
    let line = line_of(alloc, text, field);
    text.push_str(str_of(&line));
}

/// Adds a field as `h2 show` prints it, without the indentation and the end of the line.
pub(crate) fn add_field_alone(alloc: Global, text: &mut Text, field: FieldRef<'_>) {
    let line = line_of(alloc, text, field);
    let line = str_of(&line).trim_end_matches('\n');
    text.push_str(line.strip_prefix("  ").unwrap_or(line));
}

// The line of a field. That memory was refused is noted in the text.
fn line_of(alloc: Global, text: &mut Text, field: FieldRef<'_>) -> Vec<u8> {
    let mut line = Vec::new(alloc);
    if h2_show::write_field(field, &mut line).is_err() {
        text.refuse();
    }
    line
}

// The line of a field as text: it has printable ASCII alone.
fn str_of(line: &[u8]) -> &str {
    std::str::from_utf8(line).unwrap_or("not text")
}
