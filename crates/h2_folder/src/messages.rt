//! The heads of answers, and returns that are a short text.

ghost use Rattle.std.specs.Prelude.{◌≡◌, IfOk, OnOk, [], codes, decimal};
ghost use Rattle.std.specs.Prelude.{if◌then◌else◌, option_map};
ghost use Rattle.h2_message.specs.Messages.{response_head};
ghost use Rattle.h2_files.specs.Ranges.{content_range, unsatisfied_range};
ghost use Rattle.h2_message.specs.Values.{message_value};
ghost use Rattle.h2_files.specs.Tags.{validators_of};
ghost use Rattle.h2_folder.specs.Heads.{file_head, head_with, method_message, phrase_or_nothing};
ghost use Rattle.h2_folder.specs.Heads.{reason_if, short_message, short_text, text_message};
ghost use Rattle.h2_folder.specs.Heads.{octets_of_part, unsatisfied_message, with_content};
ghost use Rattle.h2_folder.specs.Heads.{head_and_field};
ghost use Rattle.h2_folder.specs.Heads.{head_and_field_if, with_part, with_version};

use h2_files::{Answer, Version, content_range, unsatisfied_range};
use h2_message::{Field, Message, Octets};
use http::StatusCode;
use std::alloc::{AllocError, Global};

/// The fields of a file's answer besides its status and validators.
#[derive(Clone, Copy)]
pub struct About<'a> {
    /// The field `content-type`.
    pub kind: &'a str,
    /// The field `date`, if the time is known (RFC 9110, section 6.6.1).
    pub date: Option<[u8; 29]>,
    /// The field `last-modified`, if there is one (RFC 9110, section 8.8.2).
    pub modified: Option<[u8; 29]>,
}

// contract: HTTP 14.4 An answer with a part of a file says which part it is
// rule: HTTP 14.4 An answer with a part of a file says which part it is
/// Returns the head of an answer for a file: 200, 206 or 304 (RFC 9110, sections 15.3.1, 15.3.7
/// and 15.4.5).
///
/// # Errors
///
/// [`AllocError`] if an allocation was refused.
pub fn file_head(
    alloc: Global,
    answer: Answer,
    version: &Version,
    about: About<'_>,
) -> Result<Vec<Field>, AllocError>
    ensures { IfOk result (λ head. head.items ≡ file_head answer (validators_of version.now)
        about.entry.kind.now about.entry.date about.entry.modified) }
{
    let mut head = head_with(alloc, answer.status(), about.date)?;
    add_part(alloc, &mut head, answer, version, about.kind)?;
    add_validators(alloc, &mut head, version, about.modified)?;
    Ok(head)
}

/// Adds the fields of the content.
fn add_part(
    alloc: Global,
    head: &mut Vec<Field>,
    answer: Answer,
    version: &Version,
    kind: &str,
) -> Result<(), AllocError>
    ensures { OnOk result (head.new.items
        ≡ with_part answer (validators_of version.now) kind.now head.old.items) }
{
    match answer {
        Answer::Whole => add_content(alloc, head, kind, version.length)?,
        Answer::Part { first, last } => {
            add_range(alloc, head, first, last, version.length)?;
            add_content(alloc, head, kind, octets_of_part(first, last))?;
        }
        _ => {}
    }
    Ok(())
}

/// Adds `content-range`.
fn add_range(
    alloc: Global,
    head: &mut Vec<Field>,
    first: u64,
    last: u64,
    length: u64,
) -> Result<(), AllocError>
    ensures { OnOk result (head.new.items
        ≡ head_and_field (codes "content-range") (content_range first last length) head.old.items) }
{
    let range = content_range(alloc, first, last, length)?;
    add(head, b"content-range", Octets::new(range.into_bytes()))?;
    Ok(())
}

/// How many octets a part of a file has.
pub(crate) fn octets_of_part(first: u64, last: u64) -> u64
    ensures { result ≡ octets_of_part first last }
{
    last.saturating_sub(first).saturating_add(1)
}

/// Returns an answer with a status and its phrase as a short text, which an answer to HEAD omits.
///
/// # Errors
///
/// [`AllocError`] if an allocation was refused.
pub fn short_message(
    alloc: Global,
    status: u16,
    date: Option<[u8; 29]>,
    has_body: bool,
) -> Result<Message, AllocError>
    ensures { IfOk result (λ message.
        message_value message ≡ short_message status date has_body) }
{
    let head = head_with(alloc, status, date)?;
    let message = text_message(alloc, status, head, has_body)?;
    Ok(message)
}

/// An answer with 405, as [`short_message`], with the allowed methods (RFC 9110, section 15.5.6).
pub(crate) fn method_message(alloc: Global, date: Option<[u8; 29]>) -> Result<Message, AllocError>
    ensures { IfOk result (λ message. message_value message ≡ method_message date) }
{
    let mut head = head_with(alloc, 405, date)?;
    add(&mut head, b"allow", Octets::from_static(b"GET, HEAD"))?;
    let message = text_message(alloc, 405, head, true)?;
    Ok(message)
}

/// An answer with 416, as [`short_message`], with the length of the file (RFC 9110, section
/// 15.5.17).
pub(crate) fn unsatisfied_message(
    alloc: Global,
    length: u64,
    date: Option<[u8; 29]>,
) -> Result<Message, AllocError>
    ensures { IfOk result (λ message. message_value message ≡ unsatisfied_message length date) }
{
    let mut head = head_with(alloc, 416, date)?;
    add_unsatisfied(alloc, &mut head, length)?;
    let message = text_message(alloc, 416, head, true)?;
    Ok(message)
}

/// Adds the length of a file in `content-range`.
fn add_unsatisfied(alloc: Global, head: &mut Vec<Field>, length: u64) -> Result<(), AllocError>
    ensures { OnOk result (head.new.items
        ≡ head_and_field (codes "content-range") (unsatisfied_range length) head.old.items) }
{
    let range = unsatisfied_range(alloc, length)?;
    add(head, b"content-range", Octets::new(range.into_bytes()))?;
    Ok(())
}

/// A message with a head and a short text.
fn text_message(
    alloc: Global,
    status: u16,
    head: Vec<Field>,
    has_body: bool,
) -> Result<Message, AllocError>
    ensures { IfOk result (λ message.
        message_value message ≡ text_message status head.items has_body) }
{
    let mut head = head;
    let text = short_text(alloc, status)?;
    let octets = text.as_slice().len() as u64;
    add_content(alloc, &mut head, "text/plain; charset=utf-8", octets)?;
    Ok(Message {
        head,
        body: body_if(text, has_body),
        trailers: None,
    })
}

/// A text, or an empty one.
fn body_if(text: Vec<u8>, has_body: bool) -> Vec<u8>
    ensures { result.items ≡ (if has_body then text.items else []) }
{
    let mut text = text;
    if !has_body {
        text.clear();
    }
    text
}

/// The short text of a status: its digits and its phrase, on a line.
fn short_text(alloc: Global, status: u16) -> Result<Vec<u8>, AllocError>
    ensures { IfOk result (λ text. text.items ≡ short_text status) }
{
    let phrase = phrase_of(status);
    let text = format!(in alloc; "{status} {phrase}\n")?;
    Ok(text.into_bytes())
}

/// The phrase that the crate `http` has for a status (RFC 9110, section 15), or nothing.
fn phrase_of(status: u16) -> &'static str
    ensures { result.now ≡ phrase_or_nothing status }
{
    match reason_of(status) {
        Some(phrase) => phrase,
        None => "",
    }
}

/// The phrase of a status, if it has one.
fn reason_of(status: u16) -> Option<&'static str>
    ensures { option_map (λ text. text.now) result ≡ reason_if status }
{
    match StatusCode::from_u16(status) {
        Ok(status) => status.canonical_reason(),
        Err(_) => None,
    }
}

/// A head with a status, and a date if it is known.
fn head_with(alloc: Global, status: u16, date: Option<[u8; 29]>) -> Result<Vec<Field>, AllocError>
    ensures { IfOk result (λ head. head.items ≡ head_with status date) }
{
    let mut head = status_head(alloc, status)?;
    add_date(alloc, &mut head, b"date", date)?;
    Ok(head)
}

/// A head with a status.
fn status_head(alloc: Global, status: u16) -> Result<Vec<Field>, AllocError>
    ensures { IfOk result (λ head. head.items ≡ response_head (decimal status)) }
{
    let mut head = Vec::with_capacity(alloc, 8)?;
    let digits = status.to_string(alloc)?.into_bytes();
    add(&mut head, b":status", Octets::new(digits))?;
    Ok(head)
}

/// Adds the type and the length of a content.
fn add_content(
    alloc: Global,
    head: &mut Vec<Field>,
    kind: &str,
    length: u64,
) -> Result<(), AllocError>
    ensures { OnOk result (head.new.items ≡ with_content kind.now length head.old.items) }
{
    add_length(alloc, head, length)?;
    add_kind(alloc, head, kind)?;
    Ok(())
}

/// Adds the length of a content.
fn add_length(alloc: Global, head: &mut Vec<Field>, length: u64) -> Result<(), AllocError>
    ensures { OnOk result (head.new.items
        ≡ head_and_field (codes "content-length") (decimal length) head.old.items) }
{
    let digits = length.to_string(alloc)?.into_bytes();
    add(head, b"content-length", Octets::new(digits))?;
    Ok(())
}

/// Adds the type of a content.
fn add_kind(alloc: Global, head: &mut Vec<Field>, kind: &str) -> Result<(), AllocError>
    ensures { OnOk result (head.new.items
        ≡ head_and_field (codes "content-type") kind.now head.old.items) }
{
    let value = Octets::copy_of(alloc, kind.as_bytes())?;
    add(head, b"content-type", value)?;
    Ok(())
}

/// Adds the validators of a version, and `accept-ranges`.
fn add_validators(
    alloc: Global,
    head: &mut Vec<Field>,
    version: &Version,
    modified: Option<[u8; 29]>,
) -> Result<(), AllocError>
    ensures { OnOk result (head.new.items
        ≡ with_version (validators_of version.now) modified head.old.items) }
{
    let tag = version.etag(alloc)?;
    add(head, b"etag", Octets::new(tag.into_bytes()))?;
    add_date(alloc, head, b"last-modified", modified)?;
    add(head, b"accept-ranges", Octets::from_static(b"bytes"))?;
    Ok(())
}

/// Adds a date, if it is known.
fn add_date(
    alloc: Global,
    head: &mut Vec<Field>,
    name: &'static [u8],
    date: Option<[u8; 29]>,
) -> Result<(), AllocError>
    ensures { OnOk result (head.new.items ≡ head_and_field_if name.now date head.old.items) }
{
    if let Some(date) = date {
        add(head, name, Octets::copy_of(alloc, &date)?)?;
    }
    Ok(())
}

/// Adds a field.
fn add(head: &mut Vec<Field>, name: &'static [u8], value: Octets) -> Result<(), AllocError>
    ensures { OnOk result (head.new.items ≡ head_and_field name.now value head.old.items) }
{
    head.push(Field {
        name: Octets::from_static(name),
        value,
        sensitive: false,
    })?;
    Ok(())
}
