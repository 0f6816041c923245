//! The conditions of a request, each in one field line or in several.

ghost use Rattle.std.specs.Prelude.{◌≡◌, IfOk, option_map, option_copied, true};
ghost use Rattle.h2_files.specs.Conditions.{asked_of};
ghost use Rattle.h2_folder.specs.Lines.{asked_by_lines, asked_in, is_condition, joined_value};
ghost use Rattle.h2_folder.specs.Lines.{no_asked, with_line};

use h2_files::Conditions;
use h2_message::FieldList;
use std::alloc::{AllocError, Global};

/// The values of a request's conditional and range fields, if there are any.
#[derive(Drop)]
pub(crate) struct Lines {
    if_match: Option<Vec<u8>>,
    if_none_match: Option<Vec<u8>>,
    if_modified_since: Option<Vec<u8>>,
    if_unmodified_since: Option<Vec<u8>>,
    if_range: Option<Vec<u8>>,
    range: Option<Vec<u8>>,
}

impl Lines {
    /// Collects those of a request. Needs memory only for fields that are there.
    ///
    /// # Errors
    ///
    /// [`AllocError`] if an allocation was refused.
    pub(crate) fn of(alloc: Global, list: &FieldList) -> Result<Lines, AllocError>
        ensures { IfOk result (λ lines. asked_by_lines lines ≡ asked_in list.now) }
    {
        Ok(Lines {
            if_match: joined_value(alloc, list, b"if-match")?,
            if_none_match: joined_value(alloc, list, b"if-none-match")?,
            if_modified_since: joined_value(alloc, list, b"if-modified-since")?,
            if_unmodified_since: joined_value(alloc, list, b"if-unmodified-since")?,
            if_range: joined_value(alloc, list, b"if-range")?,
            range: joined_value(alloc, list, b"range")?,
        })
    }

    /// Returns them as conditions.
    pub(crate) fn conditions(&self) -> Conditions<'_>
        ensures { asked_of result ≡ asked_by_lines self.entry.now }
    {
        Conditions {
            if_match: lent(&self.if_match),
            if_none_match: lent(&self.if_none_match),
            if_modified_since: lent(&self.if_modified_since),
            if_unmodified_since: lent(&self.if_unmodified_since),
            if_range: lent(&self.if_range),
            range: lent(&self.range),
        }
    }
}

// contract: files (own) What a small file had in a second is answered in that second alone
/// Whether a request has no conditional and no range field.
pub(crate) fn is_plain(list: &FieldList) -> bool
    ensures { result ≡ true → asked_in list.now ≡ no_asked }
{
    for field in list.iter() {
        if is_condition(field.name) {
            return false;
        }
    }
    true
}

// rule: files (own) What a small file had in a second is answered in that second alone
/// Whether this is the name of a conditional or a range field.
fn is_condition(name: &[u8]) -> bool
    ensures { result ≡ is_condition name.now }
{
    name == b"if-match".as_slice()
        || name == b"if-unmodified-since".as_slice()
        || name == b"if-none-match".as_slice()
        || name == b"if-modified-since".as_slice()
        || name == b"range".as_slice()
        || name == b"if-range".as_slice()
}

/// Borrows a value.
fn lent(value: &Option<Vec<u8>>) -> Option<&[u8]>
    ensures { option_copied result ≡ option_map (λ value. value.items) value.entry.now }
{
    match value {
        Some(value) => Some(value.as_slice()),
        None => None,
    }
}

// contract: HTTP 5.3 A field in several lines has their values, joined by commas
// rule: HTTP 5.3 A field in several lines has their values, joined by commas
/// The values of the fields with this name, in order, joined by commas; none if there is none
/// (RFC 9110, section 5.3).
fn joined_value(alloc: Global, list: &FieldList, name: &[u8]) -> Result<Option<Vec<u8>>, AllocError>
    ensures { IfOk result (λ value.
        option_map (λ value. value.items) value ≡ joined_value name.now list.now) }
{
    let mut value = None;
    for field in list.iter() {
        if field.name == name {
            value = Some(with_line(alloc, value, field.value)?);
        }
    }
    Ok(value)
}

/// A value with one more line.
fn with_line(alloc: Global, value: Option<Vec<u8>>, line: &[u8]) -> Result<Vec<u8>, AllocError>
    ensures { IfOk result (λ joined.
        joined.items ≡ with_line (option_map (λ value. value.items) value) line.now) }
{
    let Some(mut joined) = value else {
        return Vec::from_slice(alloc, line);
    };
    joined.extend_from_slice(b", ")?;
    joined.extend_from_slice(line)?;
    Ok(joined)
}
