//! The name of one segment of a path (RFC 3986, section 3.3).

ghost use Rattle.std.specs.Prelude.{◌≡◌, string_bytes};
ghost use Rattle.std.specs.Char.{is_ascii_control};
ghost use Rattle.std.specs.List.{list_any};
ghost use Rattle.h2_files.specs.Paths.{GivesUnlessMemory, are_escapes, begins_with_dot};
ghost use Rattle.h2_files.specs.Paths.{checked_name, is_separator, last_name_of};
ghost use Rattle.h2_files.specs.Paths.{name_fault, name_of_segment, text_of_octets};

use crate::fault::PathFault;
use percent_encoding::percent_decode;
use std::alloc::Global;

/// The most octets of a name.
pub const MAX_NAME: usize = 255;

// rule: files (own) A path is cut at its slashes, and a segment decoded once
/// The name that a segment gives: its escapes are decoded once.
#[tactic(auto, unfolding(crate::specs::Paths::name_of_segment))]
pub(crate) fn name_of_segment(alloc: Global, segment: &[u8]) -> Result<String, PathFault>
    ensures { GivesUnlessMemory string_bytes result (name_of_segment segment.now) }
{
    if !are_escapes(segment) {
        return Err(PathFault::BadEscape);
    }
    let mut name = Vec::new(alloc);
    percent_decode(segment).append_to(&mut name)?;
    checked_name(name)
}

/// The name of the last segment: an empty one means the folder's index.
#[tactic(auto, unfolding(crate::specs::Paths::last_name_of))]
pub(crate) fn last_name_of(alloc: Global, segment: &[u8]) -> Result<String, PathFault>
    ensures { GivesUnlessMemory string_bytes result (last_name_of segment.now) }
{
    if segment.is_empty() {
        return Ok(String::from_str(alloc, "index.html")?);
    }
    name_of_segment(alloc, segment)
}

/// A name that is served, or the first reason why it isn't.
#[tactic(auto, unfolding(crate::specs::Paths::checked_name))]
fn checked_name(name: Vec<u8>) -> Result<String, PathFault>
    ensures { GivesUnlessMemory string_bytes result (checked_name name.items) }
{
    match name_fault(name.as_slice()) {
        Some(fault) => Err(fault),
        None => text_of_octets(name),
    }
}

/// Octets as a text.
fn text_of_octets(octets: Vec<u8>) -> Result<String, PathFault>
    ensures { GivesUnlessMemory string_bytes result (text_of_octets octets.items) }
{
    match String::from_utf8(octets) {
        Ok(text) => Ok(text),
        Err(_) => Err(PathFault::NotText),
    }
}

// rule: files (own) A name that leaves its folder, or is hidden, is refused
/// Why a name is not served, but for what is no text: the first reason.
#[tactic(auto, unfolding(crate::specs::Paths::name_fault))]
fn name_fault(name: &[u8]) -> Option<PathFault>
    ensures { result ≡ name_fault name.now }
{
    if name.is_empty() {
        Some(PathFault::Empty)
    } else if begins_with_dot(name) {
        Some(PathFault::Dot)
    } else if name.len() > MAX_NAME {
        Some(PathFault::LongName)
    } else if has_separator(name) {
        Some(PathFault::Separator)
    } else if has_control(name) {
        Some(PathFault::Control)
    } else {
        None
    }
}

/// Whether the first octet is a dot, as of `.`, `..` and hidden files.
fn begins_with_dot(name: &[u8]) -> bool
    ensures { result ≡ begins_with_dot name.now }
{
    matches!(name, [b'.', ..])
}

/// Whether an octet is a slash, which would divide a name, or a backslash.
fn has_separator(name: &[u8]) -> bool
    ensures { result ≡ list_any is_separator name.now }
{
    name.iter().any(|octet| is_separator(*octet))
}

/// Whether an octet is a control character of ASCII, as NUL.
fn has_control(name: &[u8]) -> bool
    ensures { result ≡ list_any is_ascii_control name.now }
{
    name.iter().any(|octet| octet.is_ascii_control())
}

/// Whether each `%` has two hexadecimal digits after it (RFC 3986, section 2.1).
fn are_escapes(segment: &[u8]) -> bool
    ensures { result ≡ are_escapes 0 segment.now }
{
    let mut due = 0u8;
    for octet in segment {
        if due > 0 {
            if !octet.is_ascii_hexdigit() {
                return false;
            }
            due -= 1;
        } else if *octet == b'%' {
            due = 2;
        }
    }
    due == 0
}

/// A slash, or a backslash.
fn is_separator(octet: u8) -> bool
    ensures { result ≡ is_separator octet }
{
    octet == b'/' || octet == b'\\'
}
