//! Answers requests with the files of a folder.

ghost use Rattle.std.specs.Prelude.{◌≡◌, ◌≢◌, IfOk, IfSome, Ok, Some, drop, false};
ghost use Rattle.std.specs.Prelude.{length, option_copied, take, true};
ghost use Rattle.hpack.specs.FieldLists.{value_of};
ghost use Rattle.h2_files.specs.Conditions.{file_answer};
ghost use Rattle.h2_files.specs.Dates.{IsLastModified};
ghost use Rattle.h2_files.specs.Paths.{texts};
ghost use Rattle.h2_files.specs.Tags.{validators, validators_of};
ghost use Rattle.h2_folder.specs.Answering.{AnswersFile, AnswersMethod, AnswersRequest};
ghost use Rattle.h2_folder.specs.Answering.{AnswersSomeFile};
ghost use Rattle.h2_folder.specs.Answering.{HasNoOctets, SendsFile, first_octet_of, has_content};
ghost use Rattle.h2_folder.specs.Answering.{is_weak_at, kind_of_names, octets_of_file, value_in};
ghost use Rattle.h2_folder.specs.FoundFiles.{IsSmallIfRead, SendsParts, found_length};
ghost use Rattle.h2_folder.specs.FoundFiles.{found_modified};
ghost use Rattle.h2_folder.specs.Heads.{file_head};
ghost use Rattle.h2_folder.specs.Lines.{asked_in};
ghost use Rattle.h2_folder.specs.Recents.{IsPlainHead};
ghost use Rattle.h2_folder.specs.Times.{IsDateOf, stated_second};

use crate::find::{Found, find, recent_at};
use crate::lines::{Lines, is_plain};
use crate::messages::{
    About, file_head, method_message, octets_of_part, short_message, unsatisfied_message,
};
use crate::recent::Recent;
use crate::sending::Sending;
use h2_files::{Answer, Method, Version, file_names, media_type};
use h2_message::{Field, FieldList, Message};
use httpdate::HttpDate;
use std::alloc::{AllocError, Global};
use std::fs::Files;
use std::io::{Read, Seek};
use std::time::Clock;

/// Serves the files below a folder.
#[derive(Drop)]
pub struct Folder<'a, R> {
    /// The file system and the clock.
    pub rt: &'a R,
    /// The path of the folder.
    pub root: &'a str,
    /// A cache of the folder's small files for one second; `None` to read the file system for
    /// each request.
    pub recent: Option<&'a Recent>,
}

/// The answer to a request.
#[derive(Drop)]
pub enum Answered<F> {
    /// A complete message.
    Whole(Message),
    /// A head, and one or more octets of a file.
    Parts(Vec<Field>, Sending<F>),
}

impl<'a, R: Files + Clock> Folder<'a, R> {
    // contract: files (own) What is not there has 404, and what may not be read has 403
    /// Returns the answer to a request with this head.
    ///
    /// # Errors
    ///
    /// [`AllocError`] if an allocation was refused.
    pub fn answer(&self, alloc: Global, list: &FieldList) -> Result<Answered<R::File>, AllocError>
        ensures { IfOk result (AnswersRequest list.now) }
    {
        let now = seconds_now(self.rt);
        let name = value_in(list, b":method");
        let Some(method) = Method::of(name) else {
            return Ok(Answered::Whole(method_message(alloc, date_in(now))?));
        };
        let path = value_in(list, b":path");
        match file_names(alloc, path) {
            Ok(names) => self.answer_named(alloc, method, list, &names, now),
            Err(fault) => {
                let (date, has_body) = (date_in(now), has_content(method));
                let message = short_message(alloc, fault.status(), date, has_body)?;
                Ok(Answered::Whole(message))
            }
        }
    }

    /// The answer to a request for the file with these names, at a second.
    fn answer_named(
        &self,
        alloc: Global,
        method: Method,
        list: &FieldList,
        names: &[String],
        now: u64,
    ) -> Result<Answered<R::File>, AllocError>
        ensures { IfOk result
            (AnswersMethod (Some method) (Ok (texts names.now)) (asked_in list.now)) }
    {
        if let Some(kept) = kept_answer(alloc, method, list, names, self.recent, now) {
            return Ok(kept);
        }
        let date = date_in(now);
        match find(self.rt, alloc, self.root, names, self.recent, now) {
            Ok(found) => answer_at(alloc, method, list, names, found, now, date),
            Err(missing) => {
                let has_body = has_content(method);
                let message = short_message(alloc, missing.status(), date, has_body)?;
                Ok(Answered::Whole(message))
            }
        }
    }
}

// contract: files (own) What a small file had in a second is answered in that second alone
/// The answer to a GET without conditions for a small file read in this second; none for any
/// other request, and if the file is not cached.
fn kept_answer<F>(
    alloc: Global,
    method: Method,
    list: &FieldList,
    names: &[String],
    recent: Option<&Recent>,
    now: u64,
) -> Option<Answered<F>>
    ensures { IfSome result (AnswersSomeFile method (texts names.now) (asked_in list.now)) }
{
    let Method::Get = method else {
        return None;
    };
    let recent = recent_at(recent, now)?;
    if !is_plain(list) {
        return None;
    }
    let message = recent.answer(alloc, names, now)?;
    Some(Answered::Whole(message))
}

/// The head of the answer to a GET without conditions, at `second`, for a small file with these
/// names and octets, last modified at `modified`.
pub(crate) fn plain_head(
    alloc: Global,
    names: &[String],
    second: u64,
    modified: u64,
    octets: &[u8],
) -> Result<Vec<Field>, AllocError>
    ensures { IfOk result (λ head. IsPlainHead (texts names.now) second modified
        (length octets.now) head.items) }
{
    let length = octets.len() as u64;
    let version = Version::new(alloc, length, modified, is_weak(modified, second))?;
    let about = About {
        kind: kind_of(names),
        date: date_in(second),
        modified: modified_of(modified, second),
    };
    file_head(alloc, Answer::Whole, &version, about)
}

/// The answer to a request for an existing file, at a second with this date.
fn answer_at<F: Read + Seek + Drop>(
    alloc: Global,
    method: Method,
    list: &FieldList,
    names: &[String],
    found: Found<F>,
    now: u64,
    date: Option<[u8; 29]>,
) -> Result<Answered<F>, AllocError>
    requires date { IsDateOf now date }
    requires small { IsSmallIfRead found }
    ensures { IfOk result (AnswersSomeFile method (texts names.now) (asked_in list.now)) }
{
    let version = version_of(alloc, &found, now)?;
    let about = About {
        kind: kind_of(names),
        date,
        modified: modified_of(found.modified(), now),
    };
    answer_found(alloc, method, list, found, &version, about)
}

/// The answer to a request for an existing file of this version, with these dates.
fn answer_found<F: Read + Seek + Drop>(
    alloc: Global,
    method: Method,
    list: &FieldList,
    found: Found<F>,
    version: &Version,
    about: About<'_>,
) -> Result<Answered<F>, AllocError>
    requires small { IsSmallIfRead found }
    requires length { found_length found ≡ version.now.length }
    ensures { IfOk result (AnswersFile
        (file_answer (validators_of version.now) method (asked_in list.now)) method
        (validators_of version.now) about.entry.kind.now about.entry.date about.entry.modified) }
{
    let lines = Lines::of(alloc, list)?;
    let answer = lines.conditions().answer(method, version);
    match answer {
        Answer::PreconditionFailed => {
            let has_body = has_content(method);
            let message = short_message(alloc, 412, about.date, has_body)?;
            Ok(Answered::Whole(message))
        }
        Answer::Unsatisfiable => {
            let message = unsatisfied_message(alloc, version.length, about.date)?;
            Ok(Answered::Whole(message))
        }
        _ => send_found(alloc, method, answer, found, version, about),
    }
}

// contract: HTTP 9.3.2 (own) A folder answers HEAD as GET, without the octets
// rule: HTTP 9.3.2 (own) A folder answers HEAD as GET, without the octets
/// The answer for a file: the head, and the octets, if it has some.
fn send_found<F: Read + Seek + Drop>(
    alloc: Global,
    method: Method,
    answer: Answer,
    found: Found<F>,
    version: &Version,
    about: About<'_>,
) -> Result<Answered<F>, AllocError>
    requires small { IsSmallIfRead found }
    requires length { found_length found ≡ version.now.length }
    ensures { IfOk result (SendsFile method (file_head answer (validators_of version.now)
        about.entry.kind.now about.entry.date about.entry.modified) version.now.length
        (first_octet_of answer) (octets_of_file answer version.now.length) about.entry.date) }
{
    let head = file_head(alloc, answer, version, about)?;
    let count = octets_of_file(answer, version.length);
    if has_no_octets(method, count) {
        return Ok(Answered::Whole(Message {
            head,
            body: Vec::new(alloc),
            trailers: None,
        }));
    }
    let first = first_octet_of(answer);
    match found {
        Found::Small { octets, .. } => Ok(Answered::Whole(Message {
            head,
            body: part_of(alloc, octets, first, count)?,
            trailers: None,
        })),
        Found::Open { file, .. } => send_parts(alloc, file, head, first, count, about.date),
    }
}

// contract: files (own) A file's octets are sent from the one that the answer's head states
// rule: files (own) A file's octets are sent from the one that the answer's head states
/// Up to `count` of a file's octets, from octet number `first` on, counted from 0.
fn part_of(alloc: Global, octets: Vec<u8>, first: u64, count: u64) -> Result<Vec<u8>, AllocError>
    ensures { IfOk result (λ part. part.items ≡ take count (drop first octets.items)) }
{
    let (first, count) = (first as usize, count as usize);
    if first == 0 {
        let mut octets = octets;
        octets.truncate(count);
        return Ok(octets);
    }
    match octets.get(first..) {
        Some(rest) => Vec::from_slice(alloc, &rest[..count.min(rest.len())]),
        None => Ok(Vec::new(alloc)),
    }
}

/// An answer with a head and `count` octets of an open file, from octet number `first` on; or
/// 500 if the file cannot be read from there.
fn send_parts<F: Read + Seek + Drop>(
    alloc: Global,
    file: F,
    head: Vec<Field>,
    first: u64,
    count: u64,
    date: Option<[u8; 29]>,
) -> Result<Answered<F>, AllocError>
    ensures { IfOk result (SendsParts head.items first count date) }
{
    match Sending::new(file, first, count) {
        Some(sending) => Ok(Answered::Parts(head, sending)),
        None => {
            let message = short_message(alloc, 500, date, true)?;
            Ok(Answered::Whole(message))
        }
    }
}

/// The number of the first octet that an answer has, counted from 0.
fn first_octet_of(answer: Answer) -> u64
    ensures { result ≡ first_octet_of answer }
{
    match answer {
        Answer::Part { first, .. } => first,
        _ => 0,
    }
}

/// The number of a file's octets that an answer has.
fn octets_of_file(answer: Answer, length: u64) -> u64
    ensures { result ≡ octets_of_file answer length }
{
    match answer {
        Answer::Whole => length,
        Answer::Part { first, last } => octets_of_part(first, last),
        _ => 0,
    }
}

/// Whether an answer to this method for `count` octets has no content.
fn has_no_octets(method: Method, count: u64) -> bool
    ensures none { result ≡ true → HasNoOctets method count }
    ensures some { result ≡ false → (method ≡ Method.Get) × (count ≢ 0) }
{
    match method {
        Method::Get => count == 0,
        Method::Head => true,
    }
}

/// Whether an answer has content.
fn has_content(method: Method) -> bool
    ensures { result ≡ has_content method }
{
    match method {
        Method::Get => true,
        Method::Head => false,
    }
}

/// The value of the first field with a name.
fn value_of<'a>(list: &'a FieldList, name: &[u8]) -> Option<&'a [u8]>
    ensures { option_copied result ≡ value_of name.now list.entry.now }
{
    match list.value(name) {
        Some(value) => Some(value),
        None => None,
    }
}

/// Returns the value of a field that each request has, or an empty one.
pub fn value_in<'a>(list: &'a FieldList, name: &[u8]) -> &'a [u8]
    ensures { result.now ≡ value_in name.now list.entry.now }
{
    match value_of(list, name) {
        Some(value) => value,
        None => b"",
    }
}

/// The version of a file found at this time.
fn version_of<F>(alloc: Global, found: &Found<F>, now: u64) -> Result<Version, AllocError>
    ensures { IfOk result (λ version. validators_of version
        ≡ validators (found_length found.now) (found_modified found.now)
        (is_weak_at (found_modified found.now) now)) }
{
    let modified = found.modified();
    Version::new(alloc, found.length(), modified, is_weak(modified, now))
}

/// Whether a file may still change in the second in which it was modified. Clocks of file
/// systems may be slightly late.
fn is_weak(modified: u64, now: u64) -> bool
    ensures { result ≡ is_weak_at modified now }
{
    now <= modified.saturating_add(1)
}

/// The type of the file with the last of these names.
fn kind_of(names: &[String]) -> &'static str
    ensures { result.now ≡ kind_of_names (texts names.now) }
{
    match names.last() {
        Some(name) => media_type(name.as_str()),
        None => media_type(""),
    }
}

/// The time in seconds since 1970; 0 if it is unknown.
fn seconds_now<R: Clock>(clock: &R) -> u64 {
    match clock.since_1970() {
        Ok(time) => time.as_secs(),
        Err(_) => 0,
    }
}

/// The field `date`, if the time is known.
fn date_in(now: u64) -> Option<[u8; 29]>
    ensures { IsDateOf now result }
{
    if now == 0 {
        return None;
    }
    date_of(now)
}

// contract: HTTP 8.8.2.1 `last-modified` is never later than `date`
// rule: HTTP 8.8.2.1 `last-modified` is never later than `date`
/// The field `last-modified` of a file modified in one second, in an answer of another.
fn modified_of(modified: u64, now: u64) -> Option<[u8; 29]>
    ensures { IsLastModified (stated_second modified now) result }
{
    let stated = if now == 0 {
        modified
    } else {
        modified.min(now)
    };
    date_of(stated)
}

/// The date of a second since 1970 (RFC 9110, section 5.6.7); none from the year 10000 on.
fn date_of(second: u64) -> Option<[u8; 29]>
    ensures { IsLastModified second result }
{
    match HttpDate::from_unix_secs(second) {
        Ok(date) => Some(date.to_bytes()),
        Err(_) => None,
    }
}
