//! Which answer a request for a file has, by its conditions and its range.

ghost use Rattle.std.specs.Prelude.{◌≡◌, option_copied};
ghost use Rattle.h2_files.specs.Conditions.{answer_of_range};

use crate::methods::Method;
use crate::range::{Ranged, range_of};
use crate::version::Version;

/// What is sent for a file that is there.
#[derive(Clone, Copy, Debug, PartialEq, Eq, Hash)]
pub enum Answer {
    /// The whole file: 200.
    Whole,
    /// These octets of it, of which the first has number 0: 206.
    Part {
        /// The first octet.
        first: u64,
        /// The last octet, which is no less than the first and lies in the file.
        last: u64,
    },
    /// Its fields alone: 304.
    NotModified,
    /// Nothing of it: 412.
    PreconditionFailed,
    /// Nothing of it but its length: 416.
    Unsatisfiable,
}

impl Answer {
    ghost use Rattle.h2_files.specs.Conditions.{status_of_answer};

    /// The status of the answer.
    pub fn status(self) -> u16
        ensures { result ≡ status_of_answer self }
    {
        match self {
            Answer::Whole => 200,
            Answer::Part { .. } => 206,
            Answer::NotModified => 304,
            Answer::PreconditionFailed => 412,
            Answer::Unsatisfiable => 416,
        }
    }
}

/// The fields of a request that decide which answer it has: their values, if they are there.
///
/// A field that stands in several lines has their values joined by commas (RFC 9110, section 5.3).
#[derive(Clone, Copy, Debug)]
pub struct Conditions<'a> {
    /// `if-match` (RFC 9110, section 13.1.1).
    pub if_match: Option<&'a [u8]>,
    /// `if-none-match` (RFC 9110, section 13.1.2).
    pub if_none_match: Option<&'a [u8]>,
    /// `if-modified-since` (RFC 9110, section 13.1.3).
    pub if_modified_since: Option<&'a [u8]>,
    /// `if-unmodified-since` (RFC 9110, section 13.1.4).
    pub if_unmodified_since: Option<&'a [u8]>,
    /// `if-range` (RFC 9110, section 13.1.5).
    pub if_range: Option<&'a [u8]>,
    /// `range` (RFC 9110, section 14.2).
    pub range: Option<&'a [u8]>,
}

impl Conditions<'_> {
    ghost use Rattle.h2_files.specs.Conditions.{file_answer, asked_of, passes_first};
    ghost use Rattle.h2_files.specs.Conditions.{passes_second, range_answer};
    ghost use Rattle.h2_files.specs.Tags.{validators_of};

    // contract: HTTP 8.8.3 A tag means a version by the strong or the weak comparison
    // rule: HTTP 13.2.2 Conditions are evaluated in one order, before a range
    // contract: HTTP 13.2.2 Conditions are evaluated in one order, before a range
    /// Which answer a request for this version has (RFC 9110, section 13.2.2).
    pub fn answer(&self, method: Method, version: &Version) -> Answer
        ensures { result ≡ file_answer (validators_of version.now) method (asked_of self.now) }
    {
        if !self.passes_first(version) {
            return Answer::PreconditionFailed;
        }
        if !self.passes_second(version) {
            return Answer::NotModified;
        }
        self.range_answer(method, version)
    }

    /// `if-match`, and without it `if-unmodified-since`: steps 1 and 2.
    fn passes_first(&self, version: &Version) -> bool
        ensures { result ≡ passes_first (validators_of version.now)
            (option_copied self.now.if_match) (option_copied self.now.if_unmodified_since) }
    {
        match (self.if_match, self.if_unmodified_since) {
            (Some(tags), _) => version.is_listed_strongly(tags),
            (None, Some(date)) => version.holds_unmodified_since(date),
            (None, None) => true,
        }
    }

    /// `if-none-match`, and without it `if-modified-since`: steps 3 and 4.
    fn passes_second(&self, version: &Version) -> bool
        ensures { result ≡ passes_second (validators_of version.now)
            (option_copied self.now.if_none_match) (option_copied self.now.if_modified_since) }
    {
        match (self.if_none_match, self.if_modified_since) {
            (Some(tags), _) => !version.is_listed_weakly(tags),
            (None, Some(date)) => version.holds_modified_since(date),
            (None, None) => true,
        }
    }

    /// The octets that a range of GET asks for, where `if-range` lets it: steps 5 and 6.
    fn range_answer(&self, method: Method, version: &Version) -> Answer
        ensures { result ≡ range_answer (validators_of version.now) method
            (option_copied self.now.range) (option_copied self.now.if_range) }
    {
        let (Method::Get, Some(range)) = (method, self.range) else {
            return Answer::Whole;
        };
        match self.if_range {
            Some(value) if !version.holds_range(value) => Answer::Whole,
            _ => answer_of_range(range_of(range, version.length)),
        }
    }
}

/// The answer with the octets that a range asks for.
fn answer_of_range(range: Ranged) -> Answer
    ensures { result ≡ answer_of_range range }
{
    match range {
        Ranged::Ignored => Answer::Whole,
        Ranged::Part { first, last } => Answer::Part { first, last },
        Ranged::Unsatisfiable => Answer::Unsatisfiable,
    }
}
