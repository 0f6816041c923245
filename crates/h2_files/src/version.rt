//! What a file's validators are made of (RFC 9110, section 8.8).

ghost use Rattle.std.specs.Prelude.{◌≡◌, ◌||◌, IfOk, codes, string_bytes};
ghost use Rattle.std.specs.Str.{bytes_eq};
ghost use Rattle.h2_files.specs.Dates.{IsLastModified};
ghost use Rattle.h2_files.specs.Tags.{is_any, opaque_part, opaque_tag, trimmed};

use httpdate::HttpDate;
use std::alloc::{AllocError, Global};

/// A version of a file, by its length and the time when it was modified.
#[derive(Debug, Drop)]
pub struct Version {
    /// The opaque part of its entity tag, with its quotes.
    pub opaque: String,
    /// How many octets it has.
    pub length: u64,
    /// When it was modified, in seconds after 1970.
    pub modified: u64,
    /// Whether it may have changed twice in that second, so that its validators are weak.
    pub weak: bool,
}

impl Version {
    ghost use Rattle.h2_files.specs.Tags.{entity_tag, is_in_list, is_listed, is_strongly};
    ghost use Rattle.h2_files.specs.Tags.{is_weakly, validators, validators_of};

    /// The version of a file of so many octets, modified so many seconds after 1970.
    ///
    /// It is `weak` where the file may change again in the second in which it was modified: two
    /// versions would have the same validators (RFC 9110, section 8.8.2.2).
    ///
    /// # Errors
    ///
    /// Where memory is missing.
    pub fn new(alloc: Global, length: u64, modified: u64, weak: bool) -> Result<Self, AllocError>
        ensures { IfOk result
            (λ version. validators_of version ≡ validators length modified weak) }
    {
        let opaque = opaque_tag(alloc, length, modified)?;
        Ok(Version {
            opaque,
            length,
            modified,
            weak,
        })
    }

    /// The field `etag` (RFC 9110, section 8.8.3).
    ///
    /// # Errors
    ///
    /// Where memory is missing.
    pub fn etag(&self, alloc: Global) -> Result<String, AllocError>
        ensures { IfOk result (λ tag. string_bytes tag ≡ entity_tag (validators_of self.now)) }
    {
        let mark = if self.weak { "W/" } else { "" };
        format!(in alloc; "{mark}{}", self.opaque)
    }

    /// The field `last-modified` (RFC 9110, section 8.8.2); none from the year 10000 on.
    pub fn last_modified(&self) -> Option<[u8; 29]>
        ensures { IsLastModified self.now.modified result }
    {
        let date = HttpDate::from_unix_secs(self.modified).ok()?;
        Some(date.to_bytes())
    }

    /// Whether `*`, or a list of tags, means this version by the strong comparison.
    pub(crate) fn is_listed_strongly(&self, value: &[u8]) -> bool
        ensures { result ≡ is_listed (is_strongly (validators_of self.now)) value.now }
    {
        is_any(value) || self.is_in_list_strongly(value)
    }

    /// Whether `*`, or a list of tags, means this version by the weak comparison.
    pub(crate) fn is_listed_weakly(&self, value: &[u8]) -> bool
        ensures { result ≡ is_listed (is_weakly (validators_of self.now)) value.now }
    {
        is_any(value) || self.is_in_list_weakly(value)
    }

    /// Whether an element of a list means this version by the strong comparison.
    fn is_in_list_strongly(&self, value: &[u8]) -> bool
        ensures { result ≡ is_in_list (is_strongly (validators_of self.now)) value.now }
    {
        value
            .split(|octet| *octet == b',')
            .any(|element| self.is_strongly(trimmed(element)))
    }

    /// Whether an element of a list means this version by the weak comparison.
    fn is_in_list_weakly(&self, value: &[u8]) -> bool
        ensures { result ≡ is_in_list (is_weakly (validators_of self.now)) value.now }
    {
        value
            .split(|octet| *octet == b',')
            .any(|element| self.is_weakly(trimmed(element)))
    }

    // rule: HTTP 8.8.3 A tag means a version by the strong or the weak comparison
    /// Whether a tag and this version's are strong and the same (RFC 9110, section 8.8.3.2).
    pub(crate) fn is_strongly(&self, tag: &[u8]) -> bool
        ensures { result ≡ is_strongly (validators_of self.now) tag.now }
    {
        !self.weak && tag == self.opaque.as_bytes()
    }

    // rule: HTTP 8.8.3 A tag means a version by the strong or the weak comparison
    /// Whether a tag and this version's have the same opaque part (RFC 9110, section 8.8.3.2).
    fn is_weakly(&self, tag: &[u8]) -> bool
        ensures { result ≡ is_weakly (validators_of self.now) tag.now }
    {
        opaque_part(tag) == self.opaque.as_bytes()
    }
}

/// The opaque part of a file's entity tag.
fn opaque_tag(alloc: Global, length: u64, modified: u64) -> Result<String, AllocError>
    ensures { IfOk result (λ tag. string_bytes tag ≡ opaque_tag length modified) }
{
    format!(in alloc; "\"{modified}-{length}\"")
}

/// The opaque part of an entity tag, without the mark of a weak one.
#[tactic(auto, unfolding(crate::specs::Tags::opaque_part))]
fn opaque_part(tag: &[u8]) -> &[u8]
    ensures { result.now ≡ opaque_part tag.now }
{
    match tag {
        [b'W', b'/', opaque @ ..] => opaque,
        _ => tag,
    }
}

// rule: HTTP 8.8.3 A tag means a version by the strong or the weak comparison
/// Whether a value is `*` alone, which means any version (RFC 9110, sections 13.1.1 and 13.1.2).
fn is_any(value: &[u8]) -> bool
    ensures { result ≡ is_any value.now }
{
    trimmed(value) == b"*".as_slice()
}

/// An element of a list without the blanks round it (RFC 9110, section 5.6.1).
fn trimmed(element: &[u8]) -> &[u8]
    ensures { result.now ≡ trimmed element.now }
{
    element.trim_ascii()
}
