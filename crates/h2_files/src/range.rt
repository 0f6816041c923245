//! One range of a file, by the field `range` of a request (RFC 9110, section 14).

ghost use Rattle.std.specs.Prelude.{◌≡◌, IfOk, option_and_then, option_map, string_bytes};
ghost use Rattle.std.specs.Char.{is_ascii_digit};
ghost use Rattle.std.specs.List.{list_all};
ghost use Rattle.h2_files.specs.Ranges.{LiesWithin, after_unit, content_range, number_of_digits};
ghost use Rattle.h2_files.specs.Ranges.{octets_of_range, range_of, spec_of, spec_of_texts};
ghost use Rattle.h2_files.specs.Ranges.{unsatisfied_range};

use crate::cut::divide;
use std::alloc::{AllocError, Global};

/// What a field `range` asks for.
#[derive(Clone, Copy, Debug, PartialEq, Eq, Hash)]
pub enum Ranged {
    /// The field is ignored: the answer is the whole file, with 200.
    Ignored,
    /// These octets, from the first to the last, of which the file's first has number 0: 206.
    Part {
        /// The first octet.
        first: u64,
        /// The last octet, which is no less than the first.
        last: u64,
    },
    /// No octets of the file: 416.
    Unsatisfiable,
}

/// One range, as it stands in the field (RFC 9110, section 14.1.2).
#[derive(Clone, Copy, Debug, PartialEq, Eq, Hash)]
pub(crate) enum RangeSpec {
    /// From an octet to the end.
    From(u64),
    /// From an octet to another one.
    Between(u64, u64),
    /// So many octets at the end.
    Suffix(u64),
}

// contract: HTTP 14.2 One range gives octets of the file, is ignored, or has 416
/// What the value of a field `range` asks for of a file of so many octets.
///
/// It is ignored where it is malformed, has another unit than `bytes`, several ranges, or a number
/// of 2^64 or more: a server may ignore any range (RFC 9110, section 14.2).
pub fn range_of(value: &[u8], length: u64) -> Ranged
    ensures exact { result ≡ range_of value.now length }
    ensures within { LiesWithin length result }
{
    match range_spec(value) {
        Some(spec) => spec.octets_of_range(length),
        None => Ranged::Ignored,
    }
}

/// The field `content-range` of an answer 206 with these octets of a file of so many (RFC 9110,
/// section 14.4).
///
/// # Errors
///
/// Where memory is missing.
pub fn content_range(
    alloc: Global,
    first: u64,
    last: u64,
    length: u64,
) -> Result<String, AllocError>
    ensures { IfOk result (λ text. string_bytes text ≡ content_range first last length) }
{
    format!(in alloc; "bytes {first}-{last}/{length}")
}

/// The field `content-range` of an answer 416 of a file of so many octets (RFC 9110, section
/// 15.5.17).
///
/// # Errors
///
/// Where memory is missing.
pub fn unsatisfied_range(alloc: Global, length: u64) -> Result<String, AllocError>
    ensures { IfOk result (λ text. string_bytes text ≡ unsatisfied_range length) }
{
    format!(in alloc; "bytes */{length}")
}

impl RangeSpec {
    // rule: HTTP 14.2 One range gives octets of the file, is ignored, or has 416
    /// Which octets it means of a file of so many.
    #[tactic(auto, unfolding(crate::specs::Ranges::octets_of_range))]
    fn octets_of_range(self, length: u64) -> Ranged
        ensures exact { result ≡ octets_of_range self length }
        ensures within { LiesWithin length result }
    {
        match self {
            RangeSpec::From(first) if first < length => Ranged::Part {
                first,
                last: length - 1,
            },
            RangeSpec::Between(first, last) if last < first => Ranged::Ignored,
            RangeSpec::Between(first, last) if first < length => Ranged::Part {
                first,
                last: last.min(length - 1),
            },
            RangeSpec::Suffix(count) if count > 0 && length == 0 => Ranged::Ignored,
            RangeSpec::Suffix(count) if count > 0 => Ranged::Part {
                first: length.saturating_sub(count),
                last: length - 1,
            },
            _ => Ranged::Unsatisfiable,
        }
    }
}

/// The range that a field has, if it has one of octets.
fn range_spec(value: &[u8]) -> Option<RangeSpec>
    ensures { result ≡ option_and_then spec_of (after_unit value.now) }
{
    spec_of(after_unit(value)?)
}

/// What stands after the unit `bytes` and its sign, in any case (RFC 9110, section 14.1).
#[tactic(auto, unfolding(crate::specs::Ranges::after_unit))]
fn after_unit(value: &[u8]) -> Option<&[u8]>
    ensures { option_map (λ text. text.now) result ≡ after_unit value.now }
{
    let (unit, text) = value.split_at_checked(6)?;
    if unit.eq_ignore_ascii_case(b"bytes=") {
        Some(text)
    } else {
        None
    }
}

/// The range of a text without its unit.
fn spec_of(text: &[u8]) -> Option<RangeSpec>
    ensures { result ≡ spec_of text.now }
{
    let (first, last) = divide(text, b'-')?;
    spec_of_texts(first, last)
}

/// A range with these texts before and after its dash.
#[tactic(auto, unfolding(crate::specs::Ranges::spec_of_texts))]
fn spec_of_texts(first: &[u8], last: &[u8]) -> Option<RangeSpec>
    ensures { result ≡ spec_of_texts first.now last.now }
{
    if first.is_empty() {
        return Some(RangeSpec::Suffix(number_of_digits(last)?));
    }
    let first = number_of_digits(first)?;
    if last.is_empty() {
        return Some(RangeSpec::From(first));
    }
    Some(RangeSpec::Between(first, number_of_digits(last)?))
}

/// Returns the number that one or more decimal digits write, if it is below 2^64. `None` for any
/// other text.
pub fn number_of_digits(digits: &[u8]) -> Option<u64>
    ensures { result ≡ number_of_digits digits.now }
{
    if !are_digits(digits) {
        return None;
    }
    let text = str::from_utf8(digits).ok()?;
    text.parse::<u64>().ok()
}

/// Decimal digits alone.
fn are_digits(octets: &[u8]) -> bool
    ensures { result ≡ list_all is_ascii_digit octets.now }
{
    octets.iter().all(|octet| octet.is_ascii_digit())
}
