//! Conditions by the date of a version (RFC 9110, section 13.1).

ghost use Rattle.std.specs.Prelude.{◌≡◌};
ghost use Rattle.httpdate.specs.Date.{parse_secs};

use crate::version::Version;
use httpdate::HttpDate;

impl Version {
    ghost use Rattle.h2_files.specs.Conditions.{holds_modified_since, holds_range};
    ghost use Rattle.h2_files.specs.Conditions.{holds_unmodified_since};
    ghost use Rattle.h2_files.specs.Tags.{validators_of};

    /// Whether it was modified after a date, or that is none (RFC 9110, section 13.1.3).
    pub(crate) fn holds_modified_since(&self, value: &[u8]) -> bool
        ensures { result ≡ holds_modified_since (validators_of self.now) value.now }
    {
        match seconds_of(value) {
            Some(seconds) => self.modified > seconds,
            None => true,
        }
    }

    /// Whether it was not modified after a date, or that is none (RFC 9110, section 13.1.4).
    pub(crate) fn holds_unmodified_since(&self, value: &[u8]) -> bool
        ensures { result ≡ holds_unmodified_since (validators_of self.now) value.now }
    {
        match seconds_of(value) {
            Some(seconds) => self.modified <= seconds,
            None => true,
        }
    }

    /// Whether it is the version of a field `if-range`, by its tag or its date (RFC 9110, section
    /// 13.1.5).
    pub(crate) fn holds_range(&self, value: &[u8]) -> bool
        ensures { result ≡ holds_range (validators_of self.now) value.now }
    {
        if self.is_strongly(value) {
            return true;
        }
        match seconds_of(value) {
            Some(seconds) => !self.weak && self.modified == seconds,
            None => false,
        }
    }
}

/// The second of a date, in any of its three forms (RFC 9110, section 5.6.7).
fn seconds_of(value: &[u8]) -> Option<u64>
    ensures { result ≡ parse_secs value.now }
{
    match HttpDate::parse_ascii(value) {
        Ok(date) => Some(date.unix_secs()),
        Err(_) => None,
    }
}
