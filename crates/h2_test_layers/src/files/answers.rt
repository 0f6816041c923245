//! Validators, conditions and ranges.

use h2_files::{
    Answer, Conditions, Method, Ranged, Version, content_range, range_of, segments_are_names,
    unsatisfied_range,
};
use std::alloc::{AllocError, Global};

/// The second of the dates in RFC 9110, section 5.6.7.
const MODIFIED: u64 = 784_111_777;

// A request without conditions.
const PLAIN: Conditions<'static> = Conditions {
    if_match: None,
    if_none_match: None,
    if_modified_since: None,
    if_unmodified_since: None,
    if_range: None,
    range: None,
};

/// Whether a version has these validators.
fn has_validators(alloc: Global, weak: bool, etag: &str) -> Result<bool, AllocError> {
    let version = Version::new(alloc, 10, MODIFIED, weak)?;
    let is_dated = version.last_modified().is_some_and(|date| date.as_slice()
        == b"Sun, 06 Nov 1994 08:49:37 GMT".as_slice());
    Ok(version.etag(alloc)?.as_str() == etag && is_dated)
}

#[test]
fn validators(rt: HostRuntime) -> Result<(), AllocError> {
    assert!(rt; has_validators(rt.alloc(), false, "\"784111777-10\"")?);
    assert!(rt; has_validators(rt.alloc(), true, "W/\"784111777-10\"")?);
    let late = Version::new(rt.alloc(), 0, 253_402_300_800, false)?;
    assert!(rt; late.last_modified().is_none());
    Ok(())
}

#[test]
fn answers(rt: HostRuntime) -> Result<(), AllocError> {
    let version = Version::new(rt.alloc(), 10, MODIFIED, false)?;
    let tag = Some(b"\"784111777-10\"".as_slice());
    let other = Some(b"\"a\"".as_slice());
    let date = Some(b"Sun, 06 Nov 1994 08:49:37 GMT".as_slice());
    let range = Some(b"bytes=1-2".as_slice());
    let part = Answer::Part { first: 1, last: 2 };
    let rows = [
        (PLAIN, Answer::Whole, 200),
        (Conditions { range, ..PLAIN }, part, 206),
        (
            Conditions {
                range,
                if_range: tag,
                ..PLAIN
            },
            part,
            206,
        ),
        (
            Conditions {
                range,
                if_range: other,
                ..PLAIN
            },
            Answer::Whole,
            200,
        ),
        (
            Conditions {
                if_none_match: tag,
                ..PLAIN
            },
            Answer::NotModified,
            304,
        ),
        (
            Conditions {
                if_none_match: other,
                ..PLAIN
            },
            Answer::Whole,
            200,
        ),
        (
            Conditions {
                if_modified_since: date,
                ..PLAIN
            },
            Answer::NotModified,
            304,
        ),
        (
            Conditions {
                if_match: other,
                ..PLAIN
            },
            Answer::PreconditionFailed,
            412,
        ),
        (
            Conditions {
                if_unmodified_since: date,
                ..PLAIN
            },
            Answer::Whole,
            200,
        ),
    ];
    for (conditions, wanted, status) in rows {
        assert_eq!(rt; conditions.answer(Method::Get, &version), wanted);
        assert_eq!(rt; wanted.status(), status);
    }
    let asked = Conditions { range, ..PLAIN };
    assert_eq!(rt; asked.answer(Method::Head, &version), Answer::Whole);
    Ok(())
}

#[test]
fn ranges(rt: HostRuntime) -> Result<(), AllocError> {
    let rows = [
        ("bytes=-4", Ranged::Part { first: 6, last: 9 }),
        ("bytes=10-", Ranged::Unsatisfiable),
        ("bytes=0-1,3-4", Ranged::Ignored),
    ];
    for (value, wanted) in rows {
        assert_eq!(rt; range_of(value.as_bytes(), 10), wanted, "{value}");
    }
    let written = content_range(rt.alloc(), 6, 9, 10)?;
    assert_eq!(rt; written.as_str(), "bytes 6-9/10");
    assert_eq!(rt; unsatisfied_range(rt.alloc(), 10)?.as_str(), "bytes */10");
    segments_are_names();
    Ok(())
}
