//! Debug forms in HPACK, and octets of the program.

use super::coders::Coders;
use hpack::{Field, FieldRef, Octets};
use std::alloc::Global;

// Whether a debug form shows a field's value, 0b1621; none where it shows neither that nor that
// the field is sensitive, or both.
fn is_value_shown(text: &str) -> Option<bool> {
    match (
        text.contains("b\"\\x0b\\x16!\""),
        text.contains("[sensitive]"),
    ) {
        (true, false) => Some(true),
        (false, true) => Some(false),
        _ => None,
    }
}

// Whether the value of a field is shown.
fn is_field_shown(alloc: Global, sensitive: bool) -> Option<bool> {
    let field = Field::copy_of(alloc, b"a", b"\x0b\x16\x21", sensitive).ok()?;
    let text = format!(in alloc; "{field:?}").ok()?;
    is_value_shown(text.as_str())
}

// Whether the value of a field that is lent is shown.
fn is_lent_shown(alloc: Global, sensitive: bool) -> Option<bool> {
    let field = FieldRef {
        name: b"a",
        value: b"\x0b\x16\x21",
        sensitive,
    };
    let text = format!(in alloc; "{field:?}").ok()?;
    is_value_shown(text.as_str())
}

// Whether the value of the field of a block is shown in the debug form of a list.
fn is_list_shown(alloc: Global, octets: &[u8]) -> Option<bool> {
    let mut coders = Coders::new(alloc, 4096)?;
    if !coders.keeps(octets, u32::MAX, Some(1)) {
        return None;
    }
    is_value_shown(coders.shown_list()?.as_str())
}

/// The value of a sensitive field isn't shown; that of another is.
#[test]
fn debug_form_of_fields(rt: HostRuntime) {
    assert!(rt;
        is_field_shown(rt.alloc(), true) == Some(false)
            && is_field_shown(rt.alloc(), false) == Some(true)
            && is_lent_shown(rt.alloc(), true) == Some(false)
            && is_lent_shown(rt.alloc(), false) == Some(true)
    );
}

// rule: HPACK 3.2 (own) A kept list says its fields and their number
/// The same in a list.
#[test]
fn debug_form_of_a_list(rt: HostRuntime) {
    assert!(rt;
        is_list_shown(rt.alloc(), b"\x10\x01a\x03\x0b\x16\x21") == Some(false)
            && is_list_shown(rt.alloc(), b"\x00\x01a\x03\x0b\x16\x21") == Some(true)
    );
}

// Whether a text is this one.
fn is_text(text: Option<String>, expected: &str) -> bool {
    match text {
        Some(text) => text.as_str() == expected,
        None => false,
    }
}

// Whether this is the debug form of the entry that a block adds.
fn is_entry(alloc: Global, octets: &[u8], shown: &str) -> bool {
    match Coders::new(alloc, 4096) {
        Some(mut coders) => {
            coders.keeps(octets, u32::MAX, Some(1)) && is_text(coders.shown_entry(), shown)
        }
        None => false,
    }
}

// rule: HPACK 2.1 (own) The octets of a name and a value are those that were given
/// An entry is a name and a value.
#[test]
fn debug_form_of_entries(rt: HostRuntime) {
    let cookie = "Entry { name: b\"cookie\", value: b\"a=b\" }";
    assert!(rt;
        is_entry(rt.alloc(), b"\x40\x06cookie\x03a=b", cookie)
            && is_entry(
                rt.alloc(),
                b"\x40\x00\x00",
                "Entry { name: b\"\", value: b\"\" }"
            )
    );
}

// Whether this is the debug form of a new encoder.
fn is_encoder(alloc: Global, maximum: u32, shown: &str) -> bool {
    match Coders::new(alloc, maximum) {
        Some(coders) => is_text(coders.shown_encoder(), shown),
        None => false,
    }
}

#[test]
fn debug_form_of_an_encoder(rt: HostRuntime) {
    let shown = "Encoder { table: Table { len: 0, size: 0, maximum: 64 }, least: 64, limit: 64 }";
    assert!(rt; is_encoder(rt.alloc(), 64, shown));
}

/// Octets of the program are lent and shown as copies of them are.
#[test]
fn octets_of_the_program(rt: HostRuntime) {
    let octets = Octets::from_static(b":path");
    let shown = format!(in rt.alloc(); "{octets:?}").ok();
    assert!(rt; octets.as_slice() == b":path".as_slice() && is_text(shown, "b\":path\""));
}
