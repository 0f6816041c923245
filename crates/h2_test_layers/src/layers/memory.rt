//! Refused allocations in HPACK. To see them refused, run the tests with an allocation that fails.

use super::coders::Coders;
use hpack::{Fault, Field};
use std::alloc::{AllocError, Global};

/// What can be read of a table and an output.
#[derive(Clone, Copy, PartialEq, Eq)]
struct Seen {
    octets: usize,
    entries: usize,
    size: usize,
    maximum: u32,
}

// What can be read of an encoder and its output.
fn seen_of(coders: &Coders, out: &[u8]) -> Seen {
    Seen {
        octets: out.len(),
        entries: coders.table().len(),
        size: coders.table().size(),
        maximum: coders.table().maximum(),
    }
}

// Encodes the fields, and once more where memory was refused: returns whether nothing had changed
// then, and the table has `entries` entries now.
fn encodes_again(coders: &mut Coders, fields: &[Field], out: &mut Vec<u8>, entries: usize) -> bool {
    let before = seen_of(coders, out);
    let encoded = match coders.encode(fields, out) {
        Err(Fault::Memory) => {
            seen_of(coders, out) == before && coders.encode(fields, out).is_ok()
        }
        found => found.is_ok(),
    };
    encoded && coders.table().len() == entries
}

// Whether forty new fields are encoded whole, and again by an octet each, while the limit changes.
fn nothing_changes(coders: &mut Coders, fields: &[Field], out: &mut Vec<u8>) -> bool {
    if !encodes_again(coders, fields, out, 17) {
        return false;
    }
    coders.set_limit(4096);
    if !encodes_again(coders, fields, out, 40) {
        return false;
    }
    let len = out.len();
    if !encodes_again(coders, fields, out, 40) || out.len() != len.saturating_add(40) {
        return false;
    }
    coders.set_limit(0);
    encodes_again(coders, &[], out, 0)
}

// `count` fields, each with a name and a value of its own.
fn new_fields(alloc: Global, count: u16) -> Result<Vec<Field>, AllocError> {
    let mut fields = Vec::new(alloc);
    for number in 0..count {
        let octets = number.to_be_bytes();
        fields.push(Field::copy_of(alloc, &octets, &octets, false)?)?;
    }
    Ok(fields)
}

// The same of new coders.
fn nothing_changes_at(alloc: Global, maximum: u32, count: u16) -> bool {
    let mut out = Vec::new(alloc);
    match (Coders::new(alloc, maximum), new_fields(alloc, count)) {
        (Some(mut coders), Ok(fields)) => nothing_changes(&mut coders, &fields, &mut out),
        _ => false,
    }
}

/// A list that is encoded again after memory was refused is found as the list is that was encoded
/// at once.
#[test]
fn nothing_changes_without_memory(rt: HostRuntime) {
    assert!(rt; nothing_changes_at(rt.alloc(), 640, 40));
}

/// An indexed field of each table, and literals, the first of them added: three fields.
const FIRST: &[u8] = b"\x82\x40\x01a\x01b\x04\x8c\xf1\xe3\xc2\xe5\xf2\x3a\x6b\xa0\xab\x90\xf4\xff";

/// The same fields, the second by its index.
const NEXT: &[u8] = b"\x82\xbe\x04\x8c\xf1\xe3\xc2\xe5\xf2\x3a\x6b\xa0\xab\x90\xf4\xff";

// The first of `blocks` blocks that is not decoded into a list that is kept, after the one that
// adds an entry. Each third list is above its limit.
fn first_not_kept(alloc: Global, blocks: usize) -> Option<usize> {
    let Some(mut coders) = Coders::new(alloc, 4096) else {
        return Some(usize::MAX);
    };
    if !coders.keeps(FIRST, u32::MAX, Some(3)) {
        return Some(usize::MAX);
    }
    for block in 0..blocks {
        let is_kept = match block % 3 {
            0 => coders.keeps(NEXT, 0, None),
            _ => coders.keeps(NEXT, u32::MAX, Some(3)),
        };
        if !is_kept {
            return Some(block);
        }
    }
    None
}

/// Blocks that add nothing to the table take no memory once the list has the room for them. So
/// `rt try --test --fail-alloc N`, by which the allocation N is refused, fails this test only for
/// a few first N, though it decodes hundreds of blocks.
#[test]
fn room_is_used_again(rt: HostRuntime) {
    assert_eq!(rt; first_not_kept(rt.alloc(), 300), None);
}
