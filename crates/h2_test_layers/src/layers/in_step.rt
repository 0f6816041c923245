//! An encoder and two decoders go through lists that are drawn in step.

use super::coders::Coders;
use super::draw::{Draw, MOST_FIELDS};
use hpack::{Field, list_size};
use std::alloc::Global;

/// The number of lists that go through each encoder.
const LISTS: usize = 600;

/// The maxima that they are made with, and the number of blocks of 64 at which limits are set.
const MAXIMA: [(u32, usize); 7] = [
    (0, 32),
    (40, 32),
    (100, 16),
    (256, 16),
    (1000, 8),
    (4096, 4),
    (65_536, 1),
];

// Sets up to three limits, at `often` of 64 blocks.
fn set_limits(draw: &mut Draw, coders: &mut Coders, often: usize) {
    if draw.below(64) >= often {
        return;
    }
    for _ in 0..draw.below(4) {
        coders.set_limit(draw.limit());
    }
}

// Whether a list goes through unchanged, or, one in eight of those with fields, with a limit just
// below its size.
fn passes(draw: &mut Draw, coders: &mut Coders, fields: &[Field]) -> bool {
    if draw.below(8) > 0 || fields.is_empty() {
        return coders.pass_whole(fields);
    }
    match u32::try_from(list_size(fields)) {
        Ok(size) => coders.pass_above(fields, size.saturating_sub(1)),
        Err(_) => false,
    }
}

// A list goes through; returns the number of its fields.
fn one_list(alloc: Global, draw: &mut Draw, coders: &mut Coders, often: usize) -> Option<usize> {
    set_limits(draw, coders, often);
    match draw.list(alloc) {
        Ok(fields) if passes(draw, coders, &fields) => Some(fields.len()),
        _ => None,
    }
}

// The most entries of the table, where lists go through new coders, more than ten of them with the
// most fields; else the first that doesn't go through.
fn most_entries(alloc: Global, maximum: u32, often: usize) -> Result<usize, usize> {
    let Some(mut coders) = Coders::new(alloc, maximum) else {
        return Err(usize::MAX);
    };
    let mut draw = Draw {
        state: u64::from(maximum),
    };
    let (mut longest, mut entries) = (0usize, 0usize);
    for place in 0..LISTS {
        match one_list(alloc, &mut draw, &mut coders, often) {
            Some(count) if count == MOST_FIELDS => longest = longest.saturating_add(1),
            Some(_) => {}
            None => return Err(place),
        }
        entries = entries.max(coders.table().len());
    }
    if longest > 10 {
        Ok(entries)
    } else {
        Err(LISTS)
    }
}

// Whether the lists go through at each maximum, and the table has more than 200 entries once, so
// that some indices take two octets.
fn all_pass(alloc: Global) -> bool {
    let mut largest = 0usize;
    for (maximum, often) in MAXIMA {
        match most_entries(alloc, maximum, often) {
            Ok(entries) => largest = largest.max(entries),
            Err(_) => return false,
        }
    }
    largest > 200
}

// rule (best): HPACK 3.1 What is encoded is a block of the list
// rule: HPACK 2.3.2 (own) The table that is lent is the decoder's or the encoder's own
#[test]
fn lists_in_step(rt: HostRuntime) {
    assert!(rt; all_pass(rt.alloc()));
}
