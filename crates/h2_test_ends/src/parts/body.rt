//! Bodies that are made as they are read: an octet follows from its place.

use std::cell::Cell;
use std::io;
use std::io::Read;

/// The length of a long body.
pub(crate) const LONG: u64 = 8 << 20;

/// The length of a shorter one.
pub(crate) const SHORTER: u64 = 1 << 18;

/// How many octets of a body are kept at most by a file server and an upload.
pub(crate) const PART: u64 = 16_384;

/// The first window of a stream.
pub(crate) const WINDOW: u64 = 65_535;

/// The octet of every body at a place.
fn octet_at(place: u64) -> u8 {
    place.wrapping_mul(0x9e37_79b9_7f4a_7c15).to_be_bytes()[0]
}

/// Whether these are the octets of a body from a place on.
pub(crate) fn are_at(place: u64, octets: &[u8]) -> bool {
    let mut are_right = true;
    let mut place = place;
    for octet in octets {
        are_right = are_right && *octet == octet_at(place);
        place = place.wrapping_add(1);
    }
    are_right
}

/// A body, as far as it was made.
#[derive(Clone, Copy)]
pub(crate) struct Source<'a> {
    pub(crate) made: &'a Cell<u64>,
    pub(crate) length: u64,
    /// Whether it fails in place of its end.
    pub(crate) fails: bool,
}

impl Source<'_> {
    /// Makes octets up to its end, and returns their number.
    pub(crate) fn fill(&self, into: &mut [u8]) -> usize {
        let mut count = 0usize;
        let mut place = self.made.get();
        for octet in into {
            if place < self.length {
                *octet = octet_at(place);
                place = place.wrapping_add(1);
                count = count.saturating_add(1);
            }
        }
        self.made.set(place);
        count
    }
}

impl Read for Source<'_> {
    fn read(&mut self, into: &mut [u8]) -> io::Result<usize> {
        let count = self.fill(into).min(into.len());
        if count == 0 && self.fails {
            return Err(io::Error::other("the disk is broken"));
        }
        Ok(count)
    }
}
