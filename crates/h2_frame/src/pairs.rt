//! The pairs of SETTINGS (RFC 9113, section 6.5.1), lent.

ghost use Rattle.std.specs.Prelude.{◌≡◌, ◌==◌, length};
ghost use Rattle.std.specs.Iterator.{YieldsFirst, item_count};
ghost use Rattle.h2_frame.specs.Pairs.{lent_pairs, pairs_left};

use crate::limits::PAIR;
use byteorder::{BigEndian, ByteOrder};

/// The pairs of identifier and value of a SETTINGS frame, lent as the octets that encode them.
#[derive(Clone, Copy, Debug, PartialEq, Eq)]
pub struct Pairs<'a> {
    pub(crate) octets: &'a [u8],
}

impl<'a> Pairs<'a> {
    // contract: 6.5.1 The pairs are 16 bits of identifier and 32 of value, in order
    /// Returns the number of pairs.
    pub fn len(&self) -> usize
        ensures { result ≡ length (lent_pairs self.now) }
    {
        self.octets.len() / PAIR
    }

    /// Returns whether there are no pairs.
    pub fn is_empty(&self) -> bool
        ensures { result ≡ (length (lent_pairs self.now) == 0) }
    {
        self.len() == 0
    }

    // rule: 6.5.1 The pairs are 16 bits of identifier and 32 of value, in order
    /// Returns an iterator over the pairs, in order.
    pub fn iter(&self) -> PairIter<'a>
        ensures { pairs_left result ≡ lent_pairs self.now }
    {
        PairIter {
            octets: self.octets,
        }
    }
}

/// Iterates over the pairs of a SETTINGS frame, in order.
#[derive(Debug, Drop)]
pub struct PairIter<'a> {
    octets: &'a [u8],
}

impl Iterator for PairIter<'_> {
    type Item = (u16, u32);

    ghost next_gives = { YieldsFirst pairs_left };

    ghost remaining = { item_count pairs_left };

    // contract: 6.5.1 The pairs are 16 bits of identifier and 32 of value, in order
    // rule: 6.5.1 The pairs are 16 bits of identifier and 32 of value, in order
    fn next(&mut self) -> Option<(u16, u32)> {
        if self.octets.len() < PAIR {
            return None;
        }
        let id = BigEndian::read_u16(self.octets);
        let value = BigEndian::read_u32(&self.octets[2..]);
        self.octets = &self.octets[PAIR..];
        Some((id, value))
    }
}
