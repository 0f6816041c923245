//! Fields that are drawn, always the same ones from the same seed.

ghost use Rattle.std.specs.Prelude.{◌<◌};

use hpack::{Field, Octets};
use std::alloc::{AllocError, Global};

/// The most fields of a list.
pub(crate) const MOST_FIELDS: usize = 20;

/// The limits that are set between blocks.
const LIMITS: [u32; 12] = [0, 1, 33, 34, 64, 100, 200, 256, 300, 1000, 4096, 65_536];

/// Names of the static table, others, and none.
const NAMES: [&str; 14] = [
    "",
    ":method",
    ":path",
    ":status",
    ":authority",
    "accept-encoding",
    "cookie",
    "set-cookie",
    "via",
    "a",
    "b",
    "ab",
    "x-id",
    "x-forwarded-for",
];

/// Values of the static table, others, and none.
const VALUES: [&str; 10] = [
    "",
    "GET",
    "/",
    "/index.html",
    "200",
    "404",
    "gzip, deflate",
    "a",
    "ab",
    "www.example.com",
];

/// Draws numbers, always the same ones from the same seed, by a linear congruential generator.
#[derive(Drop)]
pub(crate) struct Draw {
    pub(crate) state: u64,
}

impl Draw {
    /// A number below the bound.
    pub(crate) fn below(&mut self, bound: usize) -> usize
        requires { 0 < bound }
        ensures { result < bound }
    {
        self.state = self
            .state
            .wrapping_mul(6_364_136_223_846_793_005)
            .wrapping_add(1_442_695_040_888_963_407);
        (self.state >> 33) as usize % bound
    }

    /// As many octets, each below the bound.
    fn octets(&mut self, alloc: Global, count: usize, bound: u8) -> Result<Vec<u8>, AllocError>
        requires { 0 < bound }
    {
        let mut octets = Vec::new(alloc);
        for _ in 0..count {
            octets.push(self.below(bound as usize) as u8)?;
        }
        Ok(octets)
    }

    /// A value: a known one, one of few that are short, one of any octets, or one that is long.
    fn value(&mut self, alloc: Global) -> Result<Vec<u8>, AllocError> {
        match self.below(16) {
            0..=5 => Vec::from_slice(alloc, VALUES[self.below(VALUES.len())].as_bytes()),
            6 => self.octets(alloc, 200, 255),
            7 => every_octet(alloc),
            8..=10 => {
                let count = self.below(60);
                self.octets(alloc, count, 255)
            }
            _ => {
                let count = self.below(4);
                self.octets(alloc, count, 2)
            }
        }
    }

    /// A field, one in eight of them sensitive.
    fn field(&mut self, alloc: Global) -> Result<Field, AllocError> {
        let name = NAMES[self.below(NAMES.len())];
        let value = self.value(alloc)?;
        Ok(Field {
            name: Octets::copy_of(alloc, name.as_bytes())?,
            value: Octets::new(value),
            sensitive: self.below(8) == 0,
        })
    }

    /// A limit.
    pub(crate) fn limit(&mut self) -> u32 {
        LIMITS[self.below(LIMITS.len())]
    }

    /// A list.
    pub(crate) fn list(&mut self, alloc: Global) -> Result<Vec<Field>, AllocError> {
        let mut fields = Vec::new(alloc);
        for _ in 0..self.below(MOST_FIELDS + 1) {
            fields.push(self.field(alloc)?)?;
        }
        Ok(fields)
    }
}

/// Each octet once.
fn every_octet(alloc: Global) -> Result<Vec<u8>, AllocError> {
    let mut octets = Vec::new(alloc);
    for octet in 0..=u8::MAX {
        octets.push(octet)?;
    }
    Ok(octets)
}
