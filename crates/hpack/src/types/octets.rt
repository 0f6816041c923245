//! Octets that contracts see as a list.

ghost use Rattle.std.specs.Prelude.{◌≡◌, ◌≤◌, length, IfOk};

use crate::types::shown::Shown;
use std::alloc::{AllocError, Global};
use std::fmt;
use std::marker::Model;

/// The most octets that are kept in place: as many as fit where a vector would be.
const MOST_IN_PLACE: usize = 30;

/// Where the octets are.
#[derive(Drop)]
pub(crate) enum Kept {
    /// In a vector of their own.
    Owned(Vec<u8>),
    /// In the program, for as long as it runs.
    Static(&'static [u8]),
    /// In place, where they are few.
    Short(ShortOctets),
}

/// At most 30 octets, in place.
#[derive(Drop)]
pub(crate) struct ShortOctets {
    length: u8,
    octets: [u8; MOST_IN_PLACE],
}

impl Model for ShortOctets {
    ghost use Rattle.std.specs.Prelude.{List, ℕ, ◌≤◌, take};

    ghost Value = { List ℕ };

    ghost view = { λ short. take short.length short.octets };

    ghost invariant = { λ short. short.length ≤ 30 };
}

impl ShortOctets {
    // rule (contract): HPACK 2.1 (own) The octets of a name and a value are those that were given
    /// A copy of the octets of a slice.
    #[inline(always)]
    fn copy_of(octets: &[u8]) -> ShortOctets
        requires { length octets.now ≤ 30 }
        ensures { result ≡ octets.now }
    {
        let mut copy = [0; MOST_IN_PLACE];
        copy[..octets.len()].copy_from_slice(octets);
        ShortOctets {
            length: octets.len() as u8,
            octets: copy,
        }
    }

    // rule (contract): HPACK 2.1 (own) The octets of a name and a value are those that were given
    /// The octets.
    #[inline(always)]
    fn as_slice(&self) -> &[u8]
        ensures { result.now ≡ self.now }
    {
        &self.octets[..usize::from(self.length)]
    }
}

/// The octets of a name or a value. Making them from a `Vec<u8>` or from static octets takes no
/// memory, nor does copying up to 30 octets, which are stored in place. `{:?}` shows them as a byte
/// string, such as `b":path"`.
#[derive(Drop)]
pub struct Octets {
    kept: Kept,
}

impl Model for Octets {
    ghost use Rattle.std.specs.Prelude.{List, ℕ};
    ghost use Rattle.hpack.specs.KeptOctets.{octets_kept};

    ghost Value = { List ℕ };

    ghost view = { λ octets. octets_kept octets.kept };
}

impl Octets {
    // contract: HPACK 2.1 (own) The octets of a name and a value are those that were given
    // rule (contract): HPACK 2.1 (own) The octets of a name and a value are those that were given
    /// Keeps the octets of a vector, without a copy.
    pub fn new(octets: Vec<u8>) -> Octets
        ensures { result ≡ octets.items }
    {
        Octets {
            kept: Kept::Owned(octets),
        }
    }

    // rule (contract): HPACK 2.1 (own) The octets of a name and a value are those that were given
    /// Keeps static octets, such as `b":status"`. It takes no memory.
    pub fn from_static(octets: &'static [u8]) -> Octets
        ensures { result ≡ octets.now }
    {
        Octets {
            kept: Kept::Static(octets),
        }
    }

    // contract: HPACK 2.1 (own) The octets of a name and a value are those that were given
    // rule (contract): HPACK 2.1 (own) The octets of a name and a value are those that were given
    /// Copies the octets of a slice. It takes no memory if there are at most 30.
    ///
    /// # Errors
    ///
    /// [`AllocError`] where the allocation was refused.
    pub fn copy_of(alloc: Global, octets: &[u8]) -> Result<Octets, AllocError>
        ensures { IfOk result (λ copy. copy ≡ octets.now) }
    {
        if octets.len() <= MOST_IN_PLACE {
            return Ok(Octets {
                kept: Kept::Short(ShortOctets::copy_of(octets)),
            });
        }
        Ok(Octets::new(Vec::from_slice(alloc, octets)?))
    }

    // contract: HPACK 2.1 (own) The octets of a name and a value are those that were given
    // rule (contract): HPACK 2.1 (own) The octets of a name and a value are those that were given
    /// Returns the octets.
    #[inline(always)]
    pub fn as_slice(&self) -> &[u8]
        ensures { result.now ≡ self.now }
    {
        match &self.kept {
            Kept::Owned(octets) => octets.as_slice(),
            Kept::Static(octets) => octets,
            Kept::Short(short) => short.as_slice(),
        }
    }
}

impl fmt::Debug for Octets {
    fn fmt<W: fmt::Write>(&self, f: &mut fmt::Formatter<W>) -> fmt::Result {
        Shown(self.as_slice()).fmt(f)
    }
}
