//! Entries of a table.

ghost use Rattle.std.specs.Prelude.{◌≡◌, ◌≤◌, length, take, drop, IfOk};

use crate::types::shown::Shown;
use std::alloc::{AllocError, Global};
use std::fmt;
use std::marker::Model;

/// An entry of a dynamic table: a name and a value, in one allocation.
#[derive(Drop)]
pub struct Entry {
    /// The name, and then the value.
    octets: Vec<u8>,
    /// How many of the octets are the name.
    name_len: usize,
}

impl Model for Entry {
    ghost use Rattle.std.specs.Prelude.{◌≤◌, length, take, drop};
    ghost use Rattle.hpack.specs.Entry.{Entry as NameAndValue};

    ghost Value = { NameAndValue };

    ghost view = { λ entry. record {
      name = take entry.name_len entry.octets.items;
      value =
          drop entry.name_len entry.octets.items;
    } };

    ghost invariant = { λ entry. entry.name_len ≤ length entry.octets.items };
}

impl Entry {
    /// Makes an entry with copies of the name and the value.
    ///
    /// # Errors
    ///
    /// [`AllocError`] where the allocation was refused.
    #[inline(always)]
    pub(crate) fn copy_of(alloc: Global, name: &[u8], value: &[u8]) -> Result<Entry, AllocError>
        ensures { IfOk result (λ entry. entry ≡ record { name = name.now; value = value.now }) }
    {
        let mut octets = Vec::with_capacity(alloc, name.len() + value.len())?;
        octets.extend_from_slice(name)?;
        octets.extend_from_slice(value)?;
        Ok(Entry {
            octets,
            name_len: name.len(),
        })
    }

    /// Makes an entry with a copy of the octets: the first are the name, and the others the
    /// value.
    ///
    /// # Errors
    ///
    /// [`AllocError`] where the allocation was refused.
    #[inline(always)]
    pub(crate) fn copy_of_joined(
        alloc: Global,
        joined: &[u8],
        name_len: usize,
    ) -> Result<Entry, AllocError>
        requires { name_len ≤ length joined.now }
        ensures { IfOk result (λ entry. entry ≡ record {
          name = take name_len joined.now;
          value = drop name_len joined.now;
        }) }
    {
        Ok(Entry {
            octets: Vec::from_slice(alloc, joined)?,
            name_len,
        })
    }

    /// The name followed by the value, and the length of the name.
    #[inline(always)]
    pub(crate) fn joined(&self) -> (&[u8], usize)
        ensures within { result.1 ≤ length result.0.now }
        ensures parts { self.now ≡ record {
          name = take result.1 result.0.now;
          value = drop result.1 result.0.now;
        } }
    {
        (&self.octets, self.name_len)
    }

    /// Returns the name.
    pub fn name(&self) -> &[u8]
        ensures { result.now ≡ self.now.name }
    {
        &self.octets[..self.name_len]
    }

    /// Returns the value.
    pub fn value(&self) -> &[u8]
        ensures { result.now ≡ self.now.value }
    {
        &self.octets[self.name_len..]
    }
}

impl fmt::Debug for Entry {
    fn fmt<W: fmt::Write>(&self, f: &mut fmt::Formatter<W>) -> fmt::Result {
        f.debug_struct("Entry")
            .field("name", &Shown(self.name()))
            .field("value", &Shown(self.value()))
            .finish()
    }
}
