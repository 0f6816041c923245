//! Fields, as they are decoded and encoded.

ghost use Rattle.std.specs.Prelude.{◌≡◌, IfOk};

use crate::types::octets::Octets;
use crate::types::shown::Shown;
use std::alloc::{AllocError, Global};
use std::fmt;

/// A field: a name, a value, and whether it must never be indexed (RFC 7541, section 7.1.3).
/// `{:?}` shows `[sensitive]` in place of a sensitive field's value.
#[derive(Drop)]
pub struct Field {
    /// The name.
    pub name: Octets,
    /// The value.
    pub value: Octets,
    /// Whether it is written, or was read, as a literal that is never indexed.
    pub sensitive: bool,
}

impl Field {
    // rule (contract): HPACK 2.1 (own) The octets of a name and a value are those that were given
    /// Makes a field with copies of a name and a value.
    ///
    /// # Errors
    ///
    /// [`AllocError`] where an allocation was refused.
    #[inline(always)]
    pub fn copy_of(
        alloc: Global,
        name: &[u8],
        value: &[u8],
        sensitive: bool,
    ) -> Result<Field, AllocError>
        ensures { IfOk result (λ field. field ≡ record {
          name = name.now;
          value = value.now;
          sensitive = sensitive;
        }) }
    {
        Ok(Field {
            name: Octets::copy_of(alloc, name)?,
            value: Octets::copy_of(alloc, value)?,
            sensitive,
        })
    }
}

impl fmt::Debug for Field {
    fn fmt<W: fmt::Write>(&self, f: &mut fmt::Formatter<W>) -> fmt::Result {
        if self.sensitive {
            return write!(f, "Field {{ name: {:?}, value: [sensitive] }}", self.name);
        }
        f.debug_struct("Field")
            .field("name", &self.name)
            .field("value", &self.value)
            .finish()
    }
}

/// A field borrowed from a list. `{:?}` shows `[sensitive]` in place of a sensitive field's value.
#[derive(Clone, Copy)]
pub struct FieldRef<'a> {
    /// The name.
    pub name: &'a [u8],
    /// The value.
    pub value: &'a [u8],
    /// Whether it is written, or was read, as a literal that is never indexed.
    pub sensitive: bool,
}

impl fmt::Debug for FieldRef<'_> {
    fn fmt<W: fmt::Write>(&self, f: &mut fmt::Formatter<W>) -> fmt::Result {
        if self.sensitive {
            return write!(
                f,
                "FieldRef {{ name: {:?}, value: [sensitive] }}",
                Shown(self.name)
            );
        }
        f.debug_struct("FieldRef")
            .field("name", &Shown(self.name))
            .field("value", &Shown(self.value))
            .finish()
    }
}

/// The result of [`Decoder::decode`](crate::Decoder::decode): the fields of a block, or a note that
/// they are too large.
#[derive(Debug, Drop)]
pub enum List {
    /// All fields of the block, in order.
    Whole(Vec<Field>),
    /// Nothing: the size of the fields is above the limit. The complete block has changed the
    /// table.
    TooLarge,
}

/// The result of [`Decoder::decode_into`](crate::Decoder::decode_into): what the caller's list then
/// holds.
#[derive(Clone, Copy, Debug, PartialEq, Eq)]
pub enum Decoded {
    /// All fields of the block, in order.
    Whole,
    /// Nothing: the size of the fields is above the limit. The complete block has changed the
    /// table.
    TooLarge,
}
