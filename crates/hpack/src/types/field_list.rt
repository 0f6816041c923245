//! A list of fields whose capacity is used again.

ghost use Rattle.std.specs.Prelude.{◌≡◌, ◌==◌, ◌≤◌, [], length, slice_get, Some, None};
ghost use Rattle.std.specs.Prelude.{IfOk, MatchOption};

use crate::types::field::{Field, FieldRef};
use crate::types::field_place::FieldPlace;
use crate::types::field_refs::FieldRefs;
use std::alloc::{AllocError, Global};
use std::fmt;
use std::marker::Model;

/// The fields of a block, for [`Decoder::decode_into`](crate::Decoder::decode_into): one vector of
/// all names and values, and one of their places. It keeps its capacity from block to block.
/// `{:?}` shows `[sensitive]` in place of a sensitive field's value.
#[derive(Drop)]
pub struct FieldList {
    /// The names and values, one after another. A field that repeats the one before it may share
    /// its octets.
    octets: Vec<u8>,
    /// Where each field is.
    places: Vec<FieldPlace>,
}

impl Model for FieldList {
    ghost use Rattle.std.specs.Prelude.{List};
    ghost use Rattle.hpack.specs.declared.types.field.Field.{Field};
    ghost use Rattle.hpack.specs.FieldLists.{AreWithin, fields_of};

    ghost Value = { List Field };

    ghost view = { λ list. fields_of list.octets.items list.places.items };

    ghost invariant = { λ list. AreWithin list.octets.items list.places.items };
}

impl FieldList {
    ghost use Rattle.hpack.specs.FieldLists.{AreWithin, fields_of, field_lent, value_of};

    // contract: HPACK 3.2 (own) A kept list says its fields and their number
    /// Makes an empty list, without capacity. It takes no memory.
    pub fn new(alloc: Global) -> FieldList
        ensures { result ≡ [] }
    {
        FieldList {
            octets: Vec::new(alloc),
            places: Vec::new(alloc),
        }
    }

    // contract: HPACK 3.2 (own) A kept list says its fields and their number
    // rule: HPACK 3.2 (own) A kept list says its fields and their number
    /// Returns the number of fields. It takes no memory.
    pub fn len(&self) -> usize
        ensures { result ≡ length self.now }
    {
        self.places.len()
    }

    // rule: HPACK 3.2 (own) A kept list says its fields and their number
    /// Returns whether there is no field. It takes no memory.
    pub fn is_empty(&self) -> bool
        ensures { result ≡ (length self.now == 0) }
    {
        self.places.is_empty()
    }

    // contract: HPACK 3.2 (own) A kept list says its fields and their number
    // rule: HPACK 3.2 (own) A kept list says its fields and their number
    /// Returns a field by its place: 0 is the first. It takes no memory.
    pub fn get(&self, place: usize) -> Option<FieldRef<'_>>
        ensures { MatchOption result (length self.now ≤ place)
            (λ field. slice_get self.now place ≡ Some (field_lent field)) }
    {
        let found = self.places.get(place)?;
        Some(found.lend(&self.octets))
    }

    // contract: HPACK 3.2 (own) A kept list says its fields and their number
    /// Returns an iterator over the fields, in order. It takes no memory.
    pub fn iter(&self) -> FieldRefs<'_>
        ensures { result ≡ self.now }
    {
        FieldRefs {
            octets: &self.octets,
            places: &self.places,
        }
    }

    // contract: HPACK 3.2 (own) A kept list says its fields and their number
    // rule: HPACK 3.2 (own) A kept list says its fields and their number
    /// Returns the value of the first field with this name, compared octet for octet; `None` if
    /// there is none. It searches the fields in order, and takes no memory.
    pub fn value(&self, name: &[u8]) -> Option<&[u8]>
        ensures { MatchOption result (value_of name.now self.now ≡ None)
            (λ value. value_of name.now self.now ≡ Some value.now) }
    {
        for field in self.iter() {
            if field.name == name {
                return Some(field.value);
            }
        }
        None
    }

    // contract: HPACK 3.2 (own) A kept list says its fields and their number
    /// Returns copies of the fields, in order.
    ///
    /// # Errors
    ///
    /// [`AllocError`] where an allocation was refused.
    pub fn to_vec(&self, alloc: Global) -> Result<Vec<Field>, AllocError>
        ensures { IfOk result (λ copies. copies.items ≡ self.now) }
    {
        let mut copies = Vec::with_capacity(alloc, self.len())?;
        for field in self.iter() {
            copies.push(Field::copy_of(alloc, field.name, field.value, field.sensitive)?)?;
        }
        Ok(copies)
    }

    // rule: HPACK 3.2 (own) A kept list says its fields and their number
    /// Removes all fields, and keeps the capacity. It takes no memory.
    pub fn clear(&mut self)
        ensures { self.new ≡ [] }
    {
        self.places.clear();
        self.octets.clear();
    }

    /// The octets and the places.
    pub(crate) fn into_parts(self) -> (Vec<u8>, Vec<FieldPlace>)
        ensures { self ≡ fields_of result.0.items result.1.items }
    {
        let FieldList { octets, places } = self;
        (octets, places)
    }

    /// The list of these octets and places.
    pub(crate) fn from_parts(octets: Vec<u8>, places: Vec<FieldPlace>) -> FieldList
        requires { AreWithin octets.items places.items }
        ensures { result ≡ fields_of octets.items places.items }
    {
        FieldList { octets, places }
    }
}

impl fmt::Debug for FieldList {
    fn fmt<W: fmt::Write>(&self, f: &mut fmt::Formatter<W>) -> fmt::Result {
        let mut fields = f.debug_list();
        fields.entries(self.iter());
        fields.finish()
    }
}
