//! An iterator over the fields of a kept list.

ghost use Rattle.hpack.specs.FieldLists.{field_lent};

use crate::types::field::FieldRef;
use crate::types::field_place::FieldPlace;
use std::iter::FusedIterator;
use std::marker::Model;

/// Iterates over the fields of a [`FieldList`](crate::FieldList), in order: what
/// [`FieldList::iter`](crate::FieldList::iter) returns. It takes no memory.
#[derive(Drop)]
pub struct FieldRefs<'a> {
    /// The names and values of the list.
    pub(crate) octets: &'a [u8],
    /// The places of the fields that are left.
    pub(crate) places: &'a [FieldPlace],
}

impl<'a> Model for FieldRefs<'a> {
    ghost use Rattle.std.specs.Prelude.{List};
    ghost use Rattle.hpack.specs.declared.types.field.Field.{Field};
    ghost use Rattle.hpack.specs.FieldLists.{AreWithin, fields_of};

    ghost Value = { List Field };

    ghost view = { λ left. fields_of left.octets.now left.places.now };

    ghost invariant = { λ left. AreWithin left.octets.now left.places.now };
}

impl<'a> Iterator for FieldRefs<'a> {
    ghost use Rattle.std.specs.Iterator.{YieldsFirstBy, item_count};

    type Item = FieldRef<'a>;

    ghost next_gives = { YieldsFirstBy field_lent (λ left. left) };

    ghost remaining = { item_count (λ left. left) };

    // rule: HPACK 3.2 (own) A kept list says its fields and their number
    fn next(&mut self) -> Option<FieldRef<'a>> {
        let (first, others) = self.places.split_first()?;
        self.places = others;
        Some(first.lend(self.octets))
    }
}

impl<'a> FusedIterator for FieldRefs<'a> {}
