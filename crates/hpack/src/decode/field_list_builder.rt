//! The list of a block's fields, while their size is within a limit (RFC 9113, section 6.5.2).

ghost use Rattle.std.specs.Prelude.{◌≡◌, ◌↔◌, ◌+◌, ◌≤◌, [], OnOk, IfErr, IsTrue, None, vec_len};

use crate::table::eviction::{OVERHEAD, size_of_octets};
use crate::types::fault::Fault;
use crate::types::field::Decoded;
use crate::types::field_list::FieldList;
use crate::types::field_place::FieldPlace;
use crate::types::read_field::ReadField;

/// The list so far, in the room of a [`FieldList`].
#[derive(Drop)]
pub(crate) struct FieldListBuilder {
    /// The names and values of the fields; those of the next one are appended before it is added.
    pub(crate) octets: Vec<u8>,
    /// Where each field is.
    places: Vec<FieldPlace>,
    /// What the limit leaves; `None` once the size of the fields is above it.
    remaining: Option<u32>,
}

impl FieldListBuilder {
    ghost use Rattle.std.specs.Prelude.{List, ℕ};
    ghost use Rattle.hpack.specs.declared.types.field.Field.{Field};
    ghost use Rattle.hpack.specs.Lists.{HoldsList};
    ghost use Rattle.hpack.specs.FieldLists.{AreWithin};
    ghost use Rattle.hpack.specs.FieldListBuilder.{Builds, RepresentsList, AddsRead, AddsAgain};

    // rule: HPACK 3.2 (own) A list that the caller keeps is emptied, then has the block's fields
    /// An empty list in the room of another one, for a limit in octets.
    pub(crate) fn in_room_of(list: FieldList, list_limit: u32) -> FieldListBuilder
        ensures { RepresentsList list_limit [] result }
    {
        let (mut octets, mut places) = list.into_parts();
        octets.clear();
        places.clear();
        FieldListBuilder {
            octets,
            places,
            remaining: Some(list_limit),
        }
    }

    /// Whether the size is above the limit.
    pub(crate) fn is_too_large(&self) -> bool
        ensures { IsTrue result ↔ (self.now.remaining ≡ None) }
    {
        self.remaining.is_none()
    }

    // rule: HPACK 3.2 (own) A list that the caller keeps is emptied, then has the block's fields
    /// Adds the field whose octets were appended from `start` on, where the size stays within the
    /// limit; otherwise the list is too large, and nothing of it is kept.
    #[inline]
    pub(crate) fn add(&mut self, start: usize, read: ReadField) -> Result<(), Fault>
        requires { start + read.name_len ≤ vec_len self.old.octets }
        ensures ok { OnOk result (AddsRead self.old start read self.new) }
        ensures err { IfErr result (λ fault. fault ≡ Fault.Memory) }
    {
        let name_end = start + read.name_len;
        let size = size_of_octets(&self.octets[start..name_end], &self.octets[name_end..]);
        let remaining = self.remaining.unwrap_or(0);
        if size > remaining as usize {
            self.octets.clear();
            self.places.clear();
            self.remaining = None;
            return Ok(());
        }
        self.places.push(FieldPlace {
            start,
            name_end,
            value_end: self.octets.len(),
            sensitive: read.sensitive,
        })?;
        self.remaining = Some(remaining - size as u32);
        Ok(())
    }

    // rule: HPACK 3.2 (own) A list that the caller keeps is emptied, then has the block's fields
    /// Adds the last field once more, at the same place of the octets, where the size stays within
    /// the limit; otherwise the list is too large, and nothing of it is kept.
    #[inline(always)]
    pub(crate) fn add_again(&mut self) -> Result<(), Fault>
        ensures ok { OnOk result (AddsAgain self.old self.new) }
        ensures err { IfErr result (λ fault. fault ≡ Fault.Memory) }
    {
        let Some(left) = self.remaining else {
            return Ok(());
        };
        let Some(place) = self.places.last() else {
            return Ok(());
        };
        let again = *place;
        let size = again
            .value_end
            .saturating_sub(again.start)
            .saturating_add(OVERHEAD);
        if size <= left as usize {
            self.places.push(again)?;
            self.remaining = Some(left - size as u32);
            return Ok(());
        }
        self.octets.clear();
        self.places.clear();
        self.remaining = None;
        Ok(())
    }

    // rule: HPACK 3.2 (own) A list that the caller keeps is emptied, then has the block's fields
    /// The list, and what it holds.
    pub(crate) fn into_list(self) -> (FieldList, Decoded)
        requires { AreWithin self.octets.items self.places.items }
        ensures { (list_limit : ℕ) (fields : List Field) → RepresentsList list_limit fields self
            → HoldsList list_limit fields result.1 result.0 }
    {
        let FieldListBuilder {
            octets,
            places,
            remaining,
        } = self;
        let decoded = match remaining {
            Some(_) => Decoded::Whole,
            None => Decoded::TooLarge,
        };
        (FieldList::from_parts(octets, places), decoded)
    }

    /// The list without fields.
    pub(crate) fn into_empty_list(self) -> FieldList
        ensures { result ≡ [] }
    {
        let FieldListBuilder {
            mut octets,
            mut places,
            remaining: _,
        } = self;
        octets.clear();
        places.clear();
        FieldList::from_parts(octets, places)
    }
}
