//! Fields: those that C gives, and those that an end lends.

ghost use Rattle.std.specs.Prelude.{◌≡◌, None, IfOk, drop, slice_get};
ghost use Rattle.hpack.specs.FieldLists.{value_of};
ghost use Rattle.belkjoef.specs.Calls.{OnPlace};
ghost use Rattle.belkjoef.specs.Given.{fields_given};
ghost use Rattle.belkjoef.specs.Lent.{OfList, LendsField, AreLent, LendsFields, LendsValue};
ghost use Rattle.belkjoef.specs.Lent.{lent_as};

use crate::event::flag;
use crate::numbers::{EMPTY, NO_FIELD, OK};
use crate::place::{BjEnd, address};
use h2_ends::{Field, FieldList, FieldRef};
use std::alloc::{AllocError, Global};

/// `bj_field`: a field that C gives.
#[repr(C)]
#[derive(Drop)]
pub struct BjField<'a> {
    /// The name.
    pub name: &'a [u8],
    /// The value.
    pub value: &'a [u8],
    /// Not 0 for a field that is never indexed (RFC 7541, section 7.1.3).
    pub sensitive: u32,
}

/// `bj_field`: a field that an end lends.
#[repr(C)]
#[derive(Drop)]
pub struct BjLent {
    /// The address of the name.
    pub name: *const u8,
    /// Its length.
    pub name_length: usize,
    /// The address of the value.
    pub value: *const u8,
    /// Its length.
    pub value_length: usize,
    /// 1 for a field that is never indexed (RFC 7541, section 7.1.3).
    pub sensitive: u32,
}

impl BjLent {
    /// Stores where a field lies.
    fn say(&mut self, field: FieldRef<'_>)
        ensures { self.new ≡ lent_as field.entry }
    {
        self.name = address(field.name);
        self.name_length = field.name.len();
        self.value = address(field.value);
        self.value_length = field.value.len();
        self.sensitive = flag(field.sensitive);
    }
}

// rule: c (own) What C gives is copied; without memory nothing has changed
/// Copies fields.
pub(crate) fn copies(alloc: Global, fields: &[BjField<'_>]) -> Result<Vec<Field>, AllocError>
    ensures { IfOk result (λ copies. copies.items ≡ fields_given fields.now) }
{
    let mut copies = Vec::with_capacity(alloc, fields.len())?;
    for field in fields {
        let copy = Field::copy_of(alloc, field.name, field.value, field.sensitive != 0)?;
        copies.push(copy)?;
    }
    Ok(copies)
}

// contract: c (own) Fields of the list that was handed out last are lent
// rule: c (own) Fields of the list that was handed out last are lent
/// Lends the field at a place of the list that was handed out last.
#[unsafe(no_mangle)]
pub extern "C" fn bj_field_at(
    alloc: Global,
    end: &mut BjEnd,
    place: usize,
    field: &mut BjLent,
) -> i32
    ensures call { OnPlace result
        (OfList (λ list. LendsField (slice_get list place) result field.old field.new))
        end.old.held end.new.held }
    ensures unheld { end.old.held ≡ None → field.new ≡ field.old }
{
    let Some(held) = end.open(alloc) else {
        return EMPTY;
    };
    let answer = lend_at(held.side.conn().list(), place, field);
    end.keep(held);
    answer
}

/// Lends the field at a place of a list.
pub(crate) fn lend_at(list: &FieldList, place: usize, field: &mut BjLent) -> i32
    ensures { LendsField (slice_get list.now place) result field.old field.new }
{
    match list.get(place) {
        Some(found) => {
            field.say(found);
            OK
        }
        None => NO_FIELD,
    }
}

// contract: c (own) Fields of the list that was handed out last are lent
// rule: c (own) Fields of the list that was handed out last are lent
/// Lends fields of the list that was handed out last, from a place on, as many as there is room
/// for.
#[unsafe(no_mangle)]
pub extern "C" fn bj_fields(
    alloc: Global,
    end: &mut BjEnd,
    from: usize,
    fields: &mut [BjLent],
    count: &mut usize,
) -> i32
    ensures call { OnPlace result
        (OfList (λ list. LendsFields (drop from list) result fields.old fields.new count.new))
        end.old.held end.new.held }
    ensures unheld { end.old.held ≡ None → (count.new ≡ 0) × (fields.new ≡ fields.old) }
{
    *count = 0;
    let Some(held) = end.open(alloc) else {
        return EMPTY;
    };
    *count = lend(held.side.conn().list(), from, fields);
    end.keep(held);
    OK
}

/// Lends fields from a place on, and returns how many.
pub(crate) fn lend(list: &FieldList, from: usize, fields: &mut [BjLent]) -> usize
    ensures { AreLent (drop from list.now) fields.old fields.new result }
{
    let count = list.len().saturating_sub(from).min(fields.len());
    for place in 0..count {
        let Some(found) = list.get(from + place) else {
            return place;
        };
        fields[place].say(found);
    }
    count
}

// contract: c (own) Fields of the list that was handed out last are lent
// rule: c (own) Fields of the list that was handed out last are lent
/// Lends the value of the first field with a name, in the list that was handed out last.
#[unsafe(no_mangle)]
pub extern "C" fn bj_field_value(
    alloc: Global,
    end: &mut BjEnd,
    name: &[u8],
    value: &mut *const u8,
    count: &mut usize,
) -> i32
    ensures call { OnPlace result
        (OfList (λ list. LendsValue (value_of name.now list) result
        (record { octets = value.old; length = count.old })
        (record { octets = value.new; length = count.new })))
        end.old.held end.new.held }
    ensures unheld { end.old.held ≡ None → (value.new ≡ value.old) × (count.new ≡ count.old) }
{
    let Some(held) = end.open(alloc) else {
        return EMPTY;
    };
    let answer = lend_value(held.side.conn().list(), name, value, count);
    end.keep(held);
    answer
}

/// Lends the value of the first field with a name in a list.
fn lend_value(list: &FieldList, name: &[u8], value: &mut *const u8, count: &mut usize) -> i32
    ensures { LendsValue (value_of name.now list.now) result
        (record { octets = value.old; length = count.old })
        (record { octets = value.new; length = count.new }) }
{
    match list.value(name) {
        Some(found) => {
            *value = address(found);
            *count = found.len();
            OK
        }
        None => NO_FIELD,
    }
}
