//! Copies of the fields that C gives, kept from call to call.

ghost use Rattle.std.specs.Prelude.{◌≡◌, OnOk, ◌++◌, ◌≤◌, length, take};
ghost use Rattle.belkjoef.specs.Given.{field_given, fields_given};

use crate::fields::BjField;
use h2_ends::Field;
use hpack::{Octets, list_size};
use std::alloc::{AllocError, Global};
use std::marker::Model;
use std::mem;

/// The most fields that are kept.
const MOST_FIELDS: usize = 64;

/// The greatest size of a list that is kept (RFC 9113, section 6.5.2).
const MOST_OCTETS: usize = 8192;

/// The copies that a call has made, kept for the next one, which copies only what differs. No
/// call shows what is kept, so contracts say only its bounds: at most 64 fields of at most 8,192
/// octets together, where each field counts 32 more.
#[derive(Drop)]
pub(crate) struct KeptFields {
    fields: Vec<Field>,
}

impl Model for KeptFields {
    ghost use Rattle.std.specs.Prelude.{◌≤◌, length};
    ghost use Rattle.hpack.specs.Lists.{list_size};

    ghost Value = { Unit {0} };

    ghost view = { λ kept. tt };

    ghost invariant = { λ kept. (length kept.fields.items ≤ 64)
        × (list_size kept.fields.items ≤ 8192) };
}

impl KeptFields {
    /// Returns an empty store. It takes no memory.
    pub(crate) fn new(alloc: Global) -> KeptFields {
        KeptFields {
            fields: Vec::new(alloc),
        }
    }

    /// Takes out the copies.
    pub(crate) fn take(&mut self, alloc: Global) -> Vec<Field> {
        mem::replace(&mut self.fields, Vec::new(alloc))
    }

    /// Keeps copies, or frees them if they exceed the bounds.
    pub(crate) fn keep(&mut self, copies: Vec<Field>) {
        if copies.len() <= MOST_FIELDS && list_size(&copies) <= MOST_OCTETS {
            self.fields = copies;
        }
    }
}

// rule: c (own) What C gives is copied; without memory nothing has changed
/// Copies fields into these copies, and reuses those that are the same.
pub(crate) fn recopy(
    alloc: Global,
    fields: &[BjField<'_>],
    copies: &mut Vec<Field>,
) -> Result<(), AllocError>
    ensures { OnOk result (copies.new.items ≡ fields_given fields.now) }
{
    copies.truncate(fields.len());
    let kept = copies.len();
    recopy_first(alloc, fields, copies)?;
    copy_rest(alloc, &fields[kept..], copies)
}

/// Copies the first fields into these copies.
fn recopy_first(
    alloc: Global,
    fields: &[BjField<'_>],
    copies: &mut Vec<Field>,
) -> Result<(), AllocError>
    requires { length copies.old.items ≤ length fields.now }
    ensures { OnOk result
        (copies.new.items ≡ fields_given (take (length copies.old.items) fields.now)) }
{
    for place in 0..copies.len() {
        recopy_field(alloc, &fields[place], &mut copies[place])?;
    }
    Ok(())
}

/// Appends copies of fields.
fn copy_rest(
    alloc: Global,
    fields: &[BjField<'_>],
    copies: &mut Vec<Field>,
) -> Result<(), AllocError>
    ensures { OnOk result (copies.new.items ≡ copies.old.items ++ fields_given fields.now) }
{
    copies.reserve(fields.len())?;
    for field in fields {
        let copy = Field::copy_of(alloc, field.name, field.value, field.sensitive != 0)?;
        copies.push(copy)?;
    }
    Ok(())
}

/// Copies a field into this copy.
fn recopy_field(alloc: Global, field: &BjField<'_>, copy: &mut Field) -> Result<(), AllocError>
    ensures { OnOk result (copy.new ≡ field_given field.now) }
{
    recopy_octets(alloc, field.name, &mut copy.name)?;
    recopy_octets(alloc, field.value, &mut copy.value)?;
    copy.sensitive = field.sensitive != 0;
    Ok(())
}

/// Copies octets into this copy, unless it has them.
fn recopy_octets(alloc: Global, octets: &[u8], copy: &mut Octets) -> Result<(), AllocError>
    ensures { OnOk result (copy.new ≡ octets.now) }
{
    if copy.as_slice() != octets {
        *copy = Octets::copy_of(alloc, octets)?;
    }
    Ok(())
}
