//! The fields of a block, up to its end.

ghost use Rattle.std.specs.Prelude.{◌<◌, ◌≤◌, length, take, IfOk, OnOk, IfErr, List as Items};
ghost use Rattle.hpack.specs.declared.types.field.Field.{Field as OneField};
ghost use Rattle.hpack.specs.Blocks.{Step, Fields};
ghost use Rattle.hpack.specs.FieldListBuilder.{Adds, Builds};
ghost use Rattle.hpack.specs.Repeated.{IsRepeatable, AddsNext};
ghost use Rattle.hpack.specs.Prefixes.{FieldsFault, PrefixFault, IsStep};

use crate::decode::field::{field_at, skip_at};
use crate::decode::field_list_builder::FieldListBuilder;
use crate::table::dynamic_table::Table;
use crate::types::fault::Fault;
use std::alloc::Global;

/// No first octet.
const NO_INDEX: u16 = 0x100;

// rule: HPACK 4.2 Size updates stand at the beginning of a block
/// Reads all of `octets` as fields, into an empty list.
pub(crate) fn read_fields(
    alloc: Global,
    table: &mut Table,
    octets: &[u8],
    builder: &mut FieldListBuilder,
) -> Result<(), Fault>
    ensures ok { OnOk result ((fields : Items OneField)
        × Fields table.old octets.now fields table.new
        × Builds builder.old fields builder.new) }
    ensures fault { IfErr result (FieldsFault table.old octets.now) }
{
    let mut unparsed = octets;
    let mut repeatable = NO_INDEX;
    while !unparsed.is_empty() {
        let (count, next) = read_next(alloc, table, unparsed, repeatable, builder)?;
        repeatable = next;
        unparsed = &unparsed[count..];
    }
    Ok(())
}

/// Reads the field at the start of `octets` into the list, and returns how many octets encode
/// it and, if it is an index in one octet, that octet, or else `NO_INDEX`. `repeatable` is that
/// octet of the field before: if it comes again, it is the same field, of which no other copy
/// is made.
#[inline(always)]
fn read_next(
    alloc: Global,
    table: &mut Table,
    octets: &[u8],
    repeatable: u16,
    builder: &mut FieldListBuilder,
) -> Result<(usize, u16), Fault>
    requires { 0 < length octets.now }
    ensures ok { IfOk result (λ read. (read.0 ≤ length octets.now)
        × ((done : Items OneField) → IsRepeatable repeatable table.old done
        → AddsNext table.old (take read.0 octets.now) builder.old done read.1 table.new
        builder.new)) }
    ensures long { IfOk result (λ read. 0 < read.0) }
    ensures fault { IfErr result (PrefixFault (IsStep table.old) octets.now) }
{
    let first = u16::from(octets[0]);
    if first == repeatable {
        builder.add_again()?;
        return Ok((1, repeatable));
    }
    // Each branch has its own copy of the next call, which then knows what the field is.
    if first >= 0x80 {
        let count = read_one(alloc, table, octets, builder)?;
        return Ok((count, if count == 1 { first } else { NO_INDEX }));
    }
    let count = read_one(alloc, table, octets, builder)?;
    Ok((count, NO_INDEX))
}

/// Reads the field at the start of `octets` into the list, and returns how many octets encode
/// it. Where the list is too large, no field that an index names is copied.
#[inline(always)]
fn read_one(
    alloc: Global,
    table: &mut Table,
    octets: &[u8],
    builder: &mut FieldListBuilder,
) -> Result<usize, Fault>
    ensures ok { IfOk result (λ count. (field : OneField) × (count ≤ length octets.now)
        × Step table.old (take count octets.now) field table.new
        × Adds builder.old field builder.new) }
    ensures fault { IfErr result (PrefixFault (IsStep table.old) octets.now) }
{
    if builder.is_too_large() {
        builder.octets.clear();
        return skip_at(alloc, table, octets, &mut builder.octets);
    }
    let start = builder.octets.len();
    let read = field_at(alloc, table, octets, &mut builder.octets)?;
    builder.add(start, read)?;
    Ok(read.count)
}
