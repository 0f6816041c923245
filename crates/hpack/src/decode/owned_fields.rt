//! The fields of a block, up to its end, as a list of its own.

ghost use Rattle.std.specs.Prelude.{◌≤◌, length, take, IfOk, IfErr, List as Items};
ghost use Rattle.hpack.specs.declared.types.field.Field.{Field as OneField};
ghost use Rattle.hpack.specs.Blocks.{Step, Fields};
ghost use Rattle.hpack.specs.Lists.{IsList};
ghost use Rattle.hpack.specs.OwnedLists.{AddsOwned};
ghost use Rattle.hpack.specs.Prefixes.{FieldsFault, PrefixFault, IsStep};

use crate::decode::field::{owned_at, skip_at};
use crate::decode::owned_list_builder::OwnedListBuilder;
use crate::table::dynamic_table::Table;
use crate::types::fault::Fault;
use crate::types::field::List;
use std::alloc::Global;

// rule: HPACK 4.2 Size updates stand at the beginning of a block
/// Reads all of `octets` as fields, and returns them, or that their size is above `list_limit`.
pub(crate) fn read_owned_fields(
    alloc: Global,
    table: &mut Table,
    octets: &[u8],
    list_limit: u32,
) -> Result<List, Fault>
    ensures ok { IfOk result (λ list. (fields : Items OneField)
        × Fields table.old octets.now fields table.new × IsList list_limit fields list) }
    ensures fault { IfErr result (FieldsFault table.old octets.now) }
{
    let mut unparsed = octets;
    let mut builder = OwnedListBuilder::new(alloc, list_limit);
    let mut literal = Vec::new(alloc);
    while !unparsed.is_empty() {
        let count = read_owned(alloc, table, unparsed, &mut builder, &mut literal)?;
        unparsed = &unparsed[count..];
    }
    Ok(builder.list)
}

/// Reads the field at the start of `octets` into the list, and returns how many octets encode
/// it. Where the list is too large, no field that an index names is copied. The octets of a
/// literal go through `literal`, whose room is used again.
#[inline(always)]
fn read_owned(
    alloc: Global,
    table: &mut Table,
    octets: &[u8],
    builder: &mut OwnedListBuilder,
    literal: &mut Vec<u8>,
) -> Result<usize, Fault>
    ensures ok { IfOk result (λ count. (field : OneField) × (count ≤ length octets.now)
        × Step table.old (take count octets.now) field table.new
        × AddsOwned builder.old.list builder.old.remaining field builder.new.list
        builder.new.remaining) }
    ensures fault { IfErr result (PrefixFault (IsStep table.old) octets.now) }
{
    if builder.is_too_large() {
        literal.clear();
        return skip_at(alloc, table, octets, literal);
    }
    let (field, count) = owned_at(alloc, table, octets, literal)?;
    builder.push(field)?;
    Ok(count)
}
