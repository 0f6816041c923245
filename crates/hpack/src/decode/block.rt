//! A complete block (RFC 7541, section 3.2; RFC 9113, section 4.3).

ghost use Rattle.std.specs.Prelude.{◌≡◌, ◌≤◌, [], OnOk, OnErr, IfOk, IfErr, List as Items};
ghost use Rattle.hpack.specs.declared.types.field.Field.{Field as OneField};
ghost use Rattle.hpack.specs.Lists.{IsList, HoldsList, DecodeFault};
ghost use Rattle.hpack.specs.Blocks.{Block};
ghost use Rattle.hpack.specs.FieldListBuilder.{Builds};
ghost use Rattle.hpack.specs.Prefixes.{BeginsUpdate, UpdatesSoFar};

use crate::decode::field_list_builder::FieldListBuilder;
use crate::decode::fields::read_fields;
use crate::decode::owned_fields::read_owned_fields;
use crate::decode::updates::apply_updates;
use crate::table::dynamic_table::Table;
use crate::types::fault::Fault;
use crate::types::field::{Decoded, List};
use crate::types::field_list::FieldList;
use std::alloc::Global;
use std::mem::replace;

// rule: HPACK 3.1 A block is decoded exactly where its octets are one
/// Decodes a complete block to a list of its own.
pub(crate) fn decode_owned(
    alloc: Global,
    table: &mut Table,
    limit: u32,
    octets: &[u8],
    list_limit: u32,
) -> Result<List, Fault>
    ensures ok { IfOk result (λ list. (fields : Items OneField)
        × Block table.old limit octets.now fields table.new × IsList list_limit fields list) }
    ensures fault { IfErr result (DecodeFault table.old limit octets.now) }
{
    let unparsed = read_updates(table, limit, octets)?;
    read_owned_fields(alloc, table, unparsed, list_limit)
}

// rule: HPACK 4.2 A block without the update that a lower limit asks for is a fault
// rule: HPACK 3.1 A block is decoded exactly where its octets are one
/// Decodes a complete block into a list.
pub(crate) fn decode_block(
    alloc: Global,
    table: &mut Table,
    limit: u32,
    octets: &[u8],
    list_limit: u32,
    list: &mut FieldList,
) -> Result<Decoded, Fault>
    ensures ok { IfOk result (λ decoded. (fields : Items OneField)
        × Block table.old limit octets.now fields table.new
        × HoldsList list_limit fields decoded list.new) }
    ensures fault { IfErr result (DecodeFault table.old limit octets.now) }
    ensures err { OnErr result (list.new ≡ []) }
{
    let room = replace(list, FieldList::new(alloc));
    let mut builder = FieldListBuilder::in_room_of(room, list_limit);
    if let Err(fault) = build_block(alloc, table, limit, octets, &mut builder) {
        *list = builder.into_empty_list();
        return Err(fault);
    }
    let (built, decoded) = builder.into_list();
    *list = built;
    Ok(decoded)
}

/// Reads a complete block: the size updates, and then the fields to the end.
fn build_block(
    alloc: Global,
    table: &mut Table,
    limit: u32,
    octets: &[u8],
    builder: &mut FieldListBuilder,
) -> Result<(), Fault>
    ensures ok { OnOk result ((fields : Items OneField)
        × Block table.old limit octets.now fields table.new
        × Builds builder.old fields builder.new) }
    ensures fault { IfErr result (DecodeFault table.old limit octets.now) }
{
    let unparsed = read_updates(table, limit, octets)?;
    read_fields(alloc, table, unparsed, builder)
}

/// Applies the size updates, after which the maximum is within the limit, and returns the octets
/// of the fields.
#[inline(always)]
fn read_updates<'a>(table: &mut Table, limit: u32, octets: &'a [u8]) -> Result<&'a [u8], Fault>
    ensures so_far { IfOk result (λ unparsed. UpdatesSoFar table.old limit octets.now table.new
        unparsed.now) }
    ensures no_more { IfOk result (λ unparsed. BeginsUpdate unparsed.now → ⊥) }
    ensures within { OnOk result (table.new.maximum ≤ limit) }
    ensures fault { IfErr result (DecodeFault table.old limit octets.now) }
{
    let unparsed = apply_updates(table, limit, octets)?;
    if table.maximum() > limit {
        return Err(Fault::Compression);
    }
    Ok(unparsed)
}
