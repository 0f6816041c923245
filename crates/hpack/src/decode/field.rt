//! One field of a block (RFC 7541, section 6).

ghost use Rattle.std.specs.Prelude.{◌↔◌, ◌≤◌, ◌<◌, IsTrue, length, take, IfOk, IfErr, MatchOption};
ghost use Rattle.hpack.specs.declared.types.field.Field.{Field as OneField};
ghost use Rattle.hpack.specs.Blocks.{FirstOctet, Step};
ghost use Rattle.hpack.specs.FieldListBuilder.{AppendsField};
ghost use Rattle.hpack.specs.Prefixes.{PrefixFault, IsStep, IsKind};

use crate::decode::literal::{indexed, indexed_at, literal_at};
use crate::table::dynamic_table::Table;
use crate::types::fault::Fault;
use crate::types::field::Field;
use crate::types::literal::Literal;
use crate::types::read_field::ReadField;
use std::alloc::Global;

/// The capacity for a literal whose field is copied: most have fewer octets.
const LITERAL_ROOM: usize = 500;

/// Appends the name and the value of the field at the start of `octets`, and returns what was read.
#[inline(always)]
pub(crate) fn field_at(
    alloc: Global,
    table: &mut Table,
    octets: &[u8],
    out: &mut Vec<u8>,
) -> Result<ReadField, Fault>
    ensures ok { IfOk result (λ read. (field : OneField)
        × AppendsField out.old.items out.new.items field read × (read.count ≤ length octets.now)
        × Step table.old (take read.count octets.now) field table.new) }
    ensures fault { IfErr result (PrefixFault (IsStep table.old) octets.now) }
{
    if octets.is_empty() {
        return Err(Fault::Compression);
    }
    let first = octets[0];
    if first >= 0x80 {
        let (name_len, count) = indexed_at(table, octets, out)?;
        return Ok(ReadField {
            name_len,
            sensitive: false,
            count,
        });
    }
    let Some(kind) = kind_of(first) else {
        return Err(Fault::Compression);
    };
    literal_at(alloc, table, kind, octets, out)
}

/// Reads the field at the start of `octets` as [`field_at`] does, and returns a copy of it and how
/// many octets encode it. The octets of a literal go through `literal`.
#[inline(always)]
pub(crate) fn owned_at(
    alloc: Global,
    table: &mut Table,
    octets: &[u8],
    literal: &mut Vec<u8>,
) -> Result<(Field, usize), Fault>
    ensures ok { IfOk result (λ read. (read.1 ≤ length octets.now)
        × Step table.old (take read.1 octets.now) read.0 table.new) }
    ensures fault { IfErr result (PrefixFault (IsStep table.old) octets.now) }
{
    if begins_with_index(octets) {
        let (name, value, count) = indexed(table, octets)?;
        return Ok((Field::copy_of(alloc, name, value, false)?, count));
    }
    literal.clear();
    literal.reserve(LITERAL_ROOM)?;
    let read = field_at(alloc, table, octets, literal)?;
    let (name, value) = literal.split_at(read.name_len);
    let field = Field::copy_of(alloc, name, value, read.sensitive)?;
    Ok((field, read.count))
}

// rule: HPACK 6.2 A literal has its name from an index or a string
/// Reads the field at the start of `octets` as [`field_at`] does, and returns only how many
/// octets encode it: a field that an index names is not appended.
pub(crate) fn skip_at(
    alloc: Global,
    table: &mut Table,
    octets: &[u8],
    out: &mut Vec<u8>,
) -> Result<usize, Fault>
    ensures ok { IfOk result (λ count. (field : OneField) × (count ≤ length octets.now)
        × Step table.old (take count octets.now) field table.new) }
    ensures fault { IfErr result (PrefixFault (IsStep table.old) octets.now) }
{
    if begins_with_index(octets) {
        let (_, _, count) = indexed(table, octets)?;
        return Ok(count);
    }
    let read = field_at(alloc, table, octets, out)?;
    Ok(read.count)
}

/// Whether the first octet begins an index: its first bit is 1.
#[inline(always)]
fn begins_with_index(octets: &[u8]) -> bool
    ensures { IsTrue result ↔ FirstOctet 0x80 0x100 octets.now }
{
    matches!(octets, [0x80..=0xff, ..])
}

// rule: HPACK 6.2.1 A literal with incremental indexing is added to the table
// rule: HPACK 6.2.2 A literal without indexing is not added
// rule: HPACK 6.2.3 A literal never indexed is not added, and is sensitive
/// The kind of a literal, by its first octet; `None` for a size update.
fn kind_of(first: u8) -> Option<Literal>
    requires { first < 0x80 }
    ensures { MatchOption result ((0x20 ≤ first) × (first < 0x40)) (λ kind. IsKind kind first) }
{
    match first {
        0x40.. => Some(Literal::WithIndexing),
        0x20..=0x3f => None,
        0x10..=0x1f => Some(Literal::NeverIndexed),
        _ => Some(Literal::WithoutIndexing),
    }
}
