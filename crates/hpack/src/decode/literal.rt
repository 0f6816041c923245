//! Literals and indices (RFC 7541, sections 6.1 and 6.2).

ghost use Rattle.std.specs.Prelude.{◌≡◌, ℕ, ◌≤◌, ◌++◌, length, take, drop, OnOk, IfOk, IfErr};
ghost use Rattle.std.specs.Prelude.{List as Items};
ghost use Rattle.hpack.specs.Blocks.{LiteralName, after_literal, is_sensitive};
ghost use Rattle.hpack.specs.Tables.{added_to};
ghost use Rattle.hpack.specs.Prefixes.{PrefixFault, IsName, IsLiteral, EncodesLiteral, IsIndex};
ghost use Rattle.hpack.specs.Prefixes.{EncodesIndex, prefix_bits_of};

use crate::decode::texts::{int_at, text_at};
use crate::table::dynamic_table::Table;
use crate::table::eviction::OVERHEAD;
use crate::table::lookup::{entry_at, joined_at};
use crate::types::entry::Entry;
use crate::types::fault::Fault;
use crate::types::literal::Literal;
use crate::types::read_field::ReadField;
use std::alloc::{AllocError, Global};

/// The number of bits of an indexed field's index in the first octet.
const INDEX_PREFIX: u8 = 7;

// rule: HPACK 6.1 An indexed field is the entry
// rule: HPACK 6.1 An indexed field of index 0 is a fault
/// The name and the value of the field that the index at the start of `octets` names, lent, and how
/// many octets encode the index.
#[inline(always)]
pub(crate) fn indexed<'a>(
    table: &'a Table,
    octets: &[u8],
) -> Result<(&'a [u8], &'a [u8], usize), Fault>
    ensures ok { IfOk result (λ read. (read.2 ≤ length octets.now)
        × EncodesIndex table.now.entries (take read.2 octets.now) read.0.now read.1.now) }
    ensures fault { IfErr result (PrefixFault (IsIndex table.now.entries) octets.now) }
{
    let (index, count) = int_at(INDEX_PREFIX, octets)?;
    match entry_at(table, index) {
        Some((name, value)) => Ok((name, value, count)),
        None => Err(Fault::Compression),
    }
}

// rule: HPACK 6.1 An indexed field is the entry
/// Appends the name and the value of the field that the index at the start of `octets` names,
/// and returns the length of the name and how many octets encode the index.
#[inline(always)]
pub(crate) fn indexed_at(
    table: &Table,
    octets: &[u8],
    out: &mut Vec<u8>,
) -> Result<(usize, usize), Fault>
    ensures ok { IfOk result (λ read. (name value : Items ℕ)
        × (out.new.items ≡ out.old.items ++ (name ++ value)) × (read.0 ≡ length name)
        × (read.1 ≤ length octets.now)
        × EncodesIndex table.now.entries (take read.1 octets.now) name value) }
    ensures fault { IfErr result (PrefixFault (IsIndex table.now.entries) octets.now) }
{
    let (index, count) = int_at(INDEX_PREFIX, octets)?;
    let Some((joined, name_len)) = joined_at(table, index) else {
        return Err(Fault::Compression);
    };
    out.extend_from_slice(joined)?;
    Ok((name_len, count))
}

// rule: HPACK 4.4 A name by index is looked up before entries leave
// rule: HPACK 6.2.1 A literal with incremental indexing is added to the table
// rule: HPACK 6.2.2 A literal without indexing is not added
// rule: HPACK 6.2.3 A literal never indexed is not added, and is sensitive
/// Appends the name and the value of the literal at the start of `octets`, adds the field to
/// the table if its kind says so, and returns what was read.
#[inline(always)]
pub(crate) fn literal_at(
    alloc: Global,
    table: &mut Table,
    kind: Literal,
    octets: &[u8],
    out: &mut Vec<u8>,
) -> Result<ReadField, Fault>
    ensures ok { IfOk result (λ read. (name value : Items ℕ)
        × (out.new.items ≡ out.old.items ++ (name ++ value)) × (read.name_len ≡ length name)
        × (read.count ≤ length octets.now)
        × EncodesLiteral table.old.entries (prefix_bits_of kind) (take read.count octets.now)
        name value
        × (read.sensitive ≡ is_sensitive kind)
        × (table.new
        ≡ after_literal kind table.old (record { name = name; value = value }))) }
    ensures fault { IfErr result (PrefixFault (IsLiteral table.old.entries (prefix_bits_of kind))
        octets.now) }
{
    let start = out.len();
    let (name_len, count) = parts_at(table, index_prefix_bits(kind), octets, out)?;
    add_literal(alloc, table, kind, &out[start..], name_len)?;
    let sensitive = kind == Literal::NeverIndexed;
    Ok(ReadField {
        name_len,
        sensitive,
        count,
    })
}

/// Adds a copy of a literal's name and value to the table, where its kind says so. The name is the
/// first octets, and the value the others.
#[inline(always)]
fn add_literal(
    alloc: Global,
    table: &mut Table,
    kind: Literal,
    joined: &[u8],
    name_len: usize,
) -> Result<(), AllocError>
    requires { name_len ≤ length joined.now }
    ensures { OnOk result (table.new ≡ after_literal kind table.old
        (record { name = take name_len joined.now; value = drop name_len joined.now })) }
{
    if kind == Literal::WithIndexing {
        return add_copy(alloc, table, joined, name_len);
    }
    Ok(())
}

// rule: HPACK 4.4 An entry larger than the maximum empties the table
/// Adds a copy of the name, and of the value that follows it, to the table. If they are larger
/// than the table's maximum, they are not copied, and the table is emptied.
#[inline(always)]
fn add_copy(
    alloc: Global,
    table: &mut Table,
    joined: &[u8],
    name_len: usize,
) -> Result<(), AllocError>
    requires { name_len ≤ length joined.now }
    ensures { OnOk result (table.new ≡ added_to table.old
        (record { name = take name_len joined.now; value = drop name_len joined.now })) }
{
    if joined.len() + OVERHEAD > table.maximum() as usize {
        table.clear();
        return Ok(());
    }
    table.add(Entry::copy_of_joined(alloc, joined, name_len)?);
    Ok(())
}

/// The number of bits of the index of a literal's name in the first octet.
fn index_prefix_bits(kind: Literal) -> u8
    ensures { result ≡ prefix_bits_of kind }
{
    match kind {
        Literal::WithIndexing => 6,
        Literal::WithoutIndexing | Literal::NeverIndexed => 4,
    }
}

// rule: HPACK 6.2 A literal has its name from an index or a string
/// Appends the name and the value of a literal, and returns how long the name is and how many
/// octets encode the literal.
#[inline(always)]
fn parts_at(
    table: &Table,
    prefix_bits: u8,
    octets: &[u8],
    out: &mut Vec<u8>,
) -> Result<(usize, usize), Fault>
    requires at_least { 1 ≤ prefix_bits }
    requires at_most { prefix_bits ≤ 8 }
    ensures ok { IfOk result (λ read. (name value : Items ℕ)
        × (out.new.items ≡ out.old.items ++ (name ++ value)) × (read.0 ≡ length name)
        × (read.1 ≤ length octets.now)
        × EncodesLiteral table.now.entries prefix_bits (take read.1 octets.now) name value) }
    ensures fault { IfErr result
        (PrefixFault (IsLiteral table.now.entries prefix_bits) octets.now) }
{
    let start = out.len();
    let (index, head_len) = int_at(prefix_bits, octets)?;
    let following = &octets[head_len..];
    let name_octets = name_at(table, index, following, out)?;
    let name_len = out.len() - start;
    let value_octets = text_at(&following[name_octets..], out)?;
    Ok((name_len, head_len + name_octets + value_octets))
}

// rule: HPACK 4.4 A name by index is looked up before entries leave
// rule: HPACK 6.2 A literal has its name from an index or a string
/// Appends the name of a literal, after its index, and returns how many octets encode it: none
/// where the index names an entry.
#[inline(always)]
fn name_at(table: &Table, index: u64, octets: &[u8], out: &mut Vec<u8>) -> Result<usize, Fault>
    ensures ok { IfOk result (λ count. (name : Items ℕ) × (out.new.items ≡ out.old.items ++ name)
        × (count ≤ length octets.now)
        × LiteralName table.now.entries index name (take count octets.now)) }
    ensures fault { IfErr result (PrefixFault (IsName table.now.entries index) octets.now) }
{
    if index == 0 {
        return text_at(octets, out);
    }
    let Some((name, _)) = entry_at(table, index) else {
        return Err(Fault::Compression);
    };
    out.extend_from_slice(name)?;
    Ok(0)
}
