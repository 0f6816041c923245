//! How a field is written.

ghost use Rattle.std.specs.Prelude.{◌≡◌, ◌+◌, ◌^◌, ◌<◌, ◌≤◌, length};
ghost use Rattle.hpack.specs.Choice.{choice, least_index as least_index_of};
ghost use Rattle.hpack.specs.Sought.{is_sought};
ghost use Rattle.hpack.specs.PendingTable.{represented, IsPendingTable};
ghost use Rattle.hpack.specs.Chains.{sought_hash};
ghost use Rattle.hpack.specs.Hashes.{hash_from as hash_of_octets};
ghost use Rattle.hpack.specs.declared.encode.search.Sought.TheVariants.{Exact, Name};
ghost use Rattle.hpack.specs.ChoiceModel.{choice_of, index_of, FitsIfAdded, HashedIfAdded};

use crate::encode::hash::hash_from;
use crate::encode::pending_table::PendingTable;
use crate::encode::search::{Sought, static_index};
use crate::table::dynamic_table::Table;
use crate::table::eviction::size_of_octets;
use crate::types::chains::Hashes;
use crate::types::field::Field;
use crate::types::literal::Literal;

/// How a field is written.
#[derive(Clone, Copy)]
pub(crate) enum Choice {
    /// As the index of an entry.
    Indexed(u64),
    /// As a literal, with the index of its name, or 0.
    Literal(Literal, u64),
}

// rule: HPACK 6.1 (own) A field with an exact entry is its least index
// rule: HPACK 6.2.3 A sensitive field is never indexed
// rule: HPACK 6.2.1 (own) Any other field is added to the table
// rule: HPACK 6.2.2 (own) A field larger than the maximum is not added
/// Chooses how a field is written. A sensitive field is a literal that is never indexed.
/// Another one is the index of an exact entry if there is one, else a literal, which is added
/// to the table unless it is larger than the maximum; if it is added, its hashes are returned
/// too.
pub(crate) fn choose(pending: &PendingTable, table: &Table, field: &Field) -> (Choice, Hashes)
    requires { IsPendingTable pending.now table.now }
    ensures chosen { choice_of result.0 ≡ choice (represented pending.now table.now) field.now }
    ensures small { index_of result.0 < 2 ^ 35 }
    ensures fits { FitsIfAdded result.0 (length field.now.name + length field.now.value + 32)
        pending.now.maximum }
    ensures hashes { HashedIfAdded result.0 result.1 field.now.name field.now.value }
{
    let name = hash_from(0, field.name.as_slice());
    if field.sensitive {
        let named = name_index(pending, table, name, field);
        let choice = Choice::Literal(Literal::NeverIndexed, named);
        return (choice, Hashes { name, exact: 0 });
    }
    let (found, exact) = exact_index(pending, table, name, field);
    let hashes = Hashes { name, exact };
    if found > 0 {
        return (Choice::Indexed(found), hashes);
    }
    let named = name_index(pending, table, name, field);
    let size = size_of_octets(field.name.as_slice(), field.value.as_slice());
    if size > pending.maximum() as usize {
        return (Choice::Literal(Literal::WithoutIndexing, named), hashes);
    }
    (Choice::Literal(Literal::WithIndexing, named), hashes)
}

// rule: HPACK 6.2 (own) A literal is encoded with the least index of its name
/// The least index of an entry with the field's name, the static table first, or 0.
#[inline(always)]
fn name_index(pending: &PendingTable, table: &Table, name_hash: u64, field: &Field) -> u64
    requires pending { IsPendingTable pending.now table.now }
    requires hash { name_hash ≡ hash_of_octets 0 field.now.name }
    ensures value { result ≡ least_index_of (is_sought Name field.now)
        (represented pending.now table.now).entries }
    ensures small { result < 2 ^ 35 }
{
    let found = static_index(Sought::Name, name_hash, field);
    if found > 0 {
        return found;
    }
    pending.dynamic_index(table, Sought::Name, name_hash, field)
}

// contract: HPACK 6.1 (own) A field with an exact entry is its least index
// rule: HPACK 6.1 (own) A field with an exact entry is its least index
/// The least index of an entry with the field's name and value, the static table first, or 0; and,
/// if the static table has no such entry, the hash of both.
fn exact_index(pending: &PendingTable, table: &Table, name_hash: u64, field: &Field) -> (u64, u64)
    requires pending { IsPendingTable pending.now table.now }
    requires hash { name_hash ≡ hash_of_octets 0 field.now.name }
    ensures value { result.0 ≡ least_index_of (is_sought Exact field.now)
        (represented pending.now table.now).entries }
    ensures small { result.0 < 2 ^ 35 }
    ensures hash { result.0 ≤ 0 → result.1 ≡ sought_hash Exact field.now.name field.now.value }
{
    let found = static_index(Sought::Exact, name_hash, field);
    if found > 0 {
        return (found, 0);
    }
    let hash = hash_from(name_hash, field.value.as_slice());
    (
        pending.dynamic_index(table, Sought::Exact, hash, field),
        hash,
    )
}
