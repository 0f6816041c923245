//! Writing the fields of a block.

ghost use Rattle.std.specs.Prelude.{◌≡◌, ◌+◌, ◌^◌, ◌<◌, ◌≤◌, ◌++◌, length, OnOk, IfOk};
ghost use Rattle.hpack_text.specs.Appended.{IsExtended};
ghost use Rattle.std.specs.List.{AllByRecursion};
ghost use Rattle.hpack_text.specs.Bits.{IsOctet};
ghost use Rattle.hpack.specs.Lists.{list_size};
ghost use Rattle.hpack.specs.Written.{AreOctets};
ghost use Rattle.hpack.specs.Choice.{choice, encoding_of_field, after_choice, encoding_of_fields};
ghost use Rattle.hpack.specs.Choice.{after_fields};
ghost use Rattle.hpack.specs.PendingTable.{represented, IsPendingTable, PreservesAdded};
ghost use Rattle.hpack.specs.Tables.{added_to};
ghost use Rattle.hpack.specs.PendingTable.{capacity_of};
ghost use Rattle.hpack.specs.Chains.{AreHashes};

use crate::encode::choice::{Choice, choose};
use crate::encode::field::append_field;
use crate::encode::pending_table::PendingTable;
use crate::table::dynamic_table::Table;
use crate::types::chains::Hashes;
use crate::types::entry::Entry;
use crate::types::fault::Fault;
use crate::types::field::Field;
use crate::types::literal::Literal;
use std::alloc::{AllocError, Global};

/// Appends the fields, and applies them to the pending table. On `Err` a prefix of them has been
/// appended.
pub(crate) fn append_fields(
    alloc: Global,
    pending: &mut PendingTable,
    table: &Table,
    fields: &[Field],
    out: &mut Vec<u8>,
) -> Result<(), Fault>
    requires pending { IsPendingTable pending.old table.now }
    requires size { list_size fields.now < 2 ^ 35 }
    ensures written { OnOk result (out.new.items ≡ out.old.items
        ++ encoding_of_fields (represented pending.old table.now) fields.now) }
    ensures after { OnOk result (represented pending.new table.now
        ≡ after_fields (represented pending.old table.now) fields.now) }
    ensures added { OnOk result (PreservesAdded table.now pending.old pending.new) }
    ensures octets { OnOk result (AreOctets fields.now) }
    ensures pending { OnOk result (IsPendingTable pending.new table.now) }
    ensures capacity { capacity_of pending.new ≡ capacity_of pending.old }
    ensures extended { IsExtended out.old.items out.new.items }
{
    for field in fields {
        append_one(alloc, pending, table, field, out)?;
        are_octets(field.name.as_slice());
        are_octets(field.value.as_slice());
    }
    Ok(())
}

/// Does nothing; its contract tells a proof that the items of a slice are octets.
fn are_octets(octets: &[u8])
    ensures { AllByRecursion IsOctet octets.now }
{
    let _len = octets.len();
}

/// Appends one field, and applies it to the pending table. On `Err` a prefix of it has been
/// appended.
fn append_one(
    alloc: Global,
    pending: &mut PendingTable,
    table: &Table,
    field: &Field,
    out: &mut Vec<u8>,
) -> Result<(), Fault>
    requires pending { IsPendingTable pending.old table.now }
    requires name { length field.now.name < 2 ^ 35 }
    requires value { length field.now.value < 2 ^ 35 }
    ensures written { OnOk result (out.new.items ≡ out.old.items
        ++ encoding_of_field (choice (represented pending.old table.now) field.now) field.now) }
    ensures after { OnOk result (represented pending.new table.now
        ≡ after_choice (represented pending.old table.now)
        (choice (represented pending.old table.now) field.now) field.now) }
    ensures pending { OnOk result (IsPendingTable pending.new table.now) }
    ensures added { OnOk result (PreservesAdded table.now pending.old pending.new) }
    ensures capacity { capacity_of pending.new ≡ capacity_of pending.old }
    ensures extended { IsExtended out.old.items out.new.items }
{
    let (choice, hashes) = choose(pending, table, field);
    append_field(choice, field, out)?;
    match choice {
        Choice::Literal(Literal::WithIndexing, _) => {
            add_copy(alloc, pending, table, hashes, field)
        }
        _ => Ok(()),
    }
}

/// Adds a copy of the field to the pending table.
#[inline(always)]
fn add_copy(
    alloc: Global,
    pending: &mut PendingTable,
    table: &Table,
    hashes: Hashes,
    field: &Field,
) -> Result<(), Fault>
    requires pending { IsPendingTable pending.old table.now }
    requires hashes { AreHashes hashes field.now.name field.now.value }
    requires fits { length field.now.name + length field.now.value + 32 ≤ pending.old.maximum }
    ensures after { OnOk result (represented pending.new table.now
        ≡ added_to (represented pending.old table.now)
        (record { name = field.now.name; value = field.now.value })) }
    ensures pending { OnOk result (IsPendingTable pending.new table.now) }
    ensures added { OnOk result (PreservesAdded table.now pending.old pending.new) }
    ensures capacity { capacity_of pending.new ≡ capacity_of pending.old }
{
    let entry = copy_of(alloc, field)?;
    pending.add(table, entry, hashes)?;
    Ok(())
}

/// A copy of the field's name and value.
#[inline(always)]
fn copy_of(alloc: Global, field: &Field) -> Result<Entry, AllocError>
    ensures { IfOk result (λ entry. entry ≡ record {
      name = field.now.name;
      value =
          field.now.value;
    }) }
{
    Entry::copy_of(alloc, field.name.as_slice(), field.value.as_slice())
}
