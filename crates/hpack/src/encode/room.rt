//! Reserves room for a block before it is appended.

ghost use Rattle.std.specs.Prelude.{◌≡◌, ◌+◌, ◌^◌, ◌<◌, ◌≤◌, OnOk, IfErr, vec_len};
ghost use Rattle.std.specs.Vec.{vec_capacity};
ghost use Rattle.hpack.specs.Choice.{most_octets};
ghost use Rattle.hpack.specs.Lists.{list_size as size_of_list};

use crate::types::fault::Fault;
use crate::types::field::Field;

/// The octets of two size updates.
const UPDATES: usize = 12;

/// By how much a field's share of a list's size exceeds its share of the block, beside name and
/// value: 32 octets less three integers of six.
const SPARE: usize = 14;

// rule: HPACK 3.1 What is encoded is a block of the list
/// Reserves room for the block of the fields, whose list has this size, whatever the encoder
/// chooses.
pub(crate) fn reserve_block(fields: &[Field], size: usize, out: &mut Vec<u8>) -> Result<(), Fault>
    requires bound { size_of_list fields.now < 2 ^ 35 }
    requires size { size ≡ size_of_list fields.now }
    ensures room { OnOk result (vec_len out.new + most_octets fields.now ≤ vec_capacity out.new) }
    ensures items { out.new.items ≡ out.old.items }
    ensures err { IfErr result (λ fault. fault ≡ Fault.Memory) }
{
    out.reserve(octets_of_block(fields, size))?;
    Ok(())
}

/// The most octets that the block of the fields has; their list has this size.
fn octets_of_block(fields: &[Field], size: usize) -> usize
    requires bound { size_of_list fields.now < 2 ^ 35 }
    requires size { size ≡ size_of_list fields.now }
    ensures { result ≡ most_octets fields.now }
{
    size + UPDATES - SPARE * fields.len()
}
